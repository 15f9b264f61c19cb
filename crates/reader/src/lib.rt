// Reading an activation frame (SCOPE, "The activation frame").
#![tactic(auto)]

ghost use Rattle.std.specs.Prelude.{◌≡◌, ◌&&◌, eqb, ◌+◌, length};
ghost use Rattle.octets.specs.Bits.{value_of, bits_of, part};
ghost use Rattle.ranges.specs.Ranges.{coefficient_count};
ghost use Rattle.layout.specs.Places.{frame_length, vendor_length, reserved_length, place_of, a_field, reserved_field};
ghost use Rattle.reader.specs.Promises.{words_in, vendor_octets, reserved_octets, Read};

use answer::Refused;
use checker::Kind;

// What a frame gives beside what goes into the lent rooms: of a training frame A and B, with the first bit, a0 or b0, as the lowest.
#[derive(Clone, Copy, PartialEq, Eq)]
pub enum Found {
    Training { a: u32, b: u32 },
    Final,
}

// A and B of a training frame, at their place, and vendor data behind them.
fn words(frame: &[u8], at: usize, vendor: &mut [u8]) -> Found
    requires { (length frame.now ≡ frame_length) × (at ≡ place_of a_field) × (length vendor.old ≡ vendor_length) }
    ensures { (vendor.new ≡ vendor_octets (bits_of frame.now)) × (result ≡ words_in (bits_of frame.now)) }
{
    let found = walk::pair(frame, at, layout::WORD_BITS, layout::WORD_BITS);
    octets::copy(vendor, 0, frame, found.next, layout::VENDOR_BITS);
    Found::Training {
        a: found.first,
        b: found.second,
    }
}

// The octet at which the reserved bits begin, and how many of them are behind the first 64.
const RESERVED_OCTET: usize = layout::RESERVED_AT / 8;

const BEHIND_64: u32 = layout::RESERVED_BITS - 64;

// The first 64 of the reserved bits.
fn first_reserved(frame: &[u8]) -> u64
    ensures { result ≡ value_of (part (place_of reserved_field) 64 (bits_of frame.now)) }
{
    octets::word(frame, RESERVED_OCTET)
}

// The three behind them.
fn last_reserved(frame: &[u8]) -> u64
    ensures { result ≡ value_of (part (place_of reserved_field + 64) 3 (bits_of frame.now)) }
{
    octets::bits(frame, layout::RESERVED_AT, 64, BEHIND_64)
}

// The reserved bits of a frame: 64 of them, and the others as a whole octet, so that its top bits become zero, whatever stood in the room.
fn put_reserved(frame: &[u8], reserved: &mut [u8])
    requires { (length frame.now ≡ frame_length) × (length reserved.old ≡ reserved_length) }
    ensures { reserved.new ≡ reserved_octets (bits_of frame.now) }
{
    let first = first_reserved(frame);
    let last = last_reserved(frame);
    octets::put_word(reserved, 0, first);
    octets::put_front(reserved, 8, 8, last);
}

// Whether the three rooms that reading fills have their lengths.
fn rooms_right(coefficients: usize, vendor: usize, reserved: usize) -> bool
    ensures { result ≡ (eqb coefficients coefficient_count && (eqb vendor vendor_length && eqb reserved reserved_length)) }
{
    coefficients == layout::COEFFICIENTS
        && vendor == layout::VENDOR_OCTETS
        && reserved == layout::RESERVED_OCTETS
}

// A frame's kind and vendor data, and of a training frame its coefficients, A, B and its reserved bits.
pub fn read(
    frame: &[u8],
    coefficients: &mut [i32],
    vendor: &mut [u8],
    reserved: &mut [u8],
) -> Result<Found, Refused>
    ensures { Read frame.now coefficients.old vendor.old reserved.old result
        coefficients.new vendor.new reserved.new }
{
    if !rooms_right(coefficients.len(), vendor.len(), reserved.len()) {
        return Err(Refused::Length);
    }
    match checker::kind_of(frame)? {
        Kind::Training => {
            let at = walk::fill_signed(
                frame,
                layout::COEFFICIENTS_AT,
                layout::COEFFICIENT_BITS,
                coefficients,
            );
            put_reserved(frame, reserved);
            Ok(words(frame, at, vendor))
        },
        Kind::Final => {
            octets::copy(vendor, 0, frame, layout::VENDOR_AT, layout::VENDOR_BITS);
            Ok(Found::Final)
        },
    }
}
