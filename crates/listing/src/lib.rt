// The bench listing (SCOPE): a frame's text, put into a lent room. specs/Listing.antt defines the text.
#![tactic(auto)]

ghost use Rattle.std.specs.Prelude.{◌≡◌, cond, ◌∷◌, [], ◌++◌, ◌<◌, ◌≤◌, eqb, ltb, length, take};
ghost use Rattle.octets.specs.Bits.{bits_of};
ghost use Rattle.remainder.specs.Division.{polynomial};
ghost use Rattle.layout.specs.Places.{frame_length, check_field};
ghost use Rattle.layout.specs.Frame.{field_of};
ghost use Rattle.ascii.specs.Text.{hexes};
ghost use Rattle.ascii.specs.Promises.{Puts};
ghost use Rattle.listing.specs.Listing.{number_line, coefficient_line, coefficient_lines, vendor_line, check_line, training_lines, kind_lines};
ghost use Rattle.answer.specs.Given.{number_of};
ghost use Rattle.listing.specs.Promises.{Listed};
ghost use Rattle.listing.specs.Words.{length_words, reason_words, refusal_words, vendor_words, Worded};

use answer::Refused;
use ascii::Text;
use reader::Found;

// The line of coefficient number k.
fn put_coefficient_line(text: &mut Text<'_>, k: u32, c: i32)
    ensures { Puts text.old (coefficient_line k c) text.new }
{
    forms::form(text, b"c # ", &[k]);
    text.signed(c);
    text.put(b'\n');
}

// A line for each coefficient.
fn put_coefficient_lines(text: &mut Text<'_>, cs: &[i32])
    requires { length cs.now ≤ 180 }
    ensures { Puts text.old (coefficient_lines 1 cs.now) text.new }
{
    for (k, &c) in (1..).zip(cs) {
        put_coefficient_line(text, k, c);
    }
}

// A line that names octets.
fn put_hex_line(text: &mut Text<'_>, name: &[u8], octets: &[u8])
    ensures { Puts text.old (name.now ++ hexes octets.now ++ (10 ∷ [])) text.new }
{
    text.word(name);
    text.hexes(octets);
    text.put(b'\n');
}

// The vendor line and the check line.
fn put_tail(text: &mut Text<'_>, vendor: &[u8], check: u32)
    requires { check < 65536 }
    ensures { Puts text.old (vendor_line vendor.now ++ check_line check) text.new }
{
    put_hex_line(text, b"vendor ", vendor);
    put_hex_line(text, b"check ", &[(check / 256) as u8, (check % 256) as u8]);
}

// The lines of a training frame before vendor data.
fn put_training(text: &mut Text<'_>, cs: &[i32], a: u32, b: u32)
    requires { length cs.now ≡ 180 }
    ensures { Puts text.old (training_lines cs.now a b) text.new }
{
    let n = highest::highest(cs);
    forms::form(text, b"kind training\ncoefficients #\n", &[n as u32]);
    put_coefficient_lines(text, &cs[..n]);
    forms::form(text, b"A #\nB #\n", &[a, b]);
}

// The lines of a frame before vendor data, by its kind.
fn put_kind(text: &mut Text<'_>, found: Found, cs: &[i32])
    requires { length cs.now ≡ 180 }
    ensures { Puts text.old (kind_lines found cs.now) text.new }
{
    match found {
        Found::Training { a, b } => put_training(text, cs, a, b),
        Found::Final => text.word(b"kind final\n"),
    }
}

// What is refused.
fn put_refused(text: &mut Text<'_>, n: u32)
    ensures { Puts text.old (number_line "refused " n) text.new }
{
    forms::form(text, b"refused #\n", &[n]);
}

// A frame's check bits as a number, c1 highest.
fn check_of(frame: &[u8]) -> u32
    ensures { (result < 65536) × (length frame.now ≡ 529 → result ≡ polynomial (field_of check_field (bits_of frame.now))) }
{
    let c1_lowest = bitfields::field(frame, layout::CHECK_AT, layout::CHECK_BITS);
    let c1_highest = bitfields::turned(layout::CHECK_BITS, c1_lowest);
    c1_highest
}

// The listing of the octets read, and how much of the room it takes.
pub fn list(frame: &[u8], room: &mut [u8]) -> usize
    ensures { Listed frame.now room.old result room.new }
{
    let mut cs = [0i32; layout::COEFFICIENTS];
    let mut vendor = [0u8; layout::VENDOR_OCTETS];
    let mut reserved = [0u8; layout::RESERVED_OCTETS];
    let mut text = Text { room, at: 0 };
    match reader::read(frame, &mut cs, &mut vendor, &mut reserved) {
        Ok(found) => {
            put_kind(&mut text, found, &cs);
            put_tail(&mut text, &vendor, check_of(frame));
            text.at
        },
        Err(no) => {
            put_refused(&mut text, no.number());
            text.at
        },
    }
}

// A file that is not as long as a frame, by its octets.
fn put_length(text: &mut Text<'_>, octets: usize)
    ensures { Puts text.old (length_words octets) text.new }
{
    if layout::FRAME_OCTETS < octets {
        text.word(
            b"the file has more than 529 octets, a frame has 529: a file holds one frame; capture it again",
        );
    } else if octets == 1 {
        text.word(b"the file has 1 octet, a frame has 529: it is cut short; capture it again");
    } else {
        let form = b"the file has # octets, a frame has 529: it is cut short; capture it again";
        forms::form(text, form, &[octets as u32]);
    }
}

// Why a frame is refused, or a file is none.
fn put_why(text: &mut Text<'_>, no: Refused, octets: usize)
    ensures { Puts text.old (cond (eqb (number_of no) 1) (length_words octets) (reason_words (number_of no))) text.new }
{
    match no {
        Refused::Length => put_length(text, octets),
        Refused::Sync => text.word(
            b"the sync word is neither of the two: this is no descrambled frame, or its octets hold the first bit highest; capture it again",
        ),
        Refused::Pad => text.word(
            b"a pad bit is not zero: the last octet holds more than the end of a frame; capture it again",
        ),
        Refused::Check => text.word(
            b"the check bits differ: the frame is damaged; capture it again",
        ),
        Refused::Unknown
        | Refused::Count
        | Refused::Range
        | Refused::Stuffing
        | Refused::Flag
        | Refused::Escape
        | Refused::Size => {},
    }
}

// The line of a refusal.
fn put_refusal(text: &mut Text<'_>, no: Refused, octets: usize)
    ensures { Puts text.old (refusal_words (number_of no) octets) text.new }
{
    text.word(b"lister: ");
    put_why(text, no, octets);
    text.put(b'\n');
}

// The line of vendor data, where it is text.
fn put_vendor(text: &mut Text<'_>, vendor: &[u8])
    ensures { Puts text.old (vendor_words vendor.now) text.new }
{
    let n = ascii::text_length(vendor);
    if n == 0 {
        return;
    }
    text.word(b"lister: vendor data as text: ");
    text.word(&vendor[..n]);
    text.put(b'\n');
}

// What is said of the octets read, and how much of the room it takes.
pub fn words(frame: &[u8], room: &mut [u8]) -> usize
    ensures { Worded frame.now room.old result room.new }
{
    let mut cs = [0i32; layout::COEFFICIENTS];
    let mut vendor = [0u8; layout::VENDOR_OCTETS];
    let mut reserved = [0u8; layout::RESERVED_OCTETS];
    let mut text = Text { room, at: 0 };
    match reader::read(frame, &mut cs, &mut vendor, &mut reserved) {
        Ok(_) => {
            put_vendor(&mut text, &vendor);
            text.at
        },
        Err(no) => {
            put_refusal(&mut text, no, frame.len());
            text.at
        },
    }
}
