// Sending an activation frame: its fields written, and scrambled on the way out (SCOPE, "Sending a frame"). The frame as it is written stands in an
// array of its own; what is lent only ever gets the scrambled one.
#![tactic(auto)]

ghost use Rattle.std.specs.Prelude.{◌≡◌, ◌&&◌, [], ◌∷◌, ◌++◌, ◌≤◌, eqb, length, replicate};
ghost use Rattle.answer.specs.Answer.{answer};
ghost use Rattle.answer.specs.Given.{answer_of};
ghost use Rattle.octets.specs.Bits.{digits_of, bits_of, octets_of, laid};
ghost use Rattle.ranges.specs.Ranges.{coefficient_count, word_width};
ghost use Rattle.layout.specs.Places.{reserved_width, vendor_length, frame_length, place_of, sync_field, coefficients_field};
ghost use Rattle.layout.specs.Frame.{coefficient_bits, used, behind, frame_bits, training_bits, final_bits, field_of};
ghost use Rattle.recurrence.specs.declared.Way.TheVariants.{Scramble as scramble};
ghost use Rattle.recurrence.specs.Promises.{wide_state};
ghost use Rattle.scrambler.specs.Promises.{unknown_end, frame_refusals, ClockedPromise, FramePromise};
ghost use Rattle.sender.specs.Promises.{frame_octets, send_refusals, Sent, field_refusals, number_refusals};

use answer::Refused;
use recurrence::Way;
use scrambler::Scrambler;

// What a frame carries; its coefficients and vendor data are as many as there have to be.
#[derive(Clone, Copy)]
struct Fields<'a> {
    count: u32,
    coefficients: &'a [i32],
    a: u32,
    b: u32,
    vendor: &'a [u8],
    ghost all: { length coefficients.now ≡ coefficient_count },
    ghost whole: { length vendor.now ≡ vendor_length },
}

// A or B: its first bit, a0 or b0, stands first and weighs least.
fn put_word(frame: &mut [u8], at: usize, word: u32)
    ensures { frame.new ≡ laid frame.old at (digits_of word_width word) }
{
    bitfields::put_field(frame, at, layout::WORD_BITS, word);
}

impl<'a> Fields<'a> {
    // All coefficients' fields, behind sync: those behind the first `count` are zero.
    fn put_coefficients(self, frame: &mut [u8])
        requires { self.count ≤ coefficient_count }
        ensures { frame.new ≡ laid frame.old (place_of coefficients_field) (coefficient_bits (used self.entry.count self.entry.coefficients.now)) }
    {
        let count = self.count as usize;
        bitfields::put_signed_fields(
            frame,
            layout::COEFFICIENTS_AT,
            layout::COEFFICIENT_BITS,
            &self.coefficients[0..count],
            self.count,
        );
        let bits = layout::COEFFICIENT_STEP * count;
        octets::clear(
            frame,
            layout::COEFFICIENTS_AT + bits,
            layout::ALL_COEFFICIENT_BITS - bits as u32,
        );
    }

    // Behind sync and coefficients, which stand already: A, B, vendor data, reserved, check bits, pad.
    fn finish(self, frame: &mut [u8])
        requires { length frame.old ≡ frame_length }
        ensures { frame.new ≡ octets_of frame_length
            (frame_bits (field_of sync_field (bits_of frame.old))
            (field_of coefficients_field (bits_of frame.old)
            ++ behind self.entry.a self.entry.b self.entry.vendor.now (replicate reserved_width 0))) }
    {
        put_word(frame, layout::A_AT, self.a);
        put_word(frame, layout::B_AT, self.b);
        octets::copy(
            frame,
            layout::VENDOR_AT,
            self.vendor,
            0,
            layout::VENDOR_BITS,
        );
        octets::clear(frame, layout::RESERVED_AT, layout::RESERVED_BITS);
        let r = remainder::check_bits(frame, layout::COEFFICIENTS_AT, layout::MESSAGE_BITS);
        let c = bitfields::turned(layout::CHECK_BITS, r);
        bitfields::put_field(frame, layout::CHECK_AT, layout::CHECK_BITS, c);
        octets::clear(frame, layout::PAD_AT, layout::PAD_BITS);
    }

    // A training frame.
    fn put_training(self, frame: &mut [u8])
        requires { (length frame.old ≡ frame_length) × (self.count ≤ coefficient_count) }
        ensures { frame.new ≡ octets_of frame_length
            (training_bits self.entry.count self.entry.coefficients.now self.entry.a self.entry.b self.entry.vendor.now) }
    {
        bitfields::put_field(frame, 0, layout::SYNC_BITS, layout::TRAINING_SYNC);
        self.put_coefficients(frame);
        self.finish(frame);
    }

    // A final frame: zeros where a training frame has its coefficients, A and B.
    fn put_final(self, frame: &mut [u8])
        requires { length frame.old ≡ frame_length }
        ensures { frame.new ≡ octets_of frame_length (final_bits self.entry.vendor.now) }
    {
        bitfields::put_field(frame, 0, layout::SYNC_BITS, layout::FINAL_SYNC);
        octets::clear(frame, layout::COEFFICIENTS_AT, layout::ALL_COEFFICIENT_BITS);
        let none = Fields {
            count: self.count,
            coefficients: self.coefficients,
            a: 0,
            b: 0,
            vendor: self.vendor,
        };
        none.finish(frame);
    }

    // The frame of these fields, of a kind that is known. A final one looks at vendor data only.
    fn put(self, plain: &mut [u8], kind: u32)
        requires { (length plain.old ≡ frame_length) × (kind ≡ 0 → self.count ≤ coefficient_count) }
        ensures { plain.new ≡ frame_octets kind self.entry.count self.entry.coefficients.now self.entry.a self.entry.b self.entry.vendor.now }
    {
        if kind == layout::TRAINING {
            self.put_training(plain);
        } else {
            self.put_final(plain);
        }
    }
}

// A frame's sync straight through, and the line's run over the bits between sync and pad, scrambled: the state after it.
// Stays: beside Scrambler::clocked, which descrambles, since the edits clocked_through_sync and other_ends_tap of this crate change it here.
fn clocked(x: Scrambler, plain: &[u8], room: &mut [u8]) -> Result<u32, Refused>
    ensures { ClockedPromise scramble x plain.now room.old result room.new }
{
    octets::copy(room, 0, plain, 0, layout::SYNC_BITS);
    recurrence::run(
        Way::Scramble,
        scrambler::tap(x.end),
        x.state,
        plain,
        layout::SYNC_BITS,
        layout::PAYLOAD_BITS as usize,
        room,
    )
}

// A whole frame scrambled into the room: the pad is zero.
fn scrambled(x: Scrambler, plain: &[u8], room: &mut [u8]) -> Result<Scrambler, Refused>
    requires { answer (frame_refusals x plain.now room.old) ≡ 0 }
    ensures { FramePromise scramble x plain.now room.old result room.new }
{
    let state = clocked(x, plain, room)?;
    octets::clear(room, layout::PAD_AT, layout::PAD_BITS);
    Ok(Scrambler { state, ..x })
}

// Why an end is refused.
fn end_allowed(x: Scrambler) -> Result<(), Refused>
    ensures { answer_of result ≡ answer (unknown_end x.end ∷ []) }
{
    if Scrambler::NTU < x.end {
        return Err(Refused::Unknown);
    }
    Ok(())
}

// Why a state is refused.
fn state_allowed(x: Scrambler) -> Result<(), Refused>
    ensures { answer_of result ≡ answer (wide_state x.state ∷ []) }
{
    if Scrambler::STATES <= x.state {
        return Err(Refused::Range);
    }
    Ok(())
}

impl<'a> Fields<'a> {
    // Why a frame's numbers are refused: the count, from the fewest on, the coefficients in use, A and B.
    fn fields_allowed(self, fewest: u32) -> Result<(), Refused>
        ensures { answer_of result ≡ answer (field_refusals fewest self.entry.count self.entry.coefficients.now self.entry.a self.entry.b) }
    {
        let n = self.count as usize;
        if self.count < fewest || layout::COEFFICIENTS < n {
            return Err(Refused::Count);
        }
        if !ranges::all_in_range(
            &self.coefficients[..n],
            ranges::LOWEST_COEFFICIENT,
            ranges::HIGHEST_COEFFICIENT,
        ) {
            return Err(Refused::Range);
        }
        if ranges::HIGHEST_WORD < self.a || ranges::HIGHEST_WORD < self.b {
            return Err(Refused::Range);
        }
        Ok(())
    }

    // Why the numbers are refused, in number order.
    fn numbers_allowed(self, x: Scrambler, fewest: u32) -> Result<(), Refused>
        ensures { answer_of result ≡ answer (number_refusals x fewest self.entry.count self.entry.coefficients.now self.entry.a self.entry.b) }
    {
        end_allowed(x)?;
        self.fields_allowed(fewest)?;
        state_allowed(x)
    }
}

// Whether what is lent has the right lengths.
fn whole(coefficients: &[i32], vendor: &[u8], frame: &[u8]) -> bool
    ensures { result ≡ (eqb (length coefficients.now) coefficient_count && eqb (length vendor.now) vendor_length
        && eqb (length frame.now) frame_length) }
{
    coefficients.len() == layout::COEFFICIENTS
        && vendor.len() == layout::VENDOR_OCTETS
        && frame.len() == layout::FRAME_OCTETS
}

// Why sending is refused: what writing refuses and what scrambling refuses, in number order. Of a final frame no coefficient is in use, and A and B
// are zero.
fn allowed<'a>(
    x: Scrambler,
    kind: u32,
    count: u32,
    coefficients: &'a [i32],
    a: u32,
    b: u32,
    vendor: &'a [u8],
    frame: &[u8],
) -> Result<(), Refused>
    ensures { answer_of result ≡ answer (send_refusals x kind count coefficients.now a b vendor.now frame.now) }
{
    if !whole(coefficients, vendor, frame) {
        return Err(Refused::Length);
    }
    let fields = Fields {
        count,
        coefficients,
        a,
        b,
        vendor,
    };
    let none = Fields {
        count: 0,
        coefficients,
        a: 0,
        b: 0,
        vendor,
    };
    match kind {
        layout::TRAINING => fields.numbers_allowed(x, layout::FEWEST),
        layout::FINAL => none.numbers_allowed(x, 0),
        _ => Err(Refused::Unknown),
    }
}

// Sends a frame of either kind: what goes out on the line, and the scrambler for the next frame.
pub fn send(
    x: Scrambler,
    kind: u32,
    count: u32,
    coefficients: &[i32],
    a: u32,
    b: u32,
    vendor: &[u8],
    frame: &mut [u8],
) -> Result<Scrambler, Refused>
    ensures { Sent x kind count coefficients.now a b vendor.now frame.old result frame.new }
{
    allowed(x, kind, count, coefficients, a, b, vendor, frame)?;
    let mut plain = [0u8; layout::FRAME_OCTETS];
    let fields = Fields {
        count,
        coefficients,
        a,
        b,
        vendor,
    };
    fields.put(&mut plain, kind);
    scrambled(x, &plain, frame)
}
