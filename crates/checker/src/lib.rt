// Checking an activation frame (SCOPE, "The activation frame").
#![tactic(auto)]

ghost use Rattle.std.specs.Prelude.{◌≡◌, length, drop, eqb};
ghost use Rattle.answer.specs.Answer.{answer};
ghost use Rattle.answer.specs.Given.{answer_of};
ghost use Rattle.octets.specs.Bits.{value_of, bits_of};
ghost use Rattle.remainder.specs.Division.{polynomial};
ghost use Rattle.layout.specs.Places.{frame_length, check_field};
ghost use Rattle.layout.specs.Frame.{field_of, message_of, check_of};
ghost use Rattle.layout.specs.Refusals.{bit_refusals};
ghost use Rattle.checker.specs.Promises.{Checked, KindChecked};

use answer::Refused;

// A frame's kind; its number is specs/Promises.antt's `kind_number`.
#[derive(Clone, Copy, PartialEq, Eq)]
pub enum Kind {
    Training,
    Final,
}

// Whether the check bits, as a field, are those of the message.
fn checks(frame: &[u8], c: u32) -> bool
    requires { (length frame.now ≡ frame_length) × (c ≡ value_of (field_of check_field (bits_of frame.now))) }
    ensures { result ≡ eqb (polynomial (field_of check_field (bits_of frame.now))) (check_of (message_of (bits_of frame.now))) }
{
    let r = remainder::check_bits(frame, layout::COEFFICIENTS_AT, layout::MESSAGE_BITS);
    bitfields::turned(layout::CHECK_BITS, c) == r
}

// Whether a frame's check bits and pad are right: all that is checked of a frame behind its sync.
fn end_right(frame: &[u8]) -> Result<(), Refused>
    requires { length frame.now ≡ frame_length }
    ensures { answer_of result ≡ answer (drop 1 (bit_refusals (bits_of frame.now))) }
{
    let end = walk::pair(
        frame,
        layout::CHECK_AT,
        layout::CHECK_BITS,
        layout::PAD_BITS,
    );
    if end.second != 0 {
        return Err(Refused::Pad);
    }
    if !checks(frame, end.first) {
        return Err(Refused::Check);
    }
    Ok(())
}

// The kind of a frame that is right.
pub fn kind_of(frame: &[u8]) -> Result<Kind, Refused>
    ensures { KindChecked frame.now result }
{
    if frame.len() != layout::FRAME_OCTETS {
        return Err(Refused::Length);
    }
    let kind = match bitfields::field(frame, 0, layout::SYNC_BITS) {
        layout::TRAINING_SYNC => Kind::Training,
        layout::FINAL_SYNC => Kind::Final,
        _ => return Err(Refused::Sync),
    };
    end_right(frame)?;
    Ok(kind)
}

// Whether a frame is right.
pub fn check(frame: &[u8]) -> Result<(), Refused>
    ensures { Checked frame.now (answer_of result) }
{
    kind_of(frame).map(|_kind| ())
}
