// Sending an activation frame for C: it goes out scrambled or not at all. Coefficients are 720 octets, as in reading; the state goes on as in every call of
// the scrambler.
ghost use Rattle.host.specs.Sending.{FrameSent};

use crate::scrambling::{Scrambled, scrambled_out};
use answer::Refused;
use scrambler::Scrambler;

// Sends a frame of either kind.
pub fn sdsl_frame_send(
    end: u32,
    state: u32,
    kind: u32,
    count: u32,
    coefficients: &[u8],
    a: u32,
    b: u32,
    vendor: &[u8],
    frame: &mut [u8],
) -> Scrambled
    ensures { FrameSent end state kind count coefficients.now a b vendor.now frame.old result frame.new }
{
    if coefficients.len() != numbers::COEFFICIENT_OCTETS {
        return scrambled_out(Err(Refused::Length), state);
    }
    let cs = numbers::numbers(coefficients);
    let x = Scrambler { end, state };
    let ran = sender::send(x, kind, count, &cs, a, b, vendor, frame);
    scrambled_out(ran, state)
}
