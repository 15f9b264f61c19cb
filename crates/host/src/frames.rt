// Activation frames for C, as they are once descrambled: coefficients are 720 octets, four each, low octet first.
ghost use Rattle.std.specs.Prelude.{◌≡◌};
ghost use Rattle.host.specs.Frames.{FrameRead};
ghost use Rattle.checker.specs.Promises.{Checked};
ghost use Rattle.answer.specs.Given.{number_of};

use crate::answered;
use answer::Refused;
use reader::Found;

// What reading a frame gives.
#[repr(C)]
#[derive(Drop)]
pub struct FrameFields {
    pub answer: u32,
    pub kind: u32,
    pub a: u32,
    pub b: u32,
}

// A refusal, with 0 for every other number.
fn refused(no: Refused) -> FrameFields
    ensures { result ≡ record { answer = number_of no; kind = 0; a = 0; b = 0 } }
{
    FrameFields {
        answer: no.number(),
        kind: 0,
        a: 0,
        b: 0,
    }
}

// What is wrong with a frame, or 0.
pub fn sdsl_frame_check(frame: &[u8]) -> u32
    ensures { Checked frame.now result }
{
    answered(checker::check(frame))
}

// Reads a frame: its kind, and into lent memory vendor data and, of a training frame, the coefficients and the reserved bits.
pub fn sdsl_frame_read(
    frame: &[u8],
    coefficients: &mut [u8],
    vendor: &mut [u8],
    reserved: &mut [u8],
) -> FrameFields
    ensures { FrameRead frame.now coefficients.old vendor.old reserved.old result
        coefficients.new vendor.new reserved.new }
{
    if coefficients.len() != numbers::COEFFICIENT_OCTETS {
        return refused(Refused::Length);
    }
    let mut cs = [0i32; 180];
    match reader::read(frame, &mut cs, vendor, reserved) {
        Ok(Found::Training { a, b }) => {
            numbers::put_numbers(coefficients, &cs);
            FrameFields {
                answer: answer::DONE,
                kind: layout::TRAINING,
                a,
                b,
            }
        },
        Ok(Found::Final) => FrameFields {
            answer: answer::DONE,
            kind: layout::FINAL,
            a: 0,
            b: 0,
        },
        Err(no) => refused(no),
    }
}
