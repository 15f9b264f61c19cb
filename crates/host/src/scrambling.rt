// The scrambler for C: the answer and the next state together; a refused call hands the state back equal.
ghost use Rattle.std.specs.Prelude.{◌≡◌};
ghost use Rattle.recurrence.specs.declared.Way.TheVariants.{Scramble as scramble, Descramble as descramble};
ghost use Rattle.host.specs.Scrambling.{crossing, bit_crossing, ScramblerStarted, BitScrambled, ScrambledRun, FrameDescrambled};

use answer::Refused;
use scrambler::{Scrambler, Step};

// The answer, and the state to go on with.
#[repr(C)]
#[derive(Drop)]
pub struct Scrambled {
    pub answer: u32,
    pub state: u32,
}

// The answer, the bit that comes out, and the state to go on with.
#[repr(C)]
#[derive(Drop)]
pub struct ScrambledBit {
    pub answer: u32,
    pub bit: u32,
    pub state: u32,
}

// What a start or a run from a state gave, as it goes to C.
pub(crate) fn scrambled_out(ran: Result<Scrambler, Refused>, state: u32) -> Scrambled
    ensures { result ≡ crossing state ran }
{
    match ran {
        Ok(next) => Scrambled {
            answer: answer::DONE,
            state: next.state,
        },
        Err(no) => Scrambled {
            answer: no.number(),
            state,
        },
    }
}

// And what a step gave.
fn bit_out(step: Result<Step, Refused>, state: u32) -> ScrambledBit
    ensures { result ≡ bit_crossing state step }
{
    match step {
        Ok(s) => ScrambledBit {
            answer: answer::DONE,
            bit: s.bit,
            state: s.next.state,
        },
        Err(no) => ScrambledBit {
            answer: no.number(),
            bit: 0,
            state,
        },
    }
}

// The state that an end starts with.
pub fn sdsl_scrambler_start(end: u32) -> Scrambled
    ensures { ScramblerStarted end result }
{
    scrambled_out(Scrambler::start(end), 0)
}

// Scrambles one bit.
pub fn sdsl_scramble_bit(end: u32, state: u32, bit: u32) -> ScrambledBit
    ensures { BitScrambled scramble end state bit result }
{
    bit_out(Scrambler { end, state }.scramble(bit), state)
}

// Descrambles one bit.
pub fn sdsl_descramble_bit(end: u32, state: u32, bit: u32) -> ScrambledBit
    ensures { BitScrambled descramble end state bit result }
{
    bit_out(Scrambler { end, state }.descramble(bit), state)
}

// Scrambles the first `bits` bits of the input.
pub fn sdsl_scramble(
    end: u32,
    state: u32,
    input: &[u8],
    bits: usize,
    output: &mut [u8],
) -> Scrambled
    ensures { ScrambledRun scramble end state input.now bits output.old result output.new }
{
    let ran = Scrambler { end, state }.scramble_run(input, bits, output);
    scrambled_out(ran, state)
}

// Descrambles the first `bits` bits of the input.
pub fn sdsl_descramble(
    end: u32,
    state: u32,
    input: &[u8],
    bits: usize,
    output: &mut [u8],
) -> Scrambled
    ensures { ScrambledRun descramble end state input.now bits output.old result output.new }
{
    let ran = Scrambler { end, state }.descramble_run(input, bits, output);
    scrambled_out(ran, state)
}

// Descrambles a whole frame.
pub fn sdsl_descramble_frame(end: u32, state: u32, frame: &[u8], output: &mut [u8]) -> Scrambled
    ensures { FrameDescrambled end state frame.now output.old result output.new }
{
    let ran = Scrambler { end, state }.descramble_frame(frame, output);
    scrambled_out(ran, state)
}
