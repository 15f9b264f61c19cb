// The scrambler (SCOPE, "Scrambler"; 002, clause 7.1.6): an end's tap and state; a bit at a time and runs of bits; and back, whole frames too.
#![tactic(auto)]

ghost use Rattle.std.specs.Prelude.{◌≡◌, [], ◌∷◌};
ghost use Rattle.answer.specs.Answer.{answer};
ghost use Rattle.answer.specs.Given.{answer_of};
ghost use Rattle.recurrence.specs.declared.Way.TheVariants.{Scramble as scramble, Descramble as descramble};
ghost use Rattle.recurrence.specs.Promises.{wide_state};
ghost use Rattle.scrambler.specs.Ends.{tap_of};
ghost use Rattle.scrambler.specs.Promises.{unknown_end, StartPromise, StepPromise, run_refusals, RunPromise, frame_refusals, ClockedPromise, FramePromise};

use answer::Refused;
use recurrence::Way;

// The bits of a frame that clock the state: all but sync and pad.
const CLOCKED: usize = layout::PAYLOAD_BITS as usize;

// An end's scrambler: the end, and the last 23 scrambled bits, the newest at weight 1.
#[derive(Clone, Copy, Debug, PartialEq, Eq)]
pub struct Scrambler {
    pub end: u32,
    pub state: u32,
}

// What a step gives: the bit, and the scrambler to go on with.
#[derive(Clone, Copy, Debug, PartialEq, Eq)]
pub struct Step {
    pub bit: u32,
    pub next: Scrambler,
}

// The tap of an end. An end that is neither has been refused before.
pub fn tap(end: u32) -> u32
    ensures { result ≡ tap_of end }
{
    if end == Scrambler::LTU {
        Scrambler::LTU_TAP
    } else {
        Scrambler::NTU_TAP
    }
}

impl Scrambler {
    // The two ends, and the tap and the starting state of each.
    // Stays: numbers, constants of the type as SCOPE names the form; an end that is neither is answered 2 (`unknown_end`).
    pub const LTU: u32 = 0;

    pub const LTU_TAP: u32 = 5;

    pub const LTU_START: u32 = 0;

    pub const NTU: u32 = 1;

    pub const NTU_TAP: u32 = 18;

    pub const NTU_START: u32 = 0;

    // States are the numbers below 2^23.
    pub const STATES: u32 = recurrence::STATES;

    // An end's scrambler at its start.
    pub fn start(end: u32) -> Result<Scrambler, Refused>
        ensures { StartPromise end result }
    {
        match end {
            Self::LTU => Ok(Scrambler {
                end,
                state: Self::LTU_START,
            }),
            Self::NTU => Ok(Scrambler {
                end,
                state: Self::NTU_START,
            }),
            _ => Err(Refused::Unknown),
        }
    }

    // One bit in either direction.
    fn step(self, way: Way, bit: u32) -> Result<Step, Refused>
        ensures { StepPromise way self bit result }
    {
        if Self::NTU < self.end {
            return Err(Refused::Unknown);
        }
        let s = recurrence::step(way, tap(self.end), self.state, bit)?;
        Ok(Step {
            bit: s.bit,
            next: Scrambler {
                state: s.state,
                ..self
            },
        })
    }

    // One bit scrambled.
    pub fn scramble(self, bit: u32) -> Result<Step, Refused>
        ensures { StepPromise scramble self bit result }
    {
        self.step(Way::Scramble, bit)
    }

    // One bit descrambled.
    pub fn descramble(self, bit: u32) -> Result<Step, Refused>
        ensures { StepPromise descramble self bit result }
    {
        self.step(Way::Descramble, bit)
    }

    // Why an end or a state is refused.
    fn known(self) -> Result<(), Refused>
        ensures { answer_of result ≡ answer (unknown_end self.end ∷ wide_state self.state ∷ []) }
    {
        if Self::NTU < self.end {
            return Err(Refused::Unknown);
        }
        if Self::STATES <= self.state {
            return Err(Refused::Range);
        }
        Ok(())
    }

    // Why a run is refused.
    fn run_allowed(self, input: &[u8], bits: usize, output: &[u8]) -> Result<(), Refused>
        ensures { answer_of result ≡ answer (run_refusals self input.now bits output.now) }
    {
        if input.len() < bits / 8 + (bits % 8 + 7) / 8 || input.len() != output.len() {
            return Err(Refused::Length);
        }
        self.known()
    }

    // A run of bits in either direction.
    fn run(
        self,
        way: Way,
        input: &[u8],
        bits: usize,
        output: &mut [u8],
    ) -> Result<Scrambler, Refused>
        ensures { RunPromise way self input.now bits output.old result output.new }
    {
        self.run_allowed(input, bits, output)?;
        let state = recurrence::run(way, tap(self.end), self.state, input, 0, bits, output)?;
        Ok(Scrambler { state, ..self })
    }

    // The first `bits` bits of the input scrambled into the output; further bits of the output stay.
    pub fn scramble_run(
        self,
        input: &[u8],
        bits: usize,
        output: &mut [u8],
    ) -> Result<Scrambler, Refused>
        ensures { RunPromise scramble self input.now bits output.old result output.new }
    {
        self.run(Way::Scramble, input, bits, output)
    }

    // The first `bits` bits of the input descrambled into the output; further bits of the output stay.
    pub fn descramble_run(
        self,
        input: &[u8],
        bits: usize,
        output: &mut [u8],
    ) -> Result<Scrambler, Refused>
        ensures { RunPromise descramble self input.now bits output.old result output.new }
    {
        self.run(Way::Descramble, input, bits, output)
    }

    // Why a whole frame is refused.
    fn frame_allowed(self, frame: &[u8], output: &[u8]) -> Result<(), Refused>
        ensures { answer_of result ≡ answer (frame_refusals self frame.now output.now) }
    {
        if frame.len() != layout::FRAME_OCTETS || output.len() != layout::FRAME_OCTETS {
            return Err(Refused::Length);
        }
        self.known()?;
        if !octets::is_clear(frame, layout::PAD_AT, layout::PAD_BITS) {
            return Err(Refused::Pad);
        }
        Ok(())
    }

    // A frame's sync straight through, and the line's run over the bits between sync and pad, descrambled: the state after it.
    fn clocked(self, frame: &[u8], output: &mut [u8]) -> Result<u32, Refused>
        ensures { ClockedPromise descramble self frame.now output.old result output.new }
    {
        octets::copy(output, 0, frame, 0, layout::SYNC_BITS);
        recurrence::run(
            Way::Descramble,
            tap(self.end),
            self.state,
            frame,
            layout::SYNC_BITS,
            CLOCKED,
            output,
        )
    }

    // A whole frame descrambled: the pad is zero. Only crate `sender` scrambles one, as it sends it.
    pub fn descramble_frame(self, frame: &[u8], output: &mut [u8]) -> Result<Scrambler, Refused>
        ensures { FramePromise descramble self frame.now output.old result output.new }
    {
        self.frame_allowed(frame, output)?;
        let state = self.clocked(frame, output)?;
        octets::clear(output, layout::PAD_AT, layout::PAD_BITS);
        Ok(Scrambler { state, ..self })
    }
}
