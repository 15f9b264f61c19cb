// The start-up supervisor (000, clauses 4.1.2 and 4.1.8): a state by value, and one step for each code.
#![tactic(auto)]

ghost use Rattle.std.specs.Prelude.{◌≡◌, ◌≤◌, ◌||◌, true, ltb, Ok};
ghost use Rattle.answer.specs.Answer.{answer};
ghost use Rattle.answer.specs.Given.{answer_of};
ghost use Rattle.supervisor.specs.Limits.{most_attempt, most_ticks, shortest_silence, longest_silence};
ghost use Rattle.supervisor.specs.Phases.{phases_of, is_of, in_attempt};
ghost use Rattle.supervisor.specs.Step.{state_refusals, answered, numbered, step_of, none, fresh, silence_of, start_of};

use answer::Refused;

pub mod code;
pub mod phase;
mod rules;

// A supervisor's state. A mark is heard where it is not 0.
#[derive(Clone, Copy)]
pub struct Supervisor {
    // LTU 0, NTU 1.
    pub end: u32,
    // One of the phases of its end, by number (src/phase.rt).
    pub phase: u32,
    // The ticks since the phase was entered, held at 59,999.
    pub ticks: u32,
    // The ticks since the attempt opened.
    pub attempt: u32,
    // How many ticks an exception lasts.
    pub silence: u32,
    // Own receiver converged, in S_r and S_c.
    pub converged: u32,
    // T_c seen, in S_r.
    pub seen: u32,
}

// What a start and a step give.
#[derive(Drop)]
pub struct Answer {
    pub phase: u32,
    // In an attempt the ticks since its opening, else 0.
    pub attempt: u32,
    pub state: Supervisor,
}

// A legal state: its phase is one of its end, and one more tick wraps no number.
#[derive(Clone, Copy)]
struct Legal {
    state: Supervisor,
    ghost of_end: { is_of state.phase (phases_of state.end state.silence) ≡ true },
    ghost attempt: { state.attempt ≤ most_attempt },
    ghost ticks: { state.ticks ≤ most_ticks },
}

impl Supervisor {
    // The end at the exchange.
    // Stays: numbers, constants of the type as SCOPE names the form; an end that is neither is answered 2 (`start_refusals`).
    pub const LTU: u32 = 0;
    // The end at the customer.
    pub const NTU: u32 = 1;
    // NTU: how many ticks Gap lasts.
    pub const GAP: u32 = 300;
    // NTU: how many C_r lasts.
    pub const C_R: u32 = 1000;
    // NTU: how many Quiet lasts.
    pub const NTU_QUIET: u32 = 1500;
    // LTU: how many Quiet lasts.
    pub const LTU_QUIET: u32 = 500;
    // LTU: how many S_c lasts at least.
    pub const S_C: u32 = 5000;
    // How many Settling lasts.
    pub const SETTLING: u32 = 1000;
    // The tick since its opening that ends an attempt.
    pub const ATTEMPT: u32 = 15000;
    // The phase in which an attempt ends well: data mode.
    const DATA_MODE: u32 = phase::SETTLING;
    // Phase ticks stay here once there.
    pub const MOST_TICKS: u32 = 59999;
    // The silence that 0 stands for.
    pub const DEFAULT_SILENCE: u32 = 5000;
    // The shortest silence that is taken.
    pub const SHORTEST_SILENCE: u32 = 2000;
    // The longest.
    pub const LONGEST_SILENCE: u32 = 60000;

    // A card that is ready. The end is 2 where unknown, a silence out of its range 4.
    pub fn start(end: u32, silence: u32) -> Result<Answer, Refused>
        ensures { numbered none result ≡ start_of end silence }
    {
        let state = Self::fresh(end, silence);
        state.allowed()?;
        Ok(state.answered())
    }

    // A card that is ready. A silence of 0 stands for the default.
    fn fresh(end: u32, silence: u32) -> Supervisor
        ensures { result ≡ fresh end (silence_of silence) }
    {
        Supervisor {
            end,
            phase: phase::READY,
            ticks: 0,
            attempt: 0,
            silence: if silence == 0 {
                Self::DEFAULT_SILENCE
            } else {
                silence
            },
            converged: 0,
            seen: 0,
        }
    }

    // A code above 8 and an unknown end are 2, a state that is not legal is 4.
    pub fn step(self, code: u32) -> Result<Answer, Refused>
        ensures { numbered self result ≡ step_of self code }
    {
        if code::ABNORMAL < code {
            return Err(Refused::Unknown);
        }
        self.allowed()?;
        let legal = Legal { state: self };
        Ok(legal.moved(code).answered())
    }

    // Whether a state is legal, or what it is refused with.
    pub fn allowed(self) -> Result<(), Refused>
        ensures { answer_of result ≡ answer (state_refusals self) }
    {
        if Self::NTU < self.end {
            Err(Refused::Unknown)
        } else if !self.has_phase() || self.outside() {
            Err(Refused::Range)
        } else {
            Ok(())
        }
    }

    // Whether a number is outside its range.
    fn outside(self) -> bool
        ensures { result ≡ (ltb most_attempt self.attempt || ltb most_ticks self.ticks
            || ltb self.silence shortest_silence || ltb longest_silence self.silence) }
    {
        Self::ATTEMPT <= self.attempt
            || Self::MOST_TICKS < self.ticks
            || !(Self::SHORTEST_SILENCE..=Self::LONGEST_SILENCE).contains(&self.silence)
    }

    // Whether the phase is one of the end's. Both ends have Ready, Quiet, Settling, Valid and Exception.
    fn has_phase(self) -> bool
        ensures { result ≡ is_of self.phase (phases_of self.end self.silence) }
    {
        match self.phase {
            phase::GAP | phase::C_R | phase::S_R | phase::T_R => self.end == Self::NTU,
            phase::AWAIT | phase::HEARING | phase::S_C | phase::T_C | phase::F_C => self.end
                != Self::NTU,
            _ => self.phase <= phase::EXCEPTION,
        }
    }

    // The phase and, in an attempt, the ticks since its opening.
    fn answered(self) -> Answer
        ensures { numbered self (Ok result) ≡ answered 0 self self }
    {
        Answer {
            phase: self.phase,
            attempt: if in_attempt(self.phase) {
                self.attempt
            } else {
                0
            },
            state: self,
        }
    }
}

// From the opening of an attempt, in C_r or Hearing, until it ends.
pub fn in_attempt(phase: u32) -> bool
    ensures { result ≡ in_attempt phase }
{
    (phase::C_R..=phase::F_C).contains(&phase)
}
