// The start-up supervisor for C (clauses 4.1.2 and 4.1.8): a state of seven numbers goes in and comes back by value.
ghost use Rattle.std.specs.Prelude.{◌≡◌};
ghost use Rattle.supervisor.specs.Step.{numbered};
ghost use Rattle.host.specs.Supervising.{state_in, state_of, Started, StateStepped, CodesRun, stepped_of};

use answer::Refused;

// A supervisor's state, as C keeps it.
#[repr(C)]
#[derive(Clone, Copy)]
pub struct Supervisor {
    pub end: u32,
    pub phase: u32,
    pub ticks: u32,
    pub attempt: u32,
    pub silence: u32,
    pub converged: u32,
    pub seen: u32,
}

// What a start and a step give.
#[repr(C)]
#[derive(Drop)]
pub struct Stepped {
    pub answer: u32,
    pub phase: u32,
    pub attempt: u32,
    pub state: Supervisor,
}

// What a run over a list of codes gives. Places are counted from 0.
#[repr(C)]
#[derive(Drop)]
pub struct Run {
    pub answer: u32,
    // How many attempts opened in the list.
    pub attempts: u64,
    // The place of the code that opened the last one, else 0.
    pub opened_at: u64,
    // What became of it.
    pub outcome: u32,
    // The place of the code that ended it, else 0.
    pub ended_at: u64,
    pub state: Supervisor,
}

impl Supervisor {
    // No state: every number is 0, which each later step refuses.
    const NONE: Supervisor = Supervisor {
        end: 0,
        phase: 0,
        ticks: 0,
        attempt: 0,
        silence: 0,
        converged: 0,
        seen: 0,
    };
}

// A state as it comes from C.
impl From<Supervisor> for supervisor::Supervisor {
    ghost from_gives = { λ s r. r ≡ state_in s };

    fn from(s: Supervisor) -> supervisor::Supervisor {
        supervisor::Supervisor {
            end: s.end,
            phase: s.phase,
            ticks: s.ticks,
            attempt: s.attempt,
            silence: s.silence,
            converged: s.converged,
            seen: s.seen,
        }
    }
}

// A state as it goes to C.
impl From<supervisor::Supervisor> for Supervisor {
    ghost from_gives = { λ s r. r ≡ state_of s };

    fn from(s: supervisor::Supervisor) -> Supervisor {
        Supervisor {
            end: s.end,
            phase: s.phase,
            ticks: s.ticks,
            attempt: s.attempt,
            silence: s.silence,
            converged: s.converged,
            seen: s.seen,
        }
    }
}

// What a start or a step gave, as it goes to C: with a refusal its number, and the state that was handed in.
fn stepped_out(given: Result<supervisor::Answer, Refused>, before: Supervisor) -> Stepped
    ensures { result ≡ stepped_of (numbered (state_in before) given) }
{
    match given {
        Ok(next) => Stepped {
            answer: answer::DONE,
            phase: next.phase,
            attempt: next.attempt,
            state: Supervisor::from(next.state),
        },
        Err(no) => Stepped {
            answer: no.number(),
            phase: 0,
            attempt: 0,
            state: before,
        },
    }
}

// Starts a supervisor.
pub fn sdsl_start(end: u32, silence: u32) -> Stepped
    ensures { Started end silence result }
{
    stepped_out(
        supervisor::Supervisor::start(end, silence),
        Supervisor::NONE,
    )
}

// One code.
pub fn sdsl_step(state: Supervisor, code: u32) -> Stepped
    ensures { StateStepped state code result }
{
    stepped_out(supervisor::Supervisor::from(state).step(code), state)
}

// A list of codes, an octet each.
pub fn sdsl_run_codes(state: Supervisor, codes: &[u8]) -> Run
    ensures { CodesRun state codes.now result }
{
    match startup::Run::over(supervisor::Supervisor::from(state), codes) {
        Ok(run) => Run {
            answer: answer::DONE,
            attempts: run.attempts as u64,
            opened_at: run.opened_at as u64,
            outcome: match run.outcome {
                Some(outcome) => outcome as u32,
                None => 0,
            },
            ended_at: run.ended_at as u64,
            state: Supervisor::from(run.state),
        },
        Err(no) => Run {
            answer: no.number(),
            attempts: 0,
            opened_at: 0,
            outcome: 0,
            ended_at: 0,
            state,
        },
    }
}
