// The run over a list of codes: a step of the supervisor for each, and what became of the attempts that opened in it.
#![tactic(auto)]

ghost use Rattle.std.specs.Prelude.{◌≡◌, ◌-◌, ◌^◌, ◌<◌};
ghost use Rattle.startup.specs.Run.{outcome_number, event_of, noted, taken_of, numbers, numbered, run_of};

use answer::Refused;
use supervisor::{Supervisor, in_attempt, phase};

// What has become of an attempt, with its number in SCOPE. An attempt that opens is open.
#[derive(Clone, Copy, PartialEq, Eq)]
pub enum Outcome {
    // It is still open.
    Open = 1,
    // It ended in data mode.
    Data = 2,
    // It ended in the exception state.
    Exception = 3,
}

// What a run over a list of codes gives. Places are counted from 0.
#[derive(Clone, Copy)]
pub struct Run {
    // The state after the list.
    pub state: Supervisor,
    // How many attempts opened in the list.
    pub attempts: usize,
    // The place of the code that opened the last one, else 0.
    pub opened_at: usize,
    // What became of it; None where none opened.
    pub outcome: Option<Outcome>,
    // The place of the code that ended it, else 0.
    pub ended_at: usize,
}

impl Run {
    // A step for each code of a list, one an octet; refused codes are skipped. A state is refused as a step would refuse it.
    pub fn over(state: Supervisor, codes: &[u8]) -> Result<Run, Refused>
        ensures { numbered state result ≡ run_of state codes.now }
    {
        state.allowed()?;
        let mut run = Run {
            state,
            attempts: 0,
            opened_at: 0,
            outcome: None,
            ended_at: 0,
        };
        for (place, &code) in codes.iter().enumerate() {
            run = run.taken(place, u32::from(code));
        }
        Ok(run)
    }

    // One code more, at this place.
    fn taken(self, place: usize, code: u32) -> Run
        requires { self.attempts < 2 ^ 64 - 1 }
        ensures { numbers result ≡ taken_of place code (numbers self) }
    {
        let before = self.state;
        let after = match before.step(code) {
            Ok(given) => given.state,
            Err(_) => before,
        };
        self.noted(after, place, event(before.phase, after.phase))
    }

    // The run with this state, after this event at this place. An attempt that was open before the list is not one of it.
    fn noted(self, state: Supervisor, place: usize, event: Option<Outcome>) -> Run
        requires { self.attempts < 2 ^ 64 - 1 }
        ensures { numbers result ≡ noted (numbers self) state place (outcome_number event) }
    {
        match event {
            Some(Outcome::Open) => Run {
                state,
                attempts: self.attempts + 1,
                opened_at: place,
                outcome: event,
                ended_at: 0,
            },
            Some(_) if self.outcome.is_some() => Run {
                state,
                outcome: event,
                ended_at: place,
                ..self
            },
            _ => Run { state, ..self },
        }
    }
}

// What a change of phase does to an attempt: opens it, ends it in data mode or in the exception state, or none of these.
pub fn event(before: u32, after: u32) -> Option<Outcome>
    ensures { outcome_number result ≡ event_of before after }
{
    match (in_attempt(before), in_attempt(after)) {
        (false, true) => Some(Outcome::Open),
        (true, false) => Some(if after == phase::SETTLING {
            Outcome::Data
        } else {
            Outcome::Exception
        }),
        _ => None,
    }
}
