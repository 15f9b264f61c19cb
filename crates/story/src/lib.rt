// The story of a start-up log: what each code did, as an event (specs/Events.antt). The text of it is crate storytext's.
#![tactic(auto)]

ghost use Rattle.std.specs.Prelude.{◌≡◌, cond, ◌≤◌, ◌<◌, eqb, ltb};
ghost use Rattle.supervisor.specs.Step.{none};
ghost use Rattle.startup.specs.Run.{outcome_number};
ghost use Rattle.story.specs.Events.{most, outcome, beginning, kind_of, since_opening, attempt_number, told};
ghost use Rattle.story.specs.Events.{numbers, numbered, start_of, event_of};

use answer::Refused;
use startup::Outcome as Became;
use supervisor::{Supervisor, code};

pub mod kind;

// How an attempt ended.
#[derive(Clone, Copy)]
pub struct Outcome {
    // In data mode or in the exception state, by startup's number, and 0 where none has ended.
    // Stays: a number, since `storytext::in_data_mode` and `put_end` take a story with any.
    pub how: u32,
    // The ticks that it took.
    pub ticks: u32,
    // The phase that it was in.
    pub phase: u32,
    // The code that ended it.
    pub code: u32,
}

// How far a log has been told.
#[derive(Clone, Copy)]
pub struct Story {
    pub state: Supervisor,
    // The ticks since the log began.
    pub clock: u32,
    // How many attempts have opened.
    pub attempts: u32,
    // The clock when the phase was entered.
    pub entered: u32,
    // The last attempt that has ended.
    pub last: Outcome,
}

// What a code did.
#[derive(Clone, Copy)]
pub struct Event {
    // What there is to tell, by number (src/kind.rt).
    pub kind: u32,
    // The code that did it.
    pub code: u32,
    // The number of the attempt that it came in, opened or ended, else 0.
    pub attempt: u32,
    // The ticks since that attempt opened, this one too.
    pub ticks: u32,
    // The story after it.
    pub story: Story,
}

impl Story {
    // The ticks, and the attempts, that a story has at most: at these it refuses to go on.
    pub const MOST: u32 = 1000000000;

    // A card that is ready. What the supervisor's start refuses, this does.
    pub fn start(end: u32, silence: u32) -> Result<Event, Refused>
        ensures { numbered (beginning none) result ≡ start_of end silence }
    {
        let given = Supervisor::start(end, silence)?;
        Ok(Event {
            kind: kind::ENTERED,
            code: 0,
            attempt: 0,
            ticks: 0,
            story: Self::begun(given.state),
        })
    }

    // No code has come yet.
    fn begun(state: Supervisor) -> Story
        ensures { result ≡ beginning state }
    {
        let last = Outcome {
            how: 0,
            ticks: 0,
            phase: 0,
            code: 0,
        };
        Story {
            state,
            clock: 0,
            attempts: 0,
            entered: 0,
            last,
        }
    }

    // One code more. What the supervisor's step refuses, this does; a story at its most is 4.
    pub fn step(self, code: u32) -> Result<Event, Refused>
        ensures { numbered self result ≡ event_of self code }
    {
        let given = self.state.step(code)?;
        if Self::MOST <= self.clock || Self::MOST <= self.attempts {
            return Err(Refused::Range);
        }
        Ok(self.told(given.state, code))
    }

    // The event of a code that the supervisor took, with its next state.
    fn told(self, next: Supervisor, code: u32) -> Event
        requires { (self.clock < most) × (self.attempts < most) × (self.state.attempt ≤ 14999) }
        ensures { numbers result ≡ told self next code }
    {
        let state = self.state;
        let event = startup::event(state.phase, next.phase);
        let ticks = since_opening(state, code);
        let clock = self.clock + u32::from(code == code::TICK);
        let attempts = self.attempts + u32::from(matches!(event, Some(Became::Open)));
        let last = self.last.then(event, ticks, state.phase, code);
        let story = Story {
            state: next,
            clock,
            attempts,
            entered: entered_at(state.phase, next.phase, self.entered, clock),
            last,
        };
        Event {
            kind: kind_of(state, next, code),
            code,
            attempt: attempt_number(state.phase, event, attempts),
            ticks,
            story,
        }
    }
}

impl Outcome {
    // The last attempt that has ended, after this event: another one, where it ended an attempt.
    fn then(self, event: Option<Became>, ticks: u32, phase: u32, code: u32) -> Outcome
        ensures { result ≡ cond (ltb 1 (outcome_number event)) (outcome (outcome_number event) ticks phase code) self }
    {
        match event {
            None | Some(Became::Open) => self,
            Some(how) => Outcome {
                how: how as u32,
                ticks,
                phase,
                code,
            },
        }
    }
}

// The clock when the phase was entered: the present one, where another was entered.
fn entered_at(before: u32, after: u32, entered: u32, clock: u32) -> u32
    ensures { result ≡ cond (eqb before after) entered clock }
{
    if before == after { entered } else { clock }
}

// What there is to tell of a code that took one state to another.
fn kind_of(before: Supervisor, after: Supervisor, code: u32) -> u32
    ensures { result ≡ kind_of before after code }
{
    match startup::event(before.phase, after.phase) {
        Some(event) => event as u32,
        None if before.phase != after.phase => kind::ENTERED,
        None if code == code::TICK => kind::NOTHING,
        None if code == code::ABNORMAL => kind::AGAIN,
        None if before.converged != after.converged || before.seen != after.seen => kind::HEARD,
        None => kind::IGNORED,
    }
}

// The attempt's number where the code came in it or opened it, else 0.
fn attempt_number(phase: u32, event: Option<Became>, attempts: u32) -> u32
    ensures { result ≡ attempt_number phase (outcome_number event) attempts }
{
    if supervisor::in_attempt(phase) || matches!(event, Some(Became::Open)) {
        attempts
    } else {
        0
    }
}

// In an attempt the ticks since its opening, that of the code too, else 0.
fn since_opening(state: Supervisor, code: u32) -> u32
    requires { state.attempt ≤ 14999 }
    ensures { result ≡ since_opening state code }
{
    if supervisor::in_attempt(state.phase) {
        state.attempt + u32::from(code == code::TICK)
    } else {
        0
    }
}
