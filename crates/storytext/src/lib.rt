// The text of a story, by phrases (crate phrases), put behind what stands in a text (crate ascii): what would lie past the room's end is
// left out. A phrase is told by its row in the tables of words, and its number. specs/ defines the text.
#![tactic(auto)]

ghost use Rattle.std.specs.Prelude.{◌≡◌, cond, not, ◌&&◌, ◌||◌, ◌++◌, ◌+◌, ◌-◌, eqb, ltb};
ghost use Rattle.ascii.specs.Text.{text};
ghost use Rattle.ascii.specs.Promises.{Puts};
ghost use Rattle.phrases.specs.Phrases.{phrases, said_of};
ghost use Rattle.supervisor.specs.Phases.{in_attempt};
ghost use Rattle.story.specs.Events.{numbers};
ghost use Rattle.storytext.specs.Events.{event_text};
ghost use Rattle.storytext.specs.Attempts.{lack_of, trying_text, outcome_text};
ghost use Rattle.storytext.specs.Ending.{in_data_mode, InDataMode, lasts, last_tick, end_text, refused_text};
ghost use Rattle.storytext.specs.Words.{end_words, attempt_part, now_part};

mod words;

use ascii::Text;
use phrases::Phrase;
use story::{Event, Story, kind};
use supervisor::{Supervisor, code, phase};

// The row of a code with its name: none for a tick, and one without a name for what is no report.
fn code_row(code: u32) -> u32
    ensures { result ≡ cond (ltb 8 code) 9 code }
{
    code.min(words::CODE)
}

// The row of what an event is: one for each kind, and one for an attempt whose time is up, which ends on a tick.
fn verb_row(kind: u32, code: u32) -> u32
    ensures { result ≡ cond (ltb 7 kind) 0 (cond (eqb kind 3) (cond (eqb code 0) 18 13) (10 + kind)) }
{
    match kind {
        kind::EXCEPTION if code == code::TICK => words::LATE,
        kind::NOTHING..=kind::IGNORED => words::KINDS + kind,
        _ => words::NONE,
    }
}

// The row of a phase with what it lasts or waits for: one for each, one for Quiet at the NTU, and one for what is no phase.
fn name_row(end: u32, phase: u32) -> u32
    ensures { result ≡ cond (ltb 13 phase) 34 (cond (eqb phase 5) (cond (eqb end 1) 33 24) (19 + phase)) }
{
    match phase {
        phase::QUIET if end == Supervisor::NTU => words::QUIET_NTU,
        phase::READY..=phase::EXCEPTION => words::PHASES + phase,
        _ => words::NO_PHASE,
    }
}

// A row that only an event in an attempt has.
fn attempt_row(attempt: u32, row: u32) -> u32
    ensures { result ≡ cond (eqb attempt 0) 0 row }
{
    if attempt == 0 { words::NONE } else { row }
}

// The line of an event: the tick, in an attempt its number and its own tick, the code, what it is, and the phase then.
pub fn put_event(out: &mut Text<'_>, event: Event)
    ensures { Puts out.old (event_text (numbers event)) out.new }
{
    let state = event.story.state;
    phrases::tell(
        out,
        &words::EVENT,
        &[
            Phrase {
                row: words::TICK,
                number: event.story.clock,
            },
            Phrase {
                row: attempt_row(event.attempt, words::ATTEMPT),
                number: event.attempt,
            },
            Phrase {
                row: attempt_row(event.attempt, words::TICK),
                number: event.ticks,
            },
            Phrase {
                row: code_row(event.code),
                number: event.code,
            },
            Phrase {
                row: verb_row(event.kind, event.code),
                number: 0,
            },
            Phrase {
                row: name_row(state.end, state.phase),
                number: state.silence,
            },
            Phrase {
                row: words::END_OF_LINE,
                number: 0,
            },
        ],
    );
}

// What is left of a number of ticks.
fn rest(of: u32, used: u32) -> u32
    ensures { result ≡ of - used }
{
    of.saturating_sub(used)
}

// What S_r lacks.
fn lacks_sr(converged: u32, seen: u32) -> u32
    ensures { result ≡ cond (eqb converged 0) (cond (eqb seen 0) 4 2) (cond (eqb seen 0) 3 0) }
{
    match (converged == 0, seen == 0) {
        (true, true) => 4,
        (true, false) => 2,
        (false, true) => 3,
        (false, false) => 0,
    }
}

// What the phase of an attempt lacks beside time, by number.
fn lacks(state: Supervisor) -> u32
    ensures { result ≡ lack_of state }
{
    let phase = state.phase;
    match phase {
        phase::HEARING => 1,
        phase::S_C => { if state.converged == 0 { 2 } else { 0 } },
        phase::S_R => lacks_sr(state.converged, state.seen),
        phase::T_C => 5,
        phase::T_R => 6,
        phase::F_C => 6,
        _ => 0,
    }
}

// The row of the name of a phase of an attempt.
fn short_row(phase: u32) -> u32
    ensures { result ≡ cond (ltb 10 phase) 0 (10 + phase) }
{
    match phase {
        phase::READY..=phase::F_C => words::NAMES + phase,
        _ => words::NONE,
    }
}

// Phrases of the log's end.
fn say(out: &mut Text<'_>, said: &[Phrase])
    ensures { Puts out.old (phrases end_words (said_of said.now)) out.new }
{
    phrases::tell(out, &words::END, said);
}

// A story in an attempt: the phase, the time that is used and left, and what is lacking.
fn trying(out: &mut Text<'_>, story: Story)
    ensures { Puts out.old (last_tick story.clock ++ trying_text story) out.new }
{
    let state = story.state;
    say(
        out,
        &[
            Phrase {
                row: words::LAST_TICK,
                number: story.clock,
            },
            Phrase {
                row: words::TRYING,
                number: story.attempts,
            },
            Phrase {
                row: short_row(state.phase),
                number: 0,
            },
            Phrase {
                row: words::USED,
                number: state.attempt,
            },
            Phrase {
                row: words::LEFT,
                number: rest(Supervisor::ATTEMPT, state.attempt),
            },
            Phrase {
                row: lacks(state),
                number: 0,
            },
        ],
    );
}

// The row of what ended an attempt in the exception state.
fn cause_row(code: u32) -> u32
    ensures { result ≡ cond (eqb code 0) 25 26 }
{
    if code == code::TICK {
        words::TIME_UP
    } else {
        words::ABNORMAL
    }
}

// The last attempt has ended: how, after how long, and why.
fn ended(out: &mut Text<'_>, story: Story)
    ensures { Puts out.old (last_tick story.clock ++ outcome_text story) out.new }
{
    let last = story.last;
    let tick = Phrase {
        row: words::LAST_TICK,
        number: story.clock,
    };
    let attempt = Phrase {
        row: words::ENDED,
        number: story.attempts,
    };
    if last.how == kind::DATA {
        let how = Phrase {
            row: words::DATA,
            number: last.ticks,
        };
        say(out, &[tick, attempt, how]);
    } else {
        let how = Phrase {
            row: words::EXCEPTION,
            number: last.ticks,
        };
        let cause = Phrase {
            row: cause_row(last.code),
            number: 0,
        };
        let phase = Phrase {
            row: short_row(last.phase),
            number: 0,
        };
        say(out, &[tick, attempt, how, cause, phase]);
    }
}

// The verdict on an attempt: one that is still trying, none yet, or how the last one ended.
fn verdict(out: &mut Text<'_>, story: Story)
    ensures { Puts out.old (last_tick story.clock ++ attempt_part story) out.new }
{
    let state = story.state;
    if supervisor::in_attempt(state.phase) {
        trying(out, story);
    } else if story.last.how == kind::NOTHING {
        say(
            out,
            &[Phrase {
                row: words::LAST_TICK,
                number: story.clock,
            }],
        );
    } else {
        ended(out, story);
    }
}

// Whether the card is in data mode.
pub fn in_data_mode(story: Story) -> bool
    ensures { InDataMode story result }
{
    matches!(story.state.phase, phase::SETTLING | phase::VALID)
}

// Whether the attempt's verdict is all: while it is trying, and while the data mode lasts that it ended in.
fn is_told(story: Story) -> bool
    ensures { result ≡ (in_attempt story.state.phase || (not (eqb story.last.how 0) && in_data_mode story.state.phase)) }
{
    supervisor::in_attempt(story.state.phase)
        || (story.last.how != kind::NOTHING && in_data_mode(story))
}

// The row between how an attempt ended and what came then.
fn behind_row(how: u32) -> u32
    ensures { result ≡ cond (eqb how 0) 0 (cond (eqb how 2) 27 28) }
{
    match how {
        kind::NOTHING => words::NONE,
        kind::DATA => words::DATA_ENDED,
        _ => words::THEN,
    }
}

// The row of what a card does in a phase outside an attempt.
fn wait_row(phase: u32) -> u32
    ensures { result ≡ cond (ltb phase 3) (29 + phase) (cond (eqb phase 13) 32 33) }
{
    match phase {
        phase::READY..=phase::AWAIT => words::WAITING + phase,
        phase::EXCEPTION => words::SILENT,
        _ => words::IN_DATA,
    }
}

// How long a phase outside an attempt lasts.
fn lasts(silence: u32, phase: u32) -> u32
    ensures { result ≡ lasts silence phase }
{
    match phase {
        phase::GAP => Supervisor::GAP,
        phase::SETTLING => Supervisor::SETTLING,
        _ => silence,
    }
}

// The row of what such a phase has left, where it has a limit, and of what has not come in Await.
fn left_row(phase: u32) -> u32
    ensures { result ≡ cond (eqb phase 2) 34 (cond (eqb phase 1 || (eqb phase 11 || eqb phase 13)) 22 0) }
{
    match phase {
        phase::AWAIT => words::UNHEARD,
        phase::GAP | phase::SETTLING | phase::EXCEPTION => words::LEFT,
        _ => words::NONE,
    }
}

// What is now, outside an attempt: the phase, for how long, and what is left of it.
fn now(out: &mut Text<'_>, story: Story)
    ensures { Puts out.old (now_part story ++ text "\n") out.new }
{
    let over = Phrase {
        row: words::OVER,
        number: 0,
    };
    if is_told(story) {
        say(out, &[over]);
        return;
    }
    let state = story.state;
    say(
        out,
        &[
            Phrase {
                row: behind_row(story.last.how),
                number: 0,
            },
            Phrase {
                row: wait_row(state.phase),
                number: rest(story.clock, story.entered),
            },
            Phrase {
                row: left_row(state.phase),
                number: rest(lasts(state.silence, state.phase), state.ticks),
            },
            over,
        ],
    );
}

// The lines of the log's end.
pub fn put_end(out: &mut Text<'_>, story: Story)
    ensures { Puts out.old (end_text story) out.new }
{
    verdict(out, story);
    now(out, story);
}

// The row of a refusal's words: its number, and 0 for one that no log has.
fn reason_row(answer: u32) -> u32
    ensures { result ≡ cond (ltb 4 answer) 0 answer }
{
    match answer {
        0..=4 => answer,
        _ => words::NONE,
    }
}

// The line of a refusal, with the number of the log's line that it stood on.
pub fn put_refused(out: &mut Text<'_>, answer: u32, line: u32)
    ensures { Puts out.old (refused_text answer line) out.new }
{
    phrases::tell(
        out,
        &words::REFUSED,
        &[
            Phrase {
                row: words::REFUSAL,
                number: answer,
            },
            Phrase {
                row: words::LINE,
                number: line,
            },
            Phrase {
                row: reason_row(answer),
                number: 0,
            },
            Phrase {
                row: words::LINE_OVER,
                number: 0,
            },
        ],
    );
}
