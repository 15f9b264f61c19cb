// The start-up replayer: tells the story of a log on standard input. What a line says is crate startlog's, what happened crate story's,
// and its text crate storytext's; here they are only read, looped over and written.
//
//     replay [--status] ltu|ntu [SILENCE] < LOG
#![tactic(auto)]

ghost use Rattle.std.specs.Prelude.{◌+◌, ◌≤◌, ◌≡◌, length};
ghost use Rattle.startlog.specs.Lines.{line_of};
ghost use Rattle.replay.specs.declared.Stop.TheVariants.{Unwritten, Refused};
ghost use Rattle.replay.specs.Replay.{most_octets, followed, lines_of, ending_from, Follows, Ends};

use answer::Refused;
use ascii::Text;
use options::Argument;
use outside::Status;
use startlog::Line;
use story::{Event, Story, kind};
use supervisor::Supervisor;

// The most octets that a log may have.
const MOST: usize = 1048576;
// One more is read, so that a longer log shows.
const READ: usize = 1048577;
// Room for every line (storytext's theorems on what fits).
const ROOM: usize = 320;
// What no end and no silence is.
// Stays: numbers, since Story::start takes any end and silence and says what it refuses (start_of), so nothing is checked twice.
const NO_END: u32 = 2;

const NO_SILENCE: u32 = 1;
// The name that its words on standard error begin with.
const NAME: [u8; 6] = *b"replay";

// Why a log is not told to its end.
#[derive(Clone, Copy)]
enum Stop {
    // Its story could not be written.
    Unwritten,
    // A line of it is refused.
    Refused(Refused),
}

// On which line, the first being 1, and why.
#[derive(Clone, Copy)]
struct Stopped {
    line: u32,
    why: Stop,
}

impl From<outside::Unwritten> for Stop {
    ghost from_gives = { λ _ s. s ≡ Unwritten };

    fn from(_said: outside::Unwritten) -> Stop {
        Stop::Unwritten
    }
}

impl From<Refused> for Stop {
    ghost from_gives = { λ n s. s ≡ Refused n };

    fn from(no: Refused) -> Stop {
        Stop::Refused(no)
    }
}

// Writes to standard output; where it could not, says so.
fn print(rt: &HostRuntime, text: &[u8]) -> Result<(), outside::Unwritten> {
    outside::print(rt, &NAME, text)
}

// Writes the line of an event, unless there is nothing to tell.
fn tell(rt: &HostRuntime, event: Event) -> Result<(), outside::Unwritten> {
    if event.kind == kind::NOTHING {
        return Ok(());
    }
    let mut room = [0u8; ROOM];
    let mut text = Text {
        room: &mut room,
        at: 0,
    };
    storytext::put_event(&mut text, event);
    let n = text.at;
    print(rt, &room[..n])
}

// Tells the codes of a line, up to the first that is refused. The story goes on with each.
fn follow(rt: &HostRuntime, story: &mut Story, line: &[u8]) -> Result<(), Stop>
    ensures { Follows result story.new (followed story.old (line_of line.now)) }
{
    let said = Line::read(line)?;
    for k in 0..said.times {
        let event = story.step(said.code)?;
        *story = event.story;
        tell(rt, event)?;
    }
    Ok(())
}

// Tells a log line by line, to its end, the first line that is refused or the first that cannot be written.
fn replay(rt: &HostRuntime, log: &[u8], story: &mut Story) -> Result<(), Stopped>
    requires { length log.now ≤ most_octets }
    ensures { Ends result story.new (ending_from 1 story.old (lines_of log.now)) }
{
    let mut line: u32 = 1;
    let mut at = 0;
    // Stays: places, since `split` gives an empty line behind a last newline, and lines_of none.
    while at < log.len() {
        let end = startlog::line_end(log, at);
        let said = &log[at..end];
        match follow(rt, story, said) {
            Ok(()) => {},
            Err(why) => return Err(Stopped { line, why }),
        }
        line += 1;
        at = end + 1;
    }
    Ok(())
}

// The number of the line that the last of these octets stands on: one more than the newlines in front of it.
fn last_line(log: &[u8]) -> u32
    requires { length log.now ≤ most_octets + 1 }
{
    match log {
        [before @ .., _] => before.iter().filter(|&&o| o == b'\n').count() as u32 + 1,
        [] => 1,
    }
}

// Tells why a log is refused, on which line.
fn tell_refused(rt: &HostRuntime, no: Refused, line: u32) -> Status {
    let mut room = [0u8; ROOM];
    let mut text = Text {
        room: &mut room,
        at: 0,
    };
    storytext::put_refused(&mut text, no.number(), line);
    let n = text.at;
    let _ = print(rt, &room[..n]);
    Status::Wrong
}

// Tells how a log ended, and answers the status.
fn tell_end(rt: &HostRuntime, story: Story) -> Status {
    let mut room = [0u8; ROOM];
    let mut text = Text {
        room: &mut room,
        at: 0,
    };
    storytext::put_end(&mut text, story);
    let n = text.at;
    match print(rt, &room[..n]) {
        Ok(()) if storytext::in_data_mode(story) => Status::Good,
        Ok(()) => Status::Bad,
        Err(outside::Unwritten) => Status::Wrong,
    }
}

// Tells what was read. One octet more than a log may have shows that it is too long.
fn tell_all(rt: &HostRuntime, log: &[u8], begun: Event) -> Status
    requires { length log.now ≤ most_octets + 1 }
{
    if MOST < log.len() {
        return tell_refused(rt, Refused::Length, last_line(log));
    }
    if tell(rt, begun).is_err() {
        return Status::Wrong;
    }
    let mut story = begun.story;
    match replay(rt, log, &mut story) {
        Ok(()) => tell_end(rt, story),
        Err(
            Stopped {
                line,
                why: Stop::Refused(no),
            },
        ) => tell_refused(rt, no, line),
        Err(_) => Status::Wrong,
    }
}

// Tells the log on standard input.
fn tell_input(rt: &HostRuntime, begun: Event) -> Status {
    let mut log: [u8; READ] = outside::room();
    match outside::fill(&mut rt.stdin(), &mut log) {
        Ok(n) => tell_all(rt, &log[..n], begun),
        Err(why) => {
            outside::fail(rt, &NAME, b"standard input", why);
            Status::Wrong
        },
    }
}

// What is to be done.
#[derive(Clone, Copy)]
enum Task {
    // To tell a log.
    Tell,
    // To print how the replayer is called, or its version.
    Help,
    Version,
    // The argument at this place is wrong.
    Refuse(usize),
}

// What the arguments ask for.
// Stays: each program has its own, since each has other fields and rules for a word; what they do alike is crate outside's.
#[derive(Clone, Copy)]
struct Asked {
    // The first of them that asks for something else than to tell a log counts.
    task: Task,
    // The places of the end's name and of the silence.
    end: Option<usize>,
    silence: Option<usize>,
    // Whether the status is asked for.
    status: bool,
    // Whether -- has come.
    ended: bool,
}

impl Asked {
    // The same, asking for this.
    fn asks(self, task: Task) -> Asked {
        match self.task {
            Task::Tell => Asked { task, ..self },
            _ => self,
        }
    }

    // One word more: the end's name, then the silence.
    fn word(self, at: usize) -> Asked {
        match (self.end, self.silence) {
            (None, _) => Asked {
                end: Some(at),
                ..self
            },
            (_, None) => Asked {
                silence: Some(at),
                ..self
            },
            _ => self.asks(Task::Refuse(at)),
        }
    }

    // One argument more, which is this option.
    fn with(self, option: Argument, at: usize) -> Asked {
        if self.ended || option == Argument::Word {
            return self.word(at);
        }
        match option {
            Argument::Status => Asked {
                status: true,
                ..self
            },
            Argument::End => Asked {
                ended: true,
                ..self
            },
            Argument::Help => self.asks(Task::Help),
            Argument::Version => self.asks(Task::Version),
            _ => self.asks(Task::Refuse(at)),
        }
    }
}

// The end of this name.
fn end_named(word: &[u8]) -> u32 {
    let end = options::named(word, b"ntu", Supervisor::NTU, NO_END);
    options::named(word, b"ltu", Supervisor::LTU, end)
}

// The silence that a text gives.
fn silence_of(word: &[u8]) -> u32 {
    match Line::counted(word) {
        Ok(said) => said.times,
        Err(_) => NO_SILENCE,
    }
}

// What argument i says, read so.
fn said_at<F: Fn(&[u8]) -> u32>(rt: &HostRuntime, i: usize, read: F) -> u32
    requires { F.IsAlwaysCallable read }
{
    let mut buf: [u8; outside::PATH] = outside::room();
    let n = outside::word(rt, i, &mut buf);
    read(&buf[..n])
}

// What all arguments ask for.
fn arguments(rt: &HostRuntime) -> Asked {
    let mut asked = Asked {
        task: Task::Tell,
        end: None,
        silence: None,
        status: false,
        ended: false,
    };
    for i in 1..outside::arg_count(rt) {
        asked = asked.with(outside::option(rt, i), i);
    }
    asked
}

// Says how the replayer is called, behind what is wrong.
fn usage(rt: &HostRuntime) -> Status {
    outside::complain(rt, b"\nusage: replay [--status] ltu|ntu [SILENCE] < LOG\n");
    Status::Wrong
}

// Says that argument i is wrong.
fn refuse(rt: &HostRuntime, i: usize) -> Status {
    outside::refuse(rt, b"replay: wrong argument: ", i, b"");
    usage(rt)
}

// Says why no card starts so.
fn refuse_start(rt: &HostRuntime, why: Refused) -> Status {
    match why {
        Refused::Unknown => outside::complain(rt, b"replay: the end is ltu or ntu"),
        _ => outside::complain(rt, b"replay: the silence is 2000 to 60000 ticks"),
    }
    usage(rt)
}

// Tells the log of a card with this end and silence.
fn tell_card(rt: &HostRuntime, end: u32, silence: u32) -> Status {
    match Story::start(end, silence) {
        Ok(begun) => tell_input(rt, begun),
        Err(why) => refuse_start(rt, why),
    }
}

// How the replayer is called.
fn help(rt: &HostRuntime) -> Result<(), outside::Unwritten> {
    print(
        rt,
        b"usage: replay [--status] ltu|ntu [SILENCE] < LOG\n\
              Tells the story of an SDSL start-up log: one code a line, 0 to 8; 0*300 is 300 ticks.\n\
              The last line is the verdict. SILENCE is 2000 to 60000 ticks, and 5000 where it is not given.\n\
              \x20 --status   writes a digit to descriptor 3: 0 the card is in data mode, 1 it is not,\n\
              \x20            2 wrong use, or a log that is refused or cannot be read or told\n\
              \x20 --version  prints the version\n\
              \x20 --help     prints this\n",
    )
}

// Does what is asked, and answers the status.
fn run(rt: &HostRuntime, asked: Asked) -> Result<Status, outside::Unwritten> {
    match asked.task {
        Task::Help => help(rt)?,
        Task::Version => outside::print_version(rt, &NAME)?,
        Task::Refuse(at) => return Ok(refuse(rt, at)),
        Task::Tell => {
            let end = match asked.end {
                Some(i) => said_at(rt, i, end_named),
                None => NO_END,
            };
            let silence = match asked.silence {
                Some(i) => said_at(rt, i, silence_of),
                None => 0,
            };
            return Ok(tell_card(rt, end, silence));
        },
    }
    Ok(Status::Good)
}

// Does as the arguments say.
fn main(rt: HostRuntime) {
    let asked = arguments(&rt);
    let status = run(&rt, asked).unwrap_or(Status::Wrong);
    if asked.status {
        outside::tell_status(status.digit());
    }
}
