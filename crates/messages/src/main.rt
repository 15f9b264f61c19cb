// The messages of an operations channel, listed: `messages [--status] [--for UNIT] < OCTETS`. What a message is found to be and its line are
// crate eoclisting's; here octets are only read, parted at their flags, and lines written.
#![tactic(auto)]

ghost use Rattle.std.specs.Prelude.{◌≡◌, cond, ◌+◌, ◌≤◌, ◌<◌, length, IfSome};
ghost use Rattle.eoc.specs.Channel.{pieces};
ghost use Rattle.messages.specs.Messages.{most_octets, flag_from, is_good, is_taken, count_good, count_taken};

use eoclisting::Counts;
use options::Argument;
use outside::{Status, Unwritten};

// The most octets that are read.
const MOST: usize = 1048576;
// One more is read, so that a longer channel shows.
const READ: usize = 1048577;
// Room for every line (eoclisting's theorems on what fits).
const ROOM: usize = 4096;
// An address that no unit has: every message is listed.
// Stays: a number, since eoclisting::totals takes any as a unit's own address, and one over 15 is no unit's (Totalled).
const NO_UNIT: u32 = 16;
// The name that its words on standard error begin with.
const NAME: [u8; 8] = *b"messages";

// Writes to standard output, or says that it cannot.
fn print(rt: &HostRuntime, text: &[u8]) -> Result<(), Unwritten> {
    outside::print(rt, &NAME, text)
}

// The place of the first flag from a place on, or the channel's end.
fn flag_from(channel: &[u8], at: usize) -> usize
    requires { at ≤ length channel.now }
    ensures { result ≡ flag_from channel.now at }
{
    let rest = &channel[at..];
    at + rest
        .iter()
        .position(|&octet| octet == eoc::FLAG)
        .unwrap_or(rest.len())
}

// What was told so far.
#[derive(Clone, Copy)]
struct Told {
    messages: u32,
    good: u32,
    taken: u32,
}

// Tells one message, its two flags too: one of its own number, where it is asked for. Nothing comes back where it cannot be written.
fn tell(rt: &HostRuntime, told: Told, octets: &[u8], own: u32) -> Option<Told>
    requires { (told.messages < 1048577) × (told.good < 1048577) × (told.taken < 1048577) }
    ensures { IfSome result (λ t. (t.messages ≡ told.messages + 1) × (t.good ≡ told.good + cond (is_good octets.now) 1 0)
        × (t.taken ≡ told.taken + cond (is_taken own octets.now) 1 0)) }
{
    let messages = told.messages + 1;
    let mut room = [0u8; ROOM];
    let line = eoclisting::line(messages, octets, &mut room);
    let (good, taken) = match line.destination {
        Ok(destination) => (true, eocunits::is_meant(own, destination)),
        Err(_) => (false, false),
    };
    if taken || own == NO_UNIT {
        print(rt, &room[..line.length]).ok()?;
    }
    Some(Told {
        messages,
        good: told.good + u32::from(good),
        taken: told.taken + u32::from(taken),
    })
}

// Tells every message of a channel, from its first flag on. Nothing comes back where one cannot be written.
fn tell_from(rt: &HostRuntime, channel: &[u8], first: usize, own: u32) -> Option<Told>
    requires { (length channel.now ≤ most_octets) × (first ≡ flag_from channel.now 0) }
    ensures { IfSome result (λ t. (t.messages ≡ length (pieces channel.now)) × (t.good ≡ count_good (pieces channel.now))
        × (t.taken ≡ count_taken own (pieces channel.now))) }
{
    let mut told = Told {
        messages: 0,
        good: 0,
        taken: 0,
    };
    let mut at = first;
    // Stays: `channel.split(..)` gives what stands between flags without them, and eoclisting::line takes a message with its two flags.
    while at < channel.len() {
        let end = flag_from(channel, at + 1);
        if (at + 1 < end) & (end < channel.len()) {
            told = tell(rt, told, &channel[at..end + 1], own)?;
        }
        at = end;
    }
    Some(told)
}

// How many octets stand behind the last flag; none where there is no flag, since then all stand before the first.
fn octets_behind(channel: &[u8]) -> u32
    requires { length channel.now ≤ most_octets }
{
    match channel.iter().rposition(|&octet| octet == eoc::FLAG) {
        Some(last) => (channel.len() - 1 - last) as u32,
        None => 0,
    }
}

// The status of what was told: there is a message, and all are good.
fn status(told: Told) -> Status {
    if (told.messages != 0) & (told.messages == told.good) {
        Status::Good
    } else {
        Status::Bad
    }
}

// Tells the totals, and answers the status.
fn tell_totals(rt: &HostRuntime, told: Told, before: u32, behind: u32, own: u32) -> Status {
    let mut room = [0u8; ROOM];
    let counts = Counts {
        before,
        behind,
        messages: told.messages,
        good: told.good,
        own,
        taken: told.taken,
    };
    let n = eoclisting::totals(counts, &mut room);
    match print(rt, &room[..n]) {
        Ok(()) => status(told),
        Err(Unwritten) => Status::Wrong,
    }
}

// Tells a channel.
fn tell_channel(rt: &HostRuntime, channel: &[u8], own: u32) -> Status
    requires { length channel.now ≤ most_octets }
{
    let first = flag_from(channel, 0);
    let Some(told) = tell_from(rt, channel, first, own) else {
        return Status::Wrong;
    };
    tell_totals(rt, told, first as u32, octets_behind(channel), own)
}

// Tells what was read. One octet more than a channel may have shows that it is too long.
fn tell_all(rt: &HostRuntime, channel: &[u8], own: u32) -> Status
    requires { length channel.now ≤ most_octets + 1 }
{
    if MOST < channel.len() {
        outside::complain(
            rt,
            b"messages: more than 1048576 octets: give it fewer at a time\n",
        );
        return Status::Wrong;
    }
    tell_channel(rt, channel, own)
}

// Tells the channel on standard input.
fn tell_input(rt: &HostRuntime, own: u32) -> Status {
    let mut channel: [u8; READ] = outside::room();
    match outside::fill(&mut rt.stdin(), &mut channel) {
        Ok(n) => tell_all(rt, &channel[..n], own),
        Err(why) => {
            outside::fail(rt, &NAME, b"standard input", why);
            Status::Wrong
        },
    }
}

// What is to be done: the messages listed, or what one of the arguments asks for; that at a place is wrong.
#[derive(Clone, Copy, PartialEq, Eq)]
enum Task {
    List,
    Help,
    Version,
    Refuse(usize),
}

// What the arguments ask for.
// Stays: each program has its own, since each has other fields and rules for a word; what they do alike is crate outside's.
#[derive(Clone, Copy)]
struct Asked {
    // What is to be done: the first argument that says so counts.
    task: Task,
    // The place of the unit's name.
    unit: Option<usize>,
    // Whether that is what comes next.
    waits: bool,
    // Whether the status is asked for.
    status: bool,
}

impl Asked {
    // The same, asking for this.
    fn asks(mut self, task: Task) -> Asked {
        if self.task == Task::List {
            self.task = task;
        }
        self
    }

    // One option more.
    fn option(mut self, option: Option<Argument>, at: usize) -> Asked {
        match option {
            Some(Argument::Status) => {
                self.status = true;
                self
            },
            None => {
                self.waits = true;
                self
            },
            Some(Argument::Help) => self.asks(Task::Help),
            Some(Argument::Version) => self.asks(Task::Version),
            _ => self.asks(Task::Refuse(at)),
        }
    }

    // One argument more, which is this option or a word.
    fn with(mut self, option: Option<Argument>, at: usize) -> Asked {
        if self.waits {
            self.waits = false;
            self.unit = Some(at);
            return self;
        }
        self.option(option, at)
    }

    // Where the last argument is --for, it is wrong.
    fn done(self, at: usize) -> Asked {
        if self.waits {
            return self.asks(Task::Refuse(at));
        }
        self
    }
}

// Which option argument i is; None is --for, which this program alone has. One that is too long to be one is a word.
fn option_at(rt: &HostRuntime, i: usize) -> Option<Argument> {
    let mut buf: [u8; outside::PATH] = outside::room();
    let word = outside::said(rt, i, &mut buf);
    options::named(word, b"--for", None, Some(options::read(word)))
}

// What all arguments ask for.
fn arguments(rt: &HostRuntime) -> Asked {
    let count = outside::arg_count(rt);
    let mut asked = Asked {
        task: Task::List,
        unit: None,
        waits: false,
        status: false,
    };
    for i in 1..count {
        asked = asked.with(option_at(rt, i), i);
    }
    asked.done(count.saturating_sub(1))
}

// The address of the unit of this name, LTU, NTU or R1 to R8.
fn unit_named(word: &[u8]) -> Option<u32> {
    match word {
        b"LTU" | b"ltu" => Some(1),
        b"NTU" | b"ntu" => Some(2),
        &[b'R' | b'r', digit @ b'1'..=b'8'] => Some(u32::from(digit - b'1') + 3),
        _ => None,
    }
}

// The address of the unit that argument i names.
fn unit_at(rt: &HostRuntime, i: usize) -> Option<u32> {
    let mut buf: [u8; outside::PATH] = outside::room();
    unit_named(outside::said(rt, i, &mut buf))
}

// Says that argument i is wrong, and how the program is called.
fn refuse(rt: &HostRuntime, i: usize) -> Status {
    outside::refuse(
        rt,
        b"messages: wrong argument: ",
        i,
        b"\nusage: messages [--status] [--for UNIT] < OCTETS\n",
    );
    Status::Wrong
}

// How the program is called.
fn help(rt: &HostRuntime) -> Result<(), Unwritten> {
    print(
        rt,
        b"usage: messages [--status] [--for UNIT] < OCTETS\n\
              Lists the messages of an SDSL operations channel (eoc), octets with their flags as they came.\n\
              \x20 --for UNIT lists only what this unit takes: LTU, NTU, or R1 to R8 for a regenerator\n\
              \x20 --status   writes a digit to descriptor 3: 0 all messages are good, 1 some are refused or\n\
              \x20            there are none, 2 wrong use, or octets that cannot be read or told\n\
              \x20 --version  prints the version\n\
              \x20 --help     prints this\n",
    )
}

// Lists the messages of the channel, all of them or those for the unit that an argument names.
fn list(rt: &HostRuntime, unit: Option<usize>) -> Status {
    let Some(i) = unit else {
        return tell_input(rt, NO_UNIT);
    };
    match unit_at(rt, i) {
        Some(own) => tell_input(rt, own),
        None => refuse(rt, i),
    }
}

// Does what is asked, and answers the status.
fn run(rt: &HostRuntime, asked: Asked) -> Result<Status, Unwritten> {
    match asked.task {
        Task::List => return Ok(list(rt, asked.unit)),
        Task::Refuse(i) => return Ok(refuse(rt, i)),
        Task::Help => help(rt)?,
        Task::Version => outside::print_version(rt, &NAME)?,
    }
    Ok(Status::Good)
}

// Does as the arguments say.
fn main(rt: HostRuntime) {
    let asked = arguments(&rt);
    let status = run(&rt, asked).unwrap_or(Status::Wrong);
    if asked.status {
        outside::tell_status(status.digit());
    }
}
