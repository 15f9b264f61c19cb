// The frame lister (SCOPE, "The bench listing"): `lister [--status] [FILE]`. The listing and the words beside it are those of crate listing;
// here a file is only read, and they are written.
#![tactic(auto)]

use options::Argument;
use outside::{Status, Unwritten};
use std::io;
use std::io::{IsTerminal, Read};

// One more than a frame's octets, so that more than 529 show.
const READ: usize = 530;
// The name that its words on standard error begin with.
const NAME: [u8; 6] = *b"lister";

// What is to be done.
#[derive(Clone, Copy)]
enum Task {
    // To list a frame: that in the file whose name stands at this place, or on standard input.
    List(Option<usize>),
    // To print how the lister is called, or its version.
    Help,
    Version,
    // The argument at this place is wrong.
    Refuse(usize),
}

// What the arguments ask for.
// Stays: each program has its own, since each has other fields and rules for a word; what they do alike is crate outside's.
#[derive(Clone, Copy)]
struct Asked {
    // The first of them that asks for something else than to list a frame counts.
    task: Task,
    // Whether the status is asked for.
    status: bool,
    // Whether -- has come.
    ended: bool,
}

impl Asked {
    // The same, asking for this.
    fn asks(self, task: Task) -> Asked {
        match self.task {
            Task::List(_) => Asked { task, ..self },
            _ => self,
        }
    }

    // One word more: the file's name, of which there is one.
    fn word(self, at: usize) -> Asked {
        match self.task {
            Task::List(None) => self.asks(Task::List(Some(at))),
            _ => self.asks(Task::Refuse(at)),
        }
    }

    // One argument more, which is this option or a word.
    fn with(self, argument: Argument, at: usize) -> Asked {
        if self.ended {
            return self.word(at);
        }
        match argument {
            Argument::Word => self.word(at),
            Argument::Status => Asked {
                status: true,
                ..self
            },
            Argument::End => Asked {
                ended: true,
                ..self
            },
            Argument::Help => self.asks(Task::Help),
            Argument::Version => self.asks(Task::Version),
            _ => self.asks(Task::Refuse(at)),
        }
    }
}

// What all arguments ask for.
fn arguments(rt: &HostRuntime) -> Asked {
    let mut asked = Asked {
        task: Task::List(None),
        status: false,
        ended: false,
    };
    for i in 1..outside::arg_count(rt) {
        asked = asked.with(outside::option(rt, i), i);
    }
    asked
}

// Writes to standard output, or says that it cannot.
fn print(rt: &HostRuntime, text: &[u8]) -> Result<(), Unwritten> {
    outside::print(rt, &NAME, text)
}

// Says what cannot be read, and why.
fn unread(rt: &HostRuntime, what: &[u8], why: io::Error) -> Status {
    outside::fail(rt, &NAME, what, why);
    Status::Wrong
}

// Says in words what is found. 256 octets are room for all of it (listing's theorem `words-fit`).
fn say(rt: &HostRuntime, octets: &[u8]) {
    let mut room = [0u8; 256];
    let n = listing::words(octets, &mut room);
    outside::complain(rt, &room[..n]);
}

// Says why a frame is refused; and of a good one vendor data, where somebody is looking.
fn explain(rt: &HostRuntime, octets: &[u8]) -> Status {
    if checker::check(octets).is_err() {
        say(rt, octets);
        return Status::Bad;
    }
    if rt.stderr().is_terminal() {
        say(rt, octets);
    }
    Status::Good
}

// Writes the listing. 4,096 octets are room for every one (listing's theorem `fits`).
fn list(rt: &HostRuntime, octets: &[u8]) -> Result<Status, Unwritten> {
    let mut room = [0u8; 4096];
    let n = listing::list(octets, &mut room);
    print(rt, &room[..n])?;
    Ok(explain(rt, octets))
}

// Lists what is open.
fn list_open<R: Read>(rt: &HostRuntime, input: &mut R, name: &[u8]) -> Result<Status, Unwritten> {
    let mut octets = [0u8; READ];
    match outside::read_full(input, &mut octets) {
        Ok(n) => list(rt, &octets[..n]),
        Err(why) => Ok(unread(rt, name, why)),
    }
}

// Lists the file of this name.
fn list_named(rt: &HostRuntime, name: &[u8]) -> Result<Status, Unwritten> {
    match outside::open(rt, name) {
        Ok(mut file) => list_open(rt, &mut file, name),
        Err(why) => Ok(unread(rt, name, why)),
    }
}

// Lists the file that argument i names.
fn list_file(rt: &HostRuntime, i: usize) -> Result<Status, Unwritten> {
    let mut path: [u8; outside::PATH] = outside::room();
    match outside::arg(rt, i, &mut path) {
        Ok(n) => list_named(rt, &path[..n]),
        Err(why) => Ok(unread(rt, b"the file's name", why)),
    }
}

// Says that argument i is wrong, and how the lister is called.
fn refuse(rt: &HostRuntime, i: usize) -> Status {
    outside::refuse(
        rt,
        b"lister: wrong argument: ",
        i,
        b"\nusage: lister [--status] [FILE]\n",
    );
    Status::Wrong
}

// How the lister is called.
fn help(rt: &HostRuntime) -> Result<(), Unwritten> {
    print(
        rt,
        b"usage: lister [--status] [FILE]\n\
          Lists the SDSL activation frame, 529 octets, in FILE or on standard input.\n\
          Standard output has the listing, or 'refused N'; standard error says why in words.\n\
          \x20 --status   writes a digit to descriptor 3: 0 the frame reads, 1 it is refused,\n\
          \x20            2 wrong use, or a file that cannot be read or written\n\
          \x20 --version  prints the version\n\
          \x20 --help     prints this\n",
    )
}

// Does what is to be done, and answers the status.
fn run(rt: &HostRuntime, task: Task) -> Result<Status, Unwritten> {
    match task {
        Task::List(Some(i)) => return list_file(rt, i),
        Task::List(None) => return list_open(rt, &mut rt.stdin(), b"standard input"),
        Task::Refuse(i) => return Ok(refuse(rt, i)),
        Task::Help => help(rt)?,
        Task::Version => outside::print_version(rt, &NAME)?,
    }
    Ok(Status::Good)
}

// Does as the arguments say.
fn main(rt: HostRuntime) {
    let asked = arguments(&rt);
    let status = run(&rt, asked.task).unwrap_or(Status::Wrong);
    if asked.status {
        outside::tell_status(status.digit());
    }
}
