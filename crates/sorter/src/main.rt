// The sorter: `sorter [--like FILE] [--csv] [--status] [--] FILE...`. A line for each card's frame, then the totals. What a frame is found to be
// is crate verdict's, the texts are those of cardline and totals; here files are only read and texts written. proofs/ has that they fit.
#![tactic(auto)]

ghost use Rattle.std.specs.Prelude.{◌≤◌, ◌<◌, ◌≡◌, length, IfOk};

use options::Argument;
use outside::{Status, Unwritten};
use std::io;
use std::io::IsTerminal;
use totals::Sorted;

// The most cards of one run.
const MOST: usize = 65536;
// A list of more cards than this is long: it shows how far it has come.
const SHORT: usize = 20;
// One more than a frame's octets, so that more than 529 show.
const READ: usize = verdict::MOST_OCTETS;
// Room for every text: the totals (totals' theorem totals-fit), a line whose name has at most 4,096 octets (theorem line-fits), and the same
// comma-separated (cardline's theorem csv-fits).
const ROOM: usize = 16384;
// The name that its words on standard error begin with.
const NAME: [u8; 6] = *b"sorter";

// What the arguments ask for.
#[derive(Clone, Copy)]
enum Task {
    Sort,
    Help,
    Version,
    // The argument at this place is an option that the sorter does not have.
    Unknown(usize),
    // --like with no FILE behind it.
    NoFile,
    // --like a second time.
    Twice,
    TooMany,
    NoCards,
}

// What the arguments so far ask for.
// Stays: each program has its own, since each has other fields and rules for a word; what they do alike is crate outside's.
#[derive(Clone, Copy)]
struct Asked {
    // To sort, or the first of the others.
    task: Task,
    // The place of the reference's name.
    like: Option<usize>,
    // Whether that is what comes next.
    waits: bool,
    cards: usize,
    csv: bool,
    status: bool,
    // Whether -- has come.
    ended: bool,
    ghost few: { cards ≤ 65536 },
}

impl Asked {
    // The same, asking for this, where it is the first such argument.
    fn asks(mut self, task: Task) -> Asked
        ensures { result.cards ≡ self.cards }
    {
        if let Task::Sort = self.task {
            self.task = task;
        }
        self
    }

    // With --like.
    fn with_like(mut self) -> Asked
        ensures { result.cards ≡ self.cards }
    {
        if self.like.is_some() {
            return self.asks(Task::Twice);
        }
        self.waits = true;
        self
    }

    // With one option more, which stands at this place.
    fn with_option(mut self, option: Argument, at: usize) -> Asked
        ensures { result.cards ≡ self.cards }
    {
        match option {
            Argument::Status => {
                self.status = true;
                self
            },
            Argument::Csv => {
                self.csv = true;
                self
            },
            Argument::End => {
                self.ended = true;
                self
            },
            Argument::Like => self.with_like(),
            Argument::Help => self.asks(Task::Help),
            Argument::Version => self.asks(Task::Version),
            _ => self.asks(Task::Unknown(at)),
        }
    }

    // With one card more, whose file the argument at this place names.
    fn with_card(mut self, at: usize, files: &mut [usize]) -> Asked
        requires { length files.old ≡ 65536 }
    {
        let n = self.cards;
        if n < MOST {
            files[n] = at;
            self.cards = n + 1;
            return self;
        }
        self.asks(Task::TooMany)
    }

    // With one argument more, which is this option or a word.
    fn with(mut self, argument: Argument, at: usize, files: &mut [usize]) -> Asked
        requires { length files.old ≡ 65536 }
    {
        let is_word = self.ended || argument == Argument::Word;
        if !self.waits {
            if is_word {
                return self.with_card(at, files);
            }
            return self.with_option(argument, at);
        }
        self.waits = false;
        if is_word {
            self.like = Some(at);
            return self;
        }
        self.asks(Task::NoFile).with_option(argument, at)
    }

    // What is asked for once all arguments are read.
    fn task(self) -> Task {
        match self.task {
            Task::Sort if self.waits => Task::NoFile,
            Task::Sort if self.cards == 0 => Task::NoCards,
            task => task,
        }
    }
}

// What all arguments ask for; the places of the cards' names are put into files.
// Stays: a room with a count beside it (Asked::cards), since there is no heap for a Vec.
fn arguments(rt: &HostRuntime, files: &mut [usize]) -> Asked
    requires { length files.old ≡ 65536 }
{
    let mut asked = Asked {
        task: Task::Sort,
        like: None,
        waits: false,
        cards: 0,
        csv: false,
        status: false,
        ended: false,
    };
    for i in 1..outside::arg_count(rt) {
        asked = asked.with(outside::option(rt, i), i, files);
    }
    asked
}

// A number for each card. The proofs of its callers know its length alone, and never count it out.
fn for_each_card<T: Copy>(number: T) -> [T; MOST]
    ensures { 65536 ≡ length result }
{
    [number; MOST]
}

// Writes text to standard output, or says that it cannot.
fn say(rt: &HostRuntime, text: &[u8]) -> Result<(), Unwritten> {
    outside::print(rt, &NAME, text)
}

// Writes a line of cells to standard output, in comma-separated form where that is asked for.
fn say_cells(rt: &HostRuntime, line: &[u8], csv: bool) -> Result<(), Unwritten> {
    if !csv {
        return say(rt, line);
    }
    let mut room: [u8; ROOM] = outside::room();
    let n = cardline::csv(line, &mut room);
    say(rt, &room[..n])
}

// Writes the line above the cards' lines.
fn head(rt: &HostRuntime, given: bool, csv: bool) -> Result<(), Unwritten> {
    let mut room: [u8; ROOM] = outside::room();
    let n = cardline::header(given, &mut room);
    say_cells(rt, &room[..n], csv)
}

// Writes a card's line.
fn tell(rt: &HostRuntime, name: &[u8], v: card::Verdict, csv: bool) -> Result<(), Unwritten> {
    let mut room: [u8; ROOM] = outside::room();
    let n = cardline::line(name, v, &mut room);
    say_cells(rt, &room[..n], csv)
}

// Reads up to 530 octets of the file of this name, and answers how many came.
fn read_file(rt: &HostRuntime, name: &[u8], octets: &mut [u8; READ]) -> io::Result<usize>
    ensures { IfOk result (λ n. n ≤ 530) }
{
    let mut file = outside::open(rt, name)?;
    outside::fill(&mut file, octets)
}

// What the card whose frame stands in the file of this name is found to be.
fn look(rt: &HostRuntime, name: &[u8], customer: verdict::Customer) -> card::Verdict {
    let mut octets: [u8; READ] = outside::room();
    match read_file(rt, name, &mut octets) {
        Ok(n) => verdict::judge(&octets[..n], customer),
        Err(_) => verdict::unread(customer),
    }
}

// Shows which card is being looked at.
fn show(rt: &HostRuntime, number: usize, cards: usize) {
    let _ = eprint!(rt; "\r\x1b[Ksorter: card {number} of {cards}");
}

// Takes that away again.
fn hide(rt: &HostRuntime, shown: bool) {
    if shown {
        outside::complain(rt, b"\r\x1b[K");
    }
}

// The same before a line that goes to a terminal too.
fn clear(rt: &HostRuntime, shown: bool) {
    if rt.stdout().is_terminal() {
        hide(rt, shown);
    }
}

// Whether a list of so many cards shows how far it has come: a long one does, where standard error is a terminal.
fn is_shown(rt: &HostRuntime, cards: usize) -> bool {
    SHORT < cards && rt.stderr().is_terminal()
}

// Writes the line of a card that is found to be this, and gives its verdict's rank.
fn done(
    rt: &HostRuntime,
    name: &[u8],
    v: card::Verdict,
    shown: bool,
    csv: bool,
) -> Result<u32, Unwritten> {
    clear(rt, shown);
    tell(rt, name, v, csv)?;
    Ok(v.rank)
}

// Looks at the card whose file argument i names, and writes its line. A name that is too long for a path is cut, and its file unread.
fn card(
    rt: &HostRuntime,
    i: usize,
    shown: bool,
    csv: bool,
    customer: verdict::Customer,
) -> Result<u32, Unwritten> {
    let mut path: [u8; outside::PATH] = outside::room();
    match outside::arg(rt, i, &mut path) {
        Ok(n) => {
            let v = look(rt, &path[..n], customer);
            done(rt, &path[..n], v, shown, csv)
        },
        Err(_) => done(rt, &path, verdict::unread(customer), shown, csv),
    }
}

// Shows a card's number where that is asked for.
fn number(rt: &HostRuntime, shown: bool, k: usize, cards: usize)
    requires { k < 65536 }
{
    if shown {
        show(rt, k + 1, cards);
    }
}

// Looks at the cards whose names stand at these places one by one, and puts their verdicts into ranks.
fn look_at_each(
    rt: &HostRuntime,
    files: &[usize],
    shown: bool,
    csv: bool,
    customer: verdict::Customer,
    ranks: &mut [u32],
) -> Result<(), Unwritten>
    requires { (length files.now ≤ 65536) × (length ranks.old ≡ length files.now) }
{
    for k in 0..files.len() {
        number(rt, shown, k, files.len());
        ranks[k] = card(rt, files[k], shown, csv, customer)?;
    }
    Ok(())
}

// The same, showing how far it has come where the list is long.
fn look_at(
    rt: &HostRuntime,
    files: &[usize],
    csv: bool,
    customer: verdict::Customer,
    ranks: &mut [u32],
) -> Result<(), Unwritten>
    requires { (length files.now ≤ 65536) × (length ranks.old ≡ length files.now) }
{
    let shown = is_shown(rt, files.len());
    let looked = look_at_each(rt, files, shown, csv, customer, ranks);
    hide(rt, shown);
    looked
}

// Writes the totals. With comma-separated cards they go to standard error.
fn total(rt: &HostRuntime, given: bool, csv: bool, ranks: &[u32]) -> Result<(), Unwritten> {
    let mut room: [u8; ROOM] = outside::room();
    let n = totals::totals(given, ranks, &mut room);
    if !csv {
        return say(rt, &room[..n]);
    }
    outside::complain(rt, &room[..n]);
    Ok(())
}

// How the run ends, by how the sorting went.
fn ended(sorted: Sorted) -> Status {
    match sorted {
        Sorted::Fine => Status::Good,
        Sorted::NotFine => Status::Bad,
        Sorted::NotRead => Status::Wrong,
    }
}

// Sorts the cards whose names stand at these places, and answers the status.
fn sort(
    rt: &HostRuntime,
    files: &[usize],
    csv: bool,
    customer: verdict::Customer,
) -> Result<Status, Unwritten>
    requires { length files.now ≤ 65536 }
{
    let mut room = for_each_card(0u32);
    let ranks = &mut room[..files.len()];
    head(rt, customer.given, csv)?;
    look_at(rt, files, csv, customer, ranks)?;
    total(rt, customer.given, csv, ranks)?;
    Ok(ended(totals::status(customer.given, ranks)))
}

// Says what a reference that does not serve is found to be.
fn refer(rt: &HostRuntime, name: &[u8], v: card::Verdict) -> Status {
    let mut room: [u8; ROOM] = outside::room();
    let n = cardline::reference(name, v, &mut room);
    outside::complain(rt, &room[..n]);
    Status::Wrong
}

// Sorts beside the customer whose reference frame argument i names.
fn sort_like(rt: &HostRuntime, i: usize, files: &[usize], csv: bool) -> Result<Status, Unwritten>
    requires { length files.now ≤ 65536 }
{
    let mut path: [u8; outside::PATH] = outside::room();
    let name = outside::said(rt, i, &mut path);
    let v = look(rt, name, verdict::nobody());
    let customer = verdict::reference(v);
    if !customer.given {
        return Ok(refer(rt, name, v));
    }
    sort(rt, files, csv, customer)
}

// Says how the sorter is called.
fn usage(rt: &HostRuntime) -> Status {
    outside::complain(
        rt,
        b"\nusage: sorter [--like FILE] [--csv] [--status] [--] FILE...\n",
    );
    Status::Wrong
}

// Says why it is called wrongly.
fn refuse(rt: &HostRuntime, why: &[u8]) -> Status {
    outside::complain(rt, b"sorter: ");
    outside::complain(rt, why);
    usage(rt)
}

// Says that argument i is no option of the sorter.
fn refuse_option(rt: &HostRuntime, i: usize) -> Status {
    outside::refuse(
        rt,
        b"sorter: ",
        i,
        b": no such option; a file of that name is given as ./NAME",
    );
    usage(rt)
}

// How the sorter is called.
fn help(rt: &HostRuntime) -> Result<(), Unwritten> {
    say(
        rt,
        b"usage: sorter [--like FILE] [--csv] [--status] [--] FILE...\n\
          Sorts SDSL line cards: each FILE holds a card's captured activation frame, 529 octets.\n\
          Standard output has a line for each card and then the totals.\n\
          \x20 --like FILE  compares A and B with those of the customer's frame in FILE\n\
          \x20 --csv        comma-separated, for a spreadsheet; the totals go to standard error\n\
          \x20 --status     writes a digit to descriptor 3: 0 all good or matching, 1 not,\n\
          \x20              2 wrong use, or a file that cannot be read or written\n\
          \x20 --version    prints the version\n\
          \x20 --help       prints this\n",
    )
}

// Does what is asked with the cards at these places, and answers the status.
fn run(rt: &HostRuntime, asked: Asked, files: &[usize]) -> Result<Status, Unwritten>
    requires { length files.now ≤ 65536 }
{
    match asked.task() {
        Task::Sort => {
            return match asked.like {
                Some(i) => sort_like(rt, i, files, asked.csv),
                None => sort(rt, files, asked.csv, verdict::nobody()),
            };
        },
        Task::Help => help(rt)?,
        Task::Version => outside::print_version(rt, &NAME)?,
        Task::Unknown(at) => return Ok(refuse_option(rt, at)),
        Task::NoFile => return Ok(refuse(rt, b"--like: the reference's FILE is missing")),
        Task::Twice => return Ok(refuse(rt, b"--like stands twice")),
        Task::TooMany => return Ok(refuse(rt, b"more than 65536 cards")),
        Task::NoCards => return Ok(refuse(rt, b"no cards")),
    }
    Ok(Status::Good)
}

// Does as the arguments say.
fn main(rt: HostRuntime) {
    let mut places = for_each_card(0usize);
    let asked = arguments(&rt, &mut places);
    let status = run(&rt, asked, &places[..asked.cards]).unwrap_or(Status::Wrong);
    if asked.status {
        outside::tell_status(status.digit());
    }
}
