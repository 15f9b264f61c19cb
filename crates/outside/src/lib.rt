// What the programs ask of the system and what they do alike, over std: their arguments, a file by its name, octets to its end, words on
// standard error, texts on standard output, and how they end, by the digit of --status.
#![tactic(auto)]

ghost use Rattle.std.specs.Prelude.{◌≡◌, ◌≤◌, length, IfOk};
ghost use Rattle.outside.specs.Status.{digit_of};

use options::Argument;
use std::env::{Env, FillError};
use std::fmt::Write as _;
use std::fs::File;
use std::io::{Error, Read, Result};
use std::{fmt, result, str};

// The system's numbers of three errors: an argument that there is not, a name that is too long, and one that is no text.
const EINVAL: i32 = 22;

const ENAMETOOLONG: i32 = 36;

const EILSEQ: i32 = 84;
// The most octets of an argument that may be a path.
pub const PATH: usize = 4096;

// Where the digit goes that --status asks for.
const STATUS_FILENO: i32 = 3;

// How a program ends, as --status tells it.
#[derive(Clone, Copy, PartialEq, Eq)]
pub enum Status {
    Good,
    // Something that was looked at is not as it should be.
    Bad,
    // The program is called wrongly, or something cannot be read or written.
    Wrong,
}

impl Status {
    // Its digit.
    pub fn digit(self) -> u8
        ensures { result ≡ digit_of self }
    {
        match self {
            Status::Good => b'0',
            Status::Bad => b'1',
            Status::Wrong => b'2',
        }
    }
}

// Standard output could not be written, and that is said.
#[derive(Clone, Copy, PartialEq, Eq)]
pub struct Unwritten;

// Room for what is read. Its callers know its length alone, and never count it out.
pub fn room<const N: usize>() -> [u8; N]
    ensures { N ≡ length result }
{
    [0; N]
}

// Puts argument i at the start of a buffer, and answers its length. Of one that is too long the buffer has the first octets.
pub fn arg(rt: &HostRuntime, i: usize, buf: &mut [u8]) -> Result<usize>
    ensures { IfOk result (λ n. n ≤ length buf.new) }
{
    match rt.arg(i, buf) {
        Ok(n) => Ok(n),
        Err(FillError::TooLong) => Err(Error::from_raw_os_error(ENAMETOOLONG)),
        Err(FillError::NotPresent) => Err(Error::from_raw_os_error(EINVAL)),
    }
}

// The same, where one that is too long counts as one of no octets.
pub fn word(rt: &HostRuntime, i: usize, buf: &mut [u8]) -> usize
    ensures { result ≤ length buf.new }
{
    match arg(rt, i, buf) {
        Ok(n) => n,
        Err(_) => 0,
    }
}

// What argument i says, in this buffer. One that is too long says nothing.
pub fn said<'a>(rt: &HostRuntime, i: usize, buf: &'a mut [u8]) -> &'a [u8]
    ensures { length result.now ≤ length buf.old }
{
    let n = word(rt, i, buf);
    &buf[..n]
}

// Which option argument i is. One that is too long to be one is a word.
pub fn option(rt: &HostRuntime, i: usize) -> Argument {
    let mut buf: [u8; PATH] = room();
    options::read(said(rt, i, &mut buf))
}

// Whether there is an argument i.
fn is_given(rt: &HostRuntime, i: usize) -> bool {
    let mut first = [0u8; 1];
    match rt.arg(i, &mut first) {
        Err(FillError::NotPresent) => false,
        _ => true,
    }
}

// How many arguments there are, the program's name among them.
pub fn arg_count(rt: &HostRuntime) -> usize {
    for i in 0..usize::MAX {
        if !is_given(rt, i) {
            return i;
        }
    }
    usize::MAX
}

// Opens the file of this name. One that is no text in UTF-8 names no file here: std knows no other path.
pub fn open(rt: &HostRuntime, name: &[u8]) -> Result<File> {
    match str::from_utf8(name) {
        Ok(path) => File::open(rt, path),
        Err(_) => Err(Error::from_raw_os_error(EILSEQ)),
    }
}

// Reads until the octets are full or the input ends, and answers how many came.
pub fn read_full<R: Read>(input: &mut R, octets: &mut [u8]) -> Result<usize>
    ensures { IfOk result (λ n. n ≤ length octets.new) }
{
    let mut n: usize = 0;
    // Stays: a count, since a read fills as much of the rest as it likes; read_exact doesn't say how much came, and read_to_end needs a heap.
    while n < octets.len() {
        let m = input.read(&mut octets[n..])?;
        if m == 0 {
            return Ok(n);
        }
        n += m;
    }
    Ok(n)
}

// The same, of a room whose length is known.
pub fn fill<R: Read, const N: usize>(input: &mut R, octets: &mut [u8; N]) -> Result<usize>
    ensures { IfOk result (λ n. n ≤ N) }
{
    read_full(input, octets)
}

// Writes to standard error. Where that fails, nobody can be told.
pub fn complain(rt: &HostRuntime, text: &[u8]) {
    let _ = rt.stderr().write_all(text);
}

// A text that is put together.
// Stays: a room with a count beside it, since there is no heap for a String; ascii's Text lends its room, and this one has to own it.
#[derive(Drop)]
struct Words {
    text: [u8; 256],
    count: usize,
    ghost fits: { count ≤ 256 },
}

impl Words {
    // One octet more, where there is room for it.
    fn push(&mut self, octet: u8) {
        let n = self.count;
        if n < 256 {
            self.text[n] = octet;
            self.count = n + 1;
        }
    }
}

impl fmt::Write for Words {
    // All octets of a text, as far as there is room.
    fn write_str(&mut self, s: &str) -> fmt::Result {
        for octet in s.as_bytes() {
            self.push(*octet);
        }
        Ok(())
    }
}

// How much of an error's text is the system's own: std puts " (os error N)" behind it.
fn own_words(text: &[u8]) -> usize
    ensures { result ≤ length text.now }
{
    match text.iter().rposition(|octet| *octet == b'(') {
        Some(at) => at.saturating_sub(1),
        None => text.len(),
    }
}

// Writes a line to standard error: what failed, a colon and the system's words for it.
fn explain(rt: &HostRuntime, what: &[u8], error: Error) {
    let mut words = Words {
        text: [0; 256],
        count: 0,
    };
    let _ = write!(words, "{error}");
    let said = &words.text[..words.count];
    complain(rt, what);
    complain(rt, b": ");
    complain(rt, &said[..own_words(said)]);
    complain(rt, b"\n");
}

// Says that a program of this name failed, at what, and why.
pub fn fail(rt: &HostRuntime, program: &[u8], what: &[u8], error: Error) {
    complain(rt, program);
    complain(rt, b": ");
    explain(rt, what, error);
}

// Writes a text to standard output for a program of this name. Where that fails, says so.
pub fn print(rt: &HostRuntime, program: &[u8], text: &[u8]) -> result::Result<(), Unwritten> {
    match rt.stdout().write_all(text) {
        Ok(()) => Ok(()),
        Err(why) => {
            fail(rt, program, b"standard output", why);
            Err(Unwritten)
        },
    }
}

// Prints the version of a program of this name.
pub fn print_version(rt: &HostRuntime, program: &[u8]) -> result::Result<(), Unwritten> {
    print(rt, program, b"sdsl-")?;
    print(rt, program, program)?;
    print(rt, program, b" ")?;
    print(rt, program, &options::RELEASE)?;
    print(rt, program, b"\n")
}

// Says what is wrong with argument i, its octets between these words.
pub fn refuse(rt: &HostRuntime, before: &[u8], i: usize, behind: &[u8]) {
    let mut buf: [u8; PATH] = room();
    complain(rt, before);
    complain(rt, said(rt, i, &mut buf));
    complain(rt, behind);
}

// Writes the digit that --status asks for to descriptor 3, where that is open for writing. std knows no descriptor by its number, and a file
// opened anew by the name /dev/fd/3 is another one: it is written where descriptor 3 may only be read, and not at the place where that stands.
pub fn tell_status(digit: u8) {
    io::write_all(STATUS_FILENO, &[digit]);
}
