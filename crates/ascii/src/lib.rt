// Text in ASCII, put into a lent room from a place on: words, numbers in decimal, octets in hex. Every function takes every input: what
// would lie past the room's end is left out, and the text's place is then behind it.
#![tactic(auto)]

ghost use Rattle.std.specs.Prelude.{◌≡◌, ◌∷◌, [], ◌<◌, drop};
ghost use Rattle.ascii.specs.Text.{decimal, signed, hex, hexes};
ghost use Rattle.ascii.specs.Text.{digit as digit_of};
ghost use Rattle.ascii.specs.Promises.{Puts};
ghost use Rattle.ascii.specs.Plain.{is_printable, printables, all_zeros, TextLength};

// The character of a digit below 16, capital letters from ten on.
fn digit(d: u8) -> u8
    requires { d < 16 }
    ensures { result ≡ digit_of d }
{
    if d < 10 { b'0' + d } else { b'A' + (d - 10) }
}

// A lent room, and the place in it where the next text goes.
#[derive(Drop)]
pub struct Text<'a> {
    pub room: &'a mut [u8],
    pub at: usize,
}

impl<'a> Text<'a> {
    // One octet of text.
    pub fn put(&mut self, octet: u8)
        ensures { Puts self.old (octet ∷ []) self.new }
    {
        if self.at < self.room.len() {
            self.room[self.at] = octet;
            self.at += 1;
        }
    }

    // A word of text.
    pub fn word(&mut self, word: &[u8])
        ensures { Puts self.old word.now self.new }
    {
        for &octet in word {
            self.put(octet);
        }
    }

    // A number in decimal.
    pub fn decimal(&mut self, n: u32)
        ensures { Puts self.old (decimal n) self.new }
    {
        if 10 <= n {
            self.decimal(n / 10);
        }
        self.put(digit((n % 10) as u8));
    }

    // A whole number in decimal, with - in front where it is below zero.
    pub fn signed(&mut self, v: i32)
        ensures { Puts self.old (signed v) self.new }
    {
        if v < 0 {
            self.word(b"-");
        }
        self.decimal(v.unsigned_abs());
    }

    // An octet as two hex digits, the high one first.
    fn hex(&mut self, octet: u8)
        ensures { Puts self.old (hex octet) self.new }
    {
        let (high, low) = (octet / 16, octet % 16);
        self.put(digit(high));
        self.put(digit(low));
    }

    // Octets in order, two hex digits each.
    pub fn hexes(&mut self, octets: &[u8])
        ensures { Puts self.old (hexes octets.now) self.new }
    {
        for &octet in octets {
            self.hex(octet);
        }
    }
}

// Whether an octet is a printable character.
fn is_printable(octet: u8) -> bool
    ensures { result ≡ is_printable octet }
{
    (b' '..=b'~').contains(&octet)
}

// How many printable octets stand at the front.
fn printables(octets: &[u8]) -> usize
    ensures { result ≡ printables octets.now }
{
    octets
        .iter()
        .take_while(|octet| is_printable(**octet))
        .count()
}

// Whether all octets are zero.
fn is_zero(octets: &[u8]) -> bool
    ensures { result ≡ all_zeros octets.now }
{
    octets.iter().all(|octet| *octet == 0)
}

// How many octets of a field are text: printable ones at its front, where only zeros follow; else 0.
// Stays: 0 and not an Option, since an empty text is told as none is.
pub fn text_length(octets: &[u8]) -> usize
    ensures { TextLength octets.now result }
{
    let n = printables(octets);
    if is_zero(&octets[n..]) { n } else { 0 }
}
