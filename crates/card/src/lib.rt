// A card's verdict: what its frame is found to be (crate verdict finds it), as numbers, and the words for each (specs/).
#![tactic(auto)]

ghost use Rattle.std.specs.Prelude.{◌≡◌};
ghost use Rattle.ascii.specs.Promises.{Puts};
ghost use Rattle.card.specs.Words.{row_of_rank, refusal};
ghost use Rattle.card.specs.Promises.{NamePut, TodoPut};

use ascii::Text;

// What a card's frame is found to be: rank is the verdict.
#[derive(Clone, Copy)]
pub struct Verdict {
    pub rank: u32,
    pub octets: u32,
    pub answer: u32,
    pub kind: u32,
    pub used: u32,
    pub a: u32,
    pub b: u32,
    pub alike: u32,
    pub blike: u32,
    pub vendor: [u8; 16],
}

// Stays: numbers and not an enum. put_name, put_todo and cardline's line take any number as a verdict, and any as how a word compares:
// those that none of these names give no words, and a parameter of an enum would ask more of callers.
// How a word compares with the customer's: no customer is given; the same; the customer's read last bit first; another; the card has none.
pub const NO_CUSTOMER: u32 = 0;

pub const SAME: u32 = 1;

pub const TURNED: u32 = 2;

pub const OTHER: u32 = 3;

pub const NO_WORD: u32 = 4;

// The verdicts, the worst first. From 1 to LAST_REFUSAL it is the number of the answer that the frame is refused with.
pub const CANNOT_BE_READ: u32 = 0;

pub const LAST_REFUSAL: u32 = 15;

pub const FINAL_FRAME: u32 = 16;

pub const TURNED_WORDS: u32 = 17;

pub const OTHER_WORDS: u32 = 18;

pub const MATCHING: u32 = 19;

pub const GOOD: u32 = 20;

// The answer for a file that cannot be read: past the last that any refusal may have.
pub const UNREADABLE: u32 = 255;

// The row of a refusal in the tables of words.
const REFUSED_ROW: u32 = 1;

// The row of a verdict in the tables of words.
fn row(rank: u32) -> u32
    ensures { result ≡ row_of_rank rank }
{
    match rank {
        CANNOT_BE_READ => 0,
        1..=LAST_REFUSAL => REFUSED_ROW,
        _ => rank - LAST_REFUSAL + REFUSED_ROW,
    }
}

// The number of a refusal and why.
fn put_refusal(text: &mut Text<'_>, n: u32)
    ensures { Puts text.old (refusal n) text.new }
{
    forms::form(text, b"#: ", &[n]);
    text.word(forms::row(
        b"\n\
          the file is not as long as a frame\n\
          unknown end, frame kind or report code\n\
          coefficient count outside 128 to 180\n\
          a number outside its range\n\
          the sync word is neither of the two, so it is no frame\n\
          a pad bit is not zero, so it is more than a frame\n\
          the check bits differ, so it is damaged\n",
        n,
    ));
}

// A verdict's name.
pub fn put_name(text: &mut Text<'_>, rank: u32)
    ensures { NamePut text.old rank text.new }
{
    let n = row(rank);
    text.word(forms::row(
        b"cannot be read\nrefused \nfinal frame\nTURNED\nother words\nmatch\ngood\n",
        n,
    ));
    if n == REFUSED_ROW {
        put_refusal(text, rank);
    }
}

// What to do with a card.
pub fn put_todo(text: &mut Text<'_>, rank: u32)
    ensures { TodoPut text.old rank text.new }
{
    text.word(forms::row(
        b"check the file\n\
          do not ship; capture its frame again\n\
          capture its training frame; this one has no A and B\n\
          do not ship; words stand last bit first\n\
          do not ship as a replacement; A or B differs\n\
          ship\n\
          compare with a customer's frame\n",
        row(rank),
    ));
}
