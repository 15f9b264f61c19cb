// The totals of sorted cards: their text, of a list with each card's verdict (specs/Totals.antt).
#![tactic(auto)]

ghost use Rattle.std.specs.Prelude.{◌≡◌};
ghost use Rattle.ascii.specs.Promises.{Puts};
ghost use Rattle.card.specs.Ranks.{verdicts};
ghost use Rattle.totals.specs.Totals.{how_many, fine as fine_of, written as written_of, cards_text, fine_text, first_line, joint};
ghost use Rattle.totals.specs.Totals.{verdict_line, verdict_lines, all_fine, last_line};
ghost use Rattle.totals.specs.Promises.{Totalled, IsStatus};

use ascii::Text;

// The highest number that is written.
const MOST_WRITTEN: usize = 4294967295;
// How many verdicts there are.
const VERDICTS: u32 = card::GOOD + 1;

// How a sorting went.
#[derive(Clone, Copy, PartialEq, Eq)]
pub enum Sorted {
    // Every card is fine.
    Fine,
    // Not every card is.
    NotFine,
    // A file cannot be read.
    NotRead,
}

// How many entries of a list are x.
fn how_many(xs: &[u32], x: u32) -> usize
    ensures { result ≡ how_many x xs.now }
{
    xs.iter().filter(|&&y| y == x).count()
}

// The verdict of a card that is fine.
fn fine(given: bool) -> u32
    ensures { result ≡ fine_of given }
{
    if given { card::MATCHING } else { card::GOOD }
}

// A count as it is written.
fn written(n: usize) -> u32
    ensures { result ≡ written_of n }
{
    n.min(MOST_WRITTEN) as u32
}

// How many cards there are.
#[tactic(auto, unfolding(crate::specs::Totals::cards_text))]
fn put_cards(text: &mut Text<'_>, n: usize)
    ensures { Puts text.old (cards_text n) text.new }
{
    if n == 1 {
        text.word(b"1 card: ");
    } else {
        forms::form(text, b"# cards: ", &[written(n)]);
    }
}

// So many fine, so many not.
#[tactic(auto, unfolding(crate::specs::Totals::fine_text))]
fn put_fine(text: &mut Text<'_>, given: bool, n: usize, rest: usize)
    ensures { Puts text.old (fine_text given n rest) text.new }
{
    let counts = [written(n), written(rest)];
    if given {
        forms::form(text, b"# match, # do not\n", &counts);
    } else {
        forms::form(text, b"# good, # bad\n", &counts);
    }
}

// The first line.
fn put_first(text: &mut Text<'_>, given: bool, ranks: &[u32])
    ensures { Puts text.old (first_line given ranks.now) text.new }
{
    let n = how_many(ranks, fine(given));
    put_cards(text, ranks.len());
    put_fine(text, given, n, ranks.len() - n);
}

// Between a verdict's name and what to do.
#[tactic(auto, unfolding(crate::specs::Totals::joint))]
fn put_joint(text: &mut Text<'_>, rank: u32)
    ensures { Puts text.old (joint rank) text.new }
{
    match rank {
        1..=card::LAST_REFUSAL => text.word(b"; "),
        _ => text.word(b": "),
    }
}

// A line for a verdict, where a card has it.
fn put_line(text: &mut Text<'_>, rank: u32, count: usize)
    ensures { Puts text.old (verdict_line rank count) text.new }
{
    if count == 0 {
        return;
    }
    forms::form(text, b"# ", &[written(count)]);
    card::put_name(text, rank);
    put_joint(text, rank);
    card::put_todo(text, rank);
    text.put(b'\n');
}

// A line for each verdict that a card has.
fn put_lines(text: &mut Text<'_>, ranks: &[u32])
    ensures { Puts text.old (verdict_lines verdicts ranks.now) text.new }
{
    for rank in 0..VERDICTS {
        put_line(text, rank, how_many(ranks, rank));
    }
}

// Whether every card is fine.
fn all_fine(given: bool, ranks: &[u32]) -> bool
    ensures { result ≡ all_fine given ranks.now }
{
    how_many(ranks, fine(given)) == ranks.len()
}

// The last line.
#[tactic(auto, unfolding(crate::specs::Totals::last_line, crate::specs::Totals::not_text))]
fn put_last(text: &mut Text<'_>, given: bool, all: bool)
    ensures { Puts text.old (last_line given all) text.new }
{
    match (given, all) {
        (true, true) => text.word(b"all match\n"),
        (true, false) => text.word(b"not all match\n"),
        (false, true) => text.word(b"all good\n"),
        (false, false) => text.word(b"not all good\n"),
    }
}

// The totals of the cards with these verdicts.
pub fn totals(given: bool, ranks: &[u32], room: &mut [u8]) -> usize
    ensures { Totalled given ranks.now room.old result room.new }
{
    let mut text = Text { room, at: 0 };
    put_first(&mut text, given, ranks);
    put_lines(&mut text, ranks);
    put_last(&mut text, given, all_fine(given, ranks));
    text.at
}

// How a sorting of cards with these verdicts went.
pub fn status(given: bool, ranks: &[u32]) -> Sorted
    ensures { IsStatus given ranks.now result }
{
    if 0 < how_many(ranks, card::CANNOT_BE_READ) {
        return Sorted::NotRead;
    }
    if all_fine(given, ranks) {
        Sorted::Fine
    } else {
        Sorted::NotFine
    }
}
