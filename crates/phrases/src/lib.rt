// Text by phrases, put into a lent room (crate ascii): a phrase is a row of a table (crate forms), with a number for the marks in it. What
// would lie past the room's end is left out, and the text's place is then behind it.
#![tactic(auto)]

ghost use Rattle.ascii.specs.Promises.{Puts};
ghost use Rattle.phrases.specs.Phrases.{thousandths, marked, phrase_of, phrases, said_of};

use ascii::Text;

// A row of a table, and the number for its marks.
#[derive(Clone, Copy)]
pub struct Phrase {
    pub row: u32,
    pub number: u32,
}

// Thousandths as a number with three decimals.
fn put_thousandths(text: &mut Text<'_>, n: u32)
    ensures { Puts text.old (thousandths n) text.new }
{
    let digits = [n / 1000, n / 100 % 10, n / 10 % 10, n % 10];
    forms::form(text, b"#.###", &digits);
}

// An octet of a phrase, or the number that it marks.
fn put_marked(text: &mut Text<'_>, octet: u8, n: u32)
    ensures { Puts text.old (marked n octet) text.new }
{
    match octet {
        b'#' => text.decimal(n),
        b'@' => put_thousandths(text, n),
        b'$' => text.put(b'\n'),
        _ => text.put(octet),
    }
}

// A row of a table, counted from 0, with a number for its marks.
fn put_phrase(text: &mut Text<'_>, table: &[u8], row: u32, n: u32)
    ensures { Puts text.old (phrase_of table.now row n) text.new }
{
    let octets = forms::row(table, row);
    for &octet in octets {
        put_marked(text, octet, n);
    }
}

// Phrases one behind the other.
pub fn tell(text: &mut Text<'_>, table: &[u8], said: &[Phrase])
    ensures { Puts text.old (phrases table.now (said_of said.now)) text.new }
{
    for &Phrase { row, number } in said {
        put_phrase(text, table, row, number);
    }
}
