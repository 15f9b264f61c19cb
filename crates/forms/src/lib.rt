// Text by forms and tables, put into a lent room (crate ascii): a form has a # for each number, a table is rows of words. What would lie
// past the room's end is left out, and the text's place is then behind it.
#![tactic(auto)]

ghost use Rattle.std.specs.Prelude.{◌≡◌};
ghost use Rattle.ascii.specs.Promises.{Puts};
ghost use Rattle.forms.specs.Forms.{formed, row_of};

use ascii::Text;

// A form with its numbers, in decimal, for the # in it.
pub fn form(text: &mut Text<'_>, form: &[u8], numbers: &[u32])
    ensures { Puts text.old (formed form.now numbers.now) text.new }
{
    let mut left = numbers;
    for &octet in form {
        if octet != b'#' {
            text.put(octet);
        } else if let Some((&number, rest)) = left.split_first() {
            text.decimal(number);
            left = rest;
        }
    }
}

// Row number n of a table, counted from 0. Each row ends with a newline, which is no part of it; behind the last there is nothing.
pub fn row(table: &[u8], n: u32) -> &[u8]
    ensures { result.now ≡ row_of table.now n }
{
    table
        .split(|&octet| octet == b'\n')
        .nth(n as usize)
        .unwrap_or(b"")
}
