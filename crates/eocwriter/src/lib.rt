// Writing an operations channel message (002, clauses 10.5.5.2 to 10.5.5.4).
#![tactic(auto)]

ghost use Rattle.std.specs.Prelude.{◌≡◌, ◌++◌, ◌∷◌, [], ◌+◌, ◌*◌, ◌≤◌, length, take};
ghost use Rattle.answer.specs.Answer.{answer};
ghost use Rattle.answer.specs.Given.{answer_of};
ghost use Rattle.fcs.specs.Sequence.{sequence_of};
ghost use Rattle.eoc.specs.Message.{encoded, escaped, framed, padded, form_most};
ghost use Rattle.eoc.specs.Refusals.{write_refusals};
ghost use Rattle.eocwriter.specs.Promises.{MessageWritten};

use answer::Refused;

// Whether what is handed in can be written.
fn allowed(
    source: u32,
    destination: u32,
    number: u32,
    contents: &[u8],
    room: &[u8],
) -> Result<(), Refused>
    ensures { answer_of result ≡ answer (write_refusals source destination number contents.now room.now) }
{
    if room.len() != eoc::FORM {
        return Err(Refused::Length);
    }
    if eoc::ADDRESSES <= source || eoc::ADDRESSES <= destination || eoc::NUMBERS <= number {
        return Err(Refused::Range);
    }
    if eoc::CONTENTS < contents.len() {
        return Err(Refused::Size);
    }
    Ok(())
}

// The check sequence of the first n octets stands behind them, its first octet first.
fn put_sequence(fields: &mut [u8], n: usize)
    requires { (n ≤ 75) × (n + 2 ≤ length fields.old) }
    ensures { take (n + 2) fields.new ≡ take n fields.old ++ sequence_of (take n fields.old) }
{
    let c = fcs::sequence(fields, n as u16);
    fields[n] = (c % 256) as u8;
    fields[n + 1] = (c / 256) as u8;
}

// An octet as it is encoded, from place `at` on; the place behind it comes back.
fn put_encoded(room: &mut [u8], at: usize, octet: u8) -> usize
    requires { at + 2 ≤ length room.old }
    ensures { (result ≡ at + length (encoded octet)) × (take result room.new ≡ take at room.old ++ encoded octet) }
{
    if octet == eoc::FLAG {
        room[at] = eoc::ESCAPE;
        room[at + 1] = eoc::FLAG_MARK;
        return at + 2;
    }
    if octet == eoc::ESCAPE {
        room[at] = eoc::ESCAPE;
        room[at + 1] = eoc::ESCAPE_MARK;
        return at + 2;
    }
    room[at] = octet;
    at + 1
}

// Octets as they are encoded, from place 1 on; the place behind them comes back.
fn put_escaped(room: &mut [u8], fields: &[u8]) -> usize
    requires { 2 * length fields.now + 1 ≤ length room.old }
    ensures { (result ≡ 1 + length (escaped fields.now)) × (result ≤ 2 * length fields.now + 1)
        × (take result room.new ≡ take 1 room.old ++ escaped fields.now) }
{
    let mut at = 1;
    for &octet in fields {
        at = put_encoded(room, at, octet);
    }
    at
}

// The form of octets: a flag, the octets as they are encoded, a flag, and zeros behind it. Its length comes back.
fn put_form(room: &mut [u8], fields: &[u8]) -> usize
    requires { (length fields.now ≤ 77) × (length room.old ≡ form_most) }
    ensures { (result ≡ length (framed (escaped fields.now))) × (result ≤ form_most)
        × (room.new ≡ padded form_most (framed (escaped fields.now))) }
{
    room[0] = eoc::FLAG;
    let end = put_escaped(room, fields);
    room[end] = eoc::FLAG;
    room[end + 1..].fill(0);
    end + 1
}

// A message where all is right.
fn put_message(room: &mut [u8], address: u8, number: u8, contents: &[u8]) -> usize
    requires { (length contents.now ≤ 73) × (length room.old ≡ form_most) }
    ensures { (result ≤ form_most)
        × (result ≡ length (framed (escaped ((address ∷ number ∷ contents.now) ++ sequence_of (address ∷ number ∷ contents.now)))))
        × (room.new
        ≡ padded form_most (framed (escaped ((address ∷ number ∷ contents.now) ++ sequence_of (address ∷ number ∷ contents.now))))) }
{
    let mut fields = [0u8; eoc::FIELDS];
    let n = 2 + contents.len();
    fields[0] = address;
    fields[1] = number;
    fields[2..n].copy_from_slice(contents);
    put_sequence(&mut fields, n);
    put_form(room, &fields[..n + 2])
}

// A message in its one written form, and zeros behind it; the form's length comes back.
pub fn write(
    source: u32,
    destination: u32,
    number: u32,
    contents: &[u8],
    room: &mut [u8],
) -> Result<u32, Refused>
    ensures { MessageWritten source destination number contents.now room.old result room.new }
{
    allowed(source, destination, number, contents, room)?;
    let length = put_message(
        room,
        (source * eoc::ADDRESSES + destination) as u8,
        number as u8,
        contents,
    );
    Ok(length as u32)
}
