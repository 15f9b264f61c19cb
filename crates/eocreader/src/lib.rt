// Reading an operations channel message (002, clauses 10.5.5.2 to 10.5.5.4).
#![tactic(auto)]

ghost use Rattle.std.specs.Prelude.{◌≡◌, false, cond, ◌||◌, ◌-◌, ◌<◌, ◌≤◌, min, eqb, length, get_or, take, drop};
ghost use Rattle.octets.specs.Bits.{part};
ghost use Rattle.eoc.specs.Message.{flag, escape, flag_mark, escape_mark, contents_most, padded};
ghost use Rattle.eoc.specs.Reading.{between, is_between_flags, other_escape, unescaped, is_checked, body_in};
ghost use Rattle.eocreader.specs.Promises.{MessageRead};
ghost use Rattle.eocreader.specs.Judging.{Judges};

use answer::Refused;

// Addresses, of which an octet holds two.
const ADDRESSES: u8 = eoc::ADDRESSES as u8;

// What reading gives: the addresses, the message number, and how many octets the contents have.
#[derive(Clone, Copy)]
pub struct Found {
    pub source: u8,
    pub destination: u8,
    pub number: u8,
    pub length: u8,
}

// Whether a flag stands at either end, and none between.
fn is_framed(s: &[u8]) -> bool
    ensures { result ≡ is_between_flags s.now }
{
    match s {
        [eoc::FLAG, between @ .., eoc::FLAG] => !between.contains(&eoc::FLAG),
        _ => false,
    }
}

// Whether an octet ends an escape.
fn ends_escape(octet: u8) -> bool
    ensures { result ≡ (eqb octet flag_mark || eqb octet escape_mark) }
{
    octet == eoc::FLAG_MARK || octet == eoc::ESCAPE_MARK
}

// Whether an escape other than the two stands between the flags. An escape right before the closing flag is one. The loop goes to its end, so the
// compiler takes many octets at once.
fn other_escape(s: &[u8]) -> bool
    requires { (2 ≤ length s.now) × (get_or s.now (length s.now - 1) 0 ≡ flag) }
    ensures { result ≡ other_escape (between s.now) }
{
    let mut other = false;
    for pair in s[1..].windows(2) {
        other |= (pair[0] == eoc::ESCAPE) & !ends_escape(pair[1]);
    }
    other
}

// What an escape and the octet behind it stand for.
fn meant(octet: u8) -> u8
    ensures { result ≡ cond (eqb octet flag_mark) flag escape }
{
    match octet {
        eoc::FLAG_MARK => eoc::FLAG,
        _ => eoc::ESCAPE,
    }
}

// Octets without escapes, at the front; how many they are comes back, or 78 where they are more than 77.
fn unescape(octets: &[u8], fields: &mut [u8]) -> usize
    requires { (length fields.old ≡ 77) × (other_escape octets.now ≡ false) }
    ensures { (result ≡ min (length (unescaped octets.now)) 78) × (result ≤ 77 → take result fields.new ≡ unescaped octets.now) }
{
    let mut at = 0;
    let mut behind = false;
    for &octet in octets {
        if octet == eoc::ESCAPE {
            behind = true;
        } else {
            if at == eoc::FIELDS {
                return eoc::FIELDS + 1;
            }
            fields[at] = if behind { meant(octet) } else { octet };
            behind = false;
            at += 1;
        }
    }
    at
}

// Whether the last two octets are the check sequence of those before.
fn is_checked(fields: &[u8]) -> bool
    requires { (4 ≤ length fields.now) × (length fields.now ≤ 77) }
    ensures { result ≡ is_checked fields.now }
{
    let n = fields.len();
    let c = fcs::sequence(fields, (n - 2) as u16);
    u32::from(fields[n - 2]) == c % 256 && u32::from(fields[n - 1]) == c / 256
}

// What is wrong with a message; where nothing is, the octets between its flags, without escapes, stand at the front, and how many they are comes back.
fn judge(s: &[u8], fields: &mut [u8]) -> Result<usize, Refused>
    requires { length fields.old ≡ 77 }
    ensures { Judges s.now result fields.new }
{
    if !is_framed(s) {
        return Err(Refused::Flag);
    }
    if other_escape(s) {
        return Err(Refused::Escape);
    }
    let n = unescape(&s[1..s.len() - 1], fields);
    if n < 4 || eoc::FIELDS < n {
        return Err(Refused::Size);
    }
    if !is_checked(&fields[..n]) {
        return Err(Refused::Check);
    }
    Ok(n)
}

// The contents of a message of these octets, and zeros behind them.
fn take_contents(contents: &mut [u8], fields: &[u8])
    requires { (length contents.old ≡ contents_most) × (4 ≤ length fields.now) × (length fields.now ≤ 77) }
    ensures { contents.new ≡ padded contents_most (drop 2 (body_in fields.now)) }
{
    let n = fields.len();
    contents[..n - 4].copy_from_slice(&fields[2..n - 2]);
    contents[n - 4..].fill(0);
}

// A message: its numbers, and into lent memory its contents.
pub fn read(octets: &[u8], contents: &mut [u8]) -> Result<Found, Refused>
    ensures { MessageRead octets.now contents.old result contents.new }
{
    if contents.len() != eoc::CONTENTS {
        return Err(Refused::Length);
    }
    let mut fields = [0u8; eoc::FIELDS];
    let n = judge(octets, &mut fields)?;
    take_contents(contents, &fields[..n]);
    let address = fields[0];
    Ok(Found {
        source: address / ADDRESSES,
        destination: address % ADDRESSES,
        number: fields[1],
        length: (n - 4) as u8,
    })
}
