// The text of operations channel messages for the bench: a line for each (specs/Line.antt), put into a lent room.
#![tactic(auto)]

ghost use Rattle.std.specs.Prelude.{◌≡◌, ◌++◌, ◌-◌, ◌≤◌, length};
ghost use Rattle.answer.specs.Given.{number_of};
ghost use Rattle.forms.specs.Forms.{row_of};
ghost use Rattle.ascii.specs.Promises.{Puts};
ghost use Rattle.eoclisting.specs.Names.{units, source_row, request_row, response_row, name_row, name_of};
ghost use Rattle.eoclisting.specs.Contents.{hex_part, short_part, margin_text, margins_text, status_part, string_length, string_text};
ghost use Rattle.eoclisting.specs.Contents.{software_text, vendor_text, inventory_part, contents_text};
ghost use Rattle.eoclisting.specs.Line.{way_text, message_line, reason_row, refused_line};
ghost use Rattle.eoclisting.specs.Promises.{Lined};
ghost use Rattle.eoclisting.specs.Totals.{left_text, count_text, taken_text, Totalled};

use answer::Refused;
use ascii::Text;
use eocreader::Found;

// What becomes of a message: to whom it goes, or why it is refused; and how many octets its line has.
#[derive(Drop)]
pub struct Listed {
    pub destination: Result<u32, Refused>,
    pub length: usize,
}

// What is counted: octets before the first flag and behind the last, messages, those of them that are good, a unit's own address, and how many
// messages it takes. An address over 15 is no unit's.
#[derive(Drop)]
pub struct Counts {
    pub before: u32,
    pub behind: u32,
    pub messages: u32,
    pub good: u32,
    pub own: u32,
    pub taken: u32,
}

// The message numbers whose contents are told in words, and how many octets those of an inventory have at least.
const INVENTORY: u32 = 130;

const STATUS: u32 = 139;

const INVENTORY_OCTETS: usize = 67;

// The octet that ends a string before its field's end.
const END: u8 = 0;

// A margin that is not available.
const NO_MARGIN: u8 = 127;

// The rows of no unit: 15 and 0 as a source.
const FIFTEEN: u32 = 16;

const ZERO: u32 = 17;

// An address from here on is no unit's.
const UNITS: u32 = eoc::ADDRESSES;

// ---- names

// A unit by its row: by its address, as a destination.
fn put_unit(text: &mut Text<'_>, row: u32)
    ensures { Puts text.old (row_of units row) text.new }
{
    text.word(forms::row(
        b"adjacent unit\nLTU\nNTU\nregenerator 1\nregenerator 2\nregenerator 3\nregenerator 4\nregenerator 5\nregenerator 6\n\
          regenerator 7\nregenerator 8\naddress 11\naddress 12\naddress 13\naddress 14\nall\naddress 15\naddress 0\n",
        row,
    ));
}

// The row of a source.
fn source_row(address: u32) -> u32
    ensures { result ≡ source_row address }
{
    match address {
        eoc::EVERY_UNIT => FIFTEEN,
        eoc::ADJACENT => ZERO,
        _ => address,
    }
}

// From whom to whom.
fn put_way(text: &mut Text<'_>, source: u32, destination: u32)
    ensures { Puts text.old (way_text source destination) text.new }
{
    put_unit(text, source_row(source));
    text.word(b" to ");
    put_unit(text, destination);
}

// The row of a request.
fn request_row(number: u32) -> u32
    ensures { result ≡ request_row number }
{
    match number {
        0..=22 => number,
        23..=63 => 23,
        64..=88 => 24,
        89..=111 => 25,
        112..=119 => 26,
        120..=121 => number - 93,
        122..=124 => 25,
        _ => 29,
    }
}

// The row of a response.
fn response_row(number: u32) -> u32
    requires { 128 ≤ number }
    ensures { result ≡ response_row number }
{
    match number {
        0..=150 => number - 98,
        151..=191 => 23,
        192..=216 => 53,
        217..=239 => 23,
        240..=247 => 54,
        248..=252 => 25,
        253.. => 29,
    }
}

// The row of a message number.
fn name_row(number: u32) -> u32
    ensures { result ≡ name_row number }
{
    if number < 128 {
        request_row(number)
    } else {
        response_row(number)
    }
}

// The name of a message.
fn put_name(text: &mut Text<'_>, number: u32)
    ensures { Puts text.old (name_of number) text.new }
{
    text.word(forms::row(
        b"Reserved\nDiscovery Probe\nInventory Request\nConfiguration Request - SDSL\nReserved for Application Interface Configuration\n\
          Configuration Request - Loopback Time-Out\nVirtual Terminal Connect Request\nVirtual Terminal Disconnect Request\n\
          Keyboard Data Message\nMaintenance Request - System Loopback\nMaintenance Request - Element Loopback\nStatus Request\n\
          Full Status Request\nReserved\nReserved\nSoft Restart/Power back-off Disable Request\nReserved (Future)\nATM Cell Status Request\n\
          NTU Configuration Request - Management\nReserved for Voice Transport Request (Future)\nISDN Request\n\
          LAPV5 POTS and ISDN setup Request\nDeactivation request\n\
          Reserved (Future)\nReserved for Line Management Request\nReserved\nProprietary Message\nExternal Message\nG.997.1 Message\nExcluded\n\
          Reserved\nDiscovery Response\nInventory Response\nConfiguration Response - SDSL\n\
          Reserved for Application Interface Configuration\nConfiguration Response - Loopback Time-Out\n\
          Virtual Terminal Connect Response\nReserved\nScreen Data Message\nMaintenance Status\nReserved\nStatus/SNR\n\
          Performance Status SDSL Network Side\nPerformance Status SDSL Customer Side\nReserved for Application Interface Performance\n\
          Reserved (Future)\nGeneric Unable to Comply (UTC)\nATM Cell Status Information\nConfiguration Response - Management\n\
          Reserved for Voice Transport Response (Future)\nISDN Response\nLAPV5 POTS and ISDN setup Response\nDeactivation Acknowledge\n\
          Segment Management Response (reserved)\nProprietary Message Response\n",
        name_row(number),
    ));
}

// ---- contents

// Contents in hex, where there are some.
fn put_hex(text: &mut Text<'_>, contents: &[u8])
    ensures { Puts text.old (hex_part contents.now) text.new }
{
    if !contents.is_empty() {
        text.word(b": ");
        text.hexes(contents);
    }
}

// Contents with fewer octets than the table has.
fn put_short(text: &mut Text<'_>, contents: &[u8])
    ensures { Puts text.old (short_part contents.now) text.new }
{
    text.word(b": contents are short");
    put_hex(text, contents);
}

// A margin.
fn put_margin(text: &mut Text<'_>, margin: u8)
    ensures { Puts text.old (margin_text margin) text.new }
{
    match margin {
        NO_MARGIN => text.word(b"not available"),
        0..=126 => forms::form(text, b"# dB", &[u32::from(margin)]),
        _ => forms::form(text, b"-# dB", &[256 - u32::from(margin)]),
    }
}

// A status.
fn put_margins(text: &mut Text<'_>, network: u8, customer: u8, loops: u8)
    ensures { Puts text.old (margins_text network customer loops) text.new }
{
    text.word(b": network side ");
    put_margin(text, network);
    text.word(b", customer side ");
    put_margin(text, customer);
    forms::form(text, b", loop #", &[u32::from(loops)]);
}

// The contents of a status.
fn put_status(text: &mut Text<'_>, contents: &[u8])
    ensures { Puts text.old (status_part contents.now) text.new }
{
    match contents {
        &[network, customer, loops, ..] => put_margins(text, network, customer, loops),
        _ => put_short(text, contents),
    }
}

// How long a string is.
fn string_length(field: &[u8]) -> usize
    ensures { result ≡ string_length field.now }
{
    let mut last = 0;
    for (k, &octet) in field.iter().enumerate() {
        if octet == END {
            return last;
        }
        if octet != b' ' {
            last = k + 1;
        }
    }
    last
}

// A string in quotes; where an octet of it cannot be printed, its field in hex.
fn put_string(text: &mut Text<'_>, field: &[u8])
    ensures { Puts text.old (string_text field.now) text.new }
{
    let string = &field[..string_length(field)];
    if ascii::text_length(string) == string.len() {
        text.put(b'"');
        text.word(string);
        text.put(b'"');
    } else {
        text.hexes(field);
    }
}

// A string of an inventory, behind what it is.
fn put_field(text: &mut Text<'_>, label: &[u8], field: &[u8])
    ensures { Puts text.old (label.now ++ string_text field.now) text.new }
{
    text.word(label);
    put_string(text, field);
}

// An inventory up to the software's version.
fn put_software(text: &mut Text<'_>, contents: &[u8])
    requires { 67 ≤ length contents.now }
    ensures { Puts text.old (software_text contents.now) text.new }
{
    forms::form(text, b": SDSL version #", &[u32::from(contents[0])]);
    put_field(text, b", list ", &contents[1..4]);
    put_field(text, b", issue ", &contents[4..6]);
    put_field(text, b", software ", &contents[6..12]);
}

// An inventory from the vendor ID on.
fn put_vendor(text: &mut Text<'_>, contents: &[u8])
    requires { 67 ≤ length contents.now }
    ensures { Puts text.old (vendor_text contents.now) text.new }
{
    text.word(b", vendor ID ");
    text.hexes(&contents[23..31]);
    put_field(text, b", model ", &contents[31..43]);
    put_field(text, b", serial ", &contents[43..55]);
    put_field(text, b", other ", &contents[55..67]);
}

// The contents of an inventory.
fn put_inventory(text: &mut Text<'_>, contents: &[u8])
    ensures { Puts text.old (inventory_part contents.now) text.new }
{
    if contents.len() < INVENTORY_OCTETS {
        put_short(text, contents);
    } else {
        put_software(text, contents);
        put_field(text, b", unit ", &contents[12..22]);
        put_vendor(text, contents);
    }
}

// The contents of a message.
fn put_contents(text: &mut Text<'_>, number: u32, contents: &[u8])
    ensures { Puts text.old (contents_text number contents.now) text.new }
{
    match number {
        STATUS => put_status(text, contents),
        INVENTORY => put_inventory(text, contents),
        _ => put_hex(text, contents),
    }
}

// ---- lines

// The line of a message.
fn put_message(text: &mut Text<'_>, n: u32, found: Found, contents: &[u8])
    ensures { Puts text.old (message_line n (record {
      source = found.source;
      destination = found.destination;
      number = found.number;
      contents = contents.now;
    })) text.new }
{
    let number = u32::from(found.number);
    forms::form(text, b"# ", &[n]);
    put_way(text, u32::from(found.source), u32::from(found.destination));
    forms::form(text, b": # ", &[number]);
    put_name(text, number);
    put_contents(text, number, contents);
    text.put(b'\n');
}

// The row of a refusal.
fn reason_row(no: Refused) -> u32
    ensures { result ≡ reason_row (number_of no) }
{
    match no {
        Refused::Flag => 1,
        Refused::Escape => 2,
        Refused::Size => 3,
        _ => 0,
    }
}

// The line of a message that is refused.
fn put_refused(text: &mut Text<'_>, n: u32, no: Refused)
    ensures { Puts text.old (refused_line n (number_of no)) text.new }
{
    forms::form(text, b"# refused #: ", &[n, no.number()]);
    text.word(forms::row(
        b"the check bits differ\na flag is missing or stands inside the message\nan escape other than 7D 5E and 7D 5D\n\
          the message is too long or too short\n",
        reason_row(no),
    ));
    text.put(b'\n');
}

// The line of message number n of the channel, which came as these octets.
pub fn line(n: u32, octets: &[u8], room: &mut [u8]) -> Listed
    ensures { Lined n octets.now room.old result room.new }
{
    let mut text = Text { room, at: 0 };
    let mut contents = [0u8; eoc::CONTENTS];
    let destination = match eocreader::read(octets, &mut contents) {
        Ok(found) => {
            put_message(&mut text, n, found, &contents[..usize::from(found.length)]);
            Ok(u32::from(found.destination))
        },
        Err(no) => {
            put_refused(&mut text, n, no);
            Err(no)
        },
    };
    Listed {
        destination,
        length: text.at,
    }
}

// ---- totals

// What was left out.
fn put_left(text: &mut Text<'_>, before: u32, behind: u32)
    ensures { Puts text.old (left_text before behind) text.new }
{
    match (before, behind) {
        (0, 0) => {},
        _ => forms::form(
            text,
            b"left out: octets before the first flag: #, behind the last: #\n",
            &[before, behind],
        ),
    }
}

// How many messages there are.
fn put_count(text: &mut Text<'_>, n: u32, good: u32)
    ensures { Puts text.old (count_text n good) text.new }
{
    let numbers = [n, good, n.saturating_sub(good)];
    if n == 1 {
        forms::form(text, b"# message: # good, # refused", &numbers);
    } else {
        forms::form(text, b"# messages: # good, # refused", &numbers);
    }
}

// How many of them a unit takes.
fn put_taken(text: &mut Text<'_>, own: u32, taken: u32)
    ensures { Puts text.old (taken_text own taken) text.new }
{
    if own < UNITS {
        text.word(b"; ");
        put_unit(text, own);
        forms::form(text, b" takes #", &[taken]);
    }
}

// The totals, and how much of the room they take.
pub fn totals(counts: Counts, room: &mut [u8]) -> usize
    ensures { Totalled counts room.old result room.new }
{
    let mut text = Text { room, at: 0 };
    put_left(&mut text, counts.before, counts.behind);
    put_count(&mut text, counts.messages, counts.good);
    put_taken(&mut text, counts.own, counts.taken);
    text.put(b'\n');
    text.at
}
