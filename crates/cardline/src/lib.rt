// Sorting cards: the text of a card's line (specs/Line.antt), by what its frame is found to be (crate card).
#![tactic(auto)]

ghost use Rattle.std.specs.Prelude.{◌≡◌, cond, eqb};
ghost use Rattle.ascii.specs.Promises.{Puts};
ghost use Rattle.card.specs.Ranks.{final_frame, good};
ghost use Rattle.cardline.specs.Words.{short_words, length_words, verdict_words};
ghost use Rattle.cardline.specs.Line.{shown_octet, shown, vendor_text, vendor_cells};
ghost use Rattle.cardline.specs.Line.{heading, training_cells, final_cells, cells, like_cell, findings, csv_octet, csv_octets, reference_name};
ghost use Rattle.cardline.specs.Promises.{Headed, Lined, Separated, Referred};

use answer::Refused;
use ascii::Text;
use card::Verdict;

// A frame's octets.
const FRAME: u32 = layout::FRAME_OCTETS as u32;

// A file with fewer octets than a frame has.
#[tactic(auto, unfolding(crate::specs::Words::short_words))]
fn put_short(text: &mut Text<'_>, n: u32)
    ensures { Puts text.old (short_words n) text.new }
{
    if n == 1 {
        forms::form(
            text,
            b"refused 1: the file has 1 octet, a frame has #",
            &[FRAME],
        );
    } else {
        forms::form(
            text,
            b"refused 1: the file has # octets, a frame has #",
            &[n, FRAME],
        );
    }
}

// A file that is not as long as a frame.
#[tactic(auto, unfolding(crate::specs::Words::length_words))]
fn put_length(text: &mut Text<'_>, n: u32)
    ensures { Puts text.old (length_words n) text.new }
{
    if FRAME < n {
        forms::form(
            text,
            b"refused 1: the file has more than # octets",
            &[FRAME],
        );
    } else {
        put_short(text, n);
    }
}

// The verdict on a card.
#[tactic(auto, unfolding(crate::specs::Words::verdict_words))]
fn put_verdict(text: &mut Text<'_>, rank: u32, octets: u32)
    ensures { Puts text.old (verdict_words rank octets) text.new }
{
    if rank == Refused::Length.number() {
        put_length(text, octets);
    } else {
        card::put_name(text, rank);
    }
}

// An octet of a file's name as it is printed.
fn shown_octet(o: u8) -> u8
    ensures { result ≡ shown_octet o }
{
    if o < b' ' || o == 127 { b'?' } else { o }
}

// A file's name.
fn put_shown(text: &mut Text<'_>, name: &[u8])
    ensures { Puts text.old (shown name.now) text.new }
{
    for &octet in name {
        text.put(shown_octet(octet));
    }
}

// Vendor data as text.
fn put_text(text: &mut Text<'_>, vendor: &[u8])
    ensures { Puts text.old (vendor_text vendor.now) text.new }
{
    let n = ascii::text_length(vendor);
    if n == 0 {
        text.word(b"-");
    } else {
        text.word(&vendor[..n]);
    }
}

// Vendor data in hex and as text.
fn put_vendor(text: &mut Text<'_>, vendor: &[u8])
    ensures { Puts text.old (vendor_cells vendor.now) text.new }
{
    text.hexes(vendor);
    text.put(b'\t');
    put_text(text, vendor);
}

// The cells of a training frame that reads.
fn put_training(text: &mut Text<'_>, used: u32, a: u32, b: u32, vendor: &[u8])
    ensures { Puts text.old (training_cells used a b vendor.now) text.new }
{
    forms::form(text, b"\ttraining\t#\t#\t#\t", &[used, a, b]);
    put_vendor(text, vendor);
}

// The cells of a final frame that reads.
fn put_final(text: &mut Text<'_>, vendor: &[u8])
    ensures { Puts text.old (final_cells vendor.now) text.new }
{
    text.word(b"\tfinal\t-\t-\t-\t");
    put_vendor(text, vendor);
}

// The cells of a card.
fn put_cells(text: &mut Text<'_>, v: Verdict)
    ensures { Puts text.old (cells v.answer v) text.new }
{
    // Stays: the answer and the kind as numbers, since `line` and `cells` take a verdict with any, and a kind other than 0 is told as a final frame.
    if v.answer != 0 {
        text.word(b"\t-\t-\t-\t-\t-\t-");
    } else if v.kind == layout::TRAINING {
        put_training(text, v.used, v.a, v.b, &v.vendor);
    } else {
        put_final(text, &v.vendor);
    }
}

// How a word compares with the customer's.
fn put_like(text: &mut Text<'_>, n: u32)
    ensures { Puts text.old (like_cell n) text.new }
{
    text.word(forms::row(b"\n\tsame\n\tTURNED\n\tother\n\t-\n", n));
}

// The verdict and what to do.
fn put_findings(text: &mut Text<'_>, rank: u32, octets: u32)
    ensures { Puts text.old (findings rank octets) text.new }
{
    text.put(b'\t');
    put_verdict(text, rank, octets);
    text.put(b'\t');
    card::put_todo(text, rank);
}

// What each cell is.
fn put_heading(text: &mut Text<'_>, given: bool)
    ensures { Puts text.old (heading given) text.new }
{
    text.word(b"file\tverdict\twhat to do\tkind\tcoefficients\tA\tB\tvendor\tvendor text");
    if given {
        text.word(b"\tA like\tB like\n");
    } else {
        text.word(b"\n");
    }
}

// The line above the cards' lines.
pub fn header(given: bool, room: &mut [u8]) -> usize
    ensures { Headed given room.old result room.new }
{
    let mut text = Text { room, at: 0 };
    put_heading(&mut text, given);
    text.at
}

// The line of the card whose frame stands in the file of this name.
pub fn line(name: &[u8], v: Verdict, room: &mut [u8]) -> usize
    ensures { Lined name.now v room.old result room.new }
{
    let mut text = Text { room, at: 0 };
    put_shown(&mut text, name);
    put_findings(&mut text, v.rank, v.octets);
    put_cells(&mut text, v);
    put_like(&mut text, v.alike);
    put_like(&mut text, v.blike);
    text.put(b'\n');
    text.at
}

// An octet of a line in comma-separated form.
fn put_csv(text: &mut Text<'_>, octet: u8)
    ensures { Puts text.old (csv_octet octet) text.new }
{
    match octet {
        b'\t' => text.word(b"\",\""),
        b'\n' => text.word(b"\"\r\n"),
        b'"' => text.word(b"\"\""),
        _ => text.put(octet),
    }
}

// Octets of a line in comma-separated form.
fn put_csvs(text: &mut Text<'_>, line: &[u8])
    ensures { Puts text.old (csv_octets line.now) text.new }
{
    for &octet in line {
        put_csv(text, octet);
    }
}

// A line in comma-separated form.
pub fn csv(line: &[u8], room: &mut [u8]) -> usize
    ensures { Separated line.now room.old result room.new }
{
    let mut text = Text { room, at: 0 };
    text.put(b'"');
    put_csvs(&mut text, line);
    text.at
}

// The verdict to tell of a reference that does not serve.
fn unfit(rank: u32) -> u32
    ensures { result ≡ cond (eqb rank good) final_frame rank }
{
    if rank == card::GOOD {
        card::FINAL_FRAME
    } else {
        rank
    }
}

// Which reference it is.
fn put_reference(text: &mut Text<'_>, name: &[u8])
    ensures { Puts text.old (reference_name name.now) text.new }
{
    text.word(b"sorter: the reference ");
    put_shown(text, name);
    text.word(b": ");
}

// What a reference frame that does not serve is found to be.
pub fn reference(name: &[u8], v: Verdict, room: &mut [u8]) -> usize
    ensures { Referred name.now v room.old result room.new }
{
    let mut text = Text { room, at: 0 };
    put_reference(&mut text, name);
    put_verdict(&mut text, unfit(v.rank), v.octets);
    text.word(b"; a training frame that reads is wanted\n");
    text.at
}
