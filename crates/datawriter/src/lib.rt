// Writing a data-mode frame (002, clause 7.1.5, table 7.2). Places count from 0, and a block has m or n = 12k bits: place 2m + 26 is bit 24k + 27.
#![tactic(auto)]

ghost use Rattle.std.specs.Prelude.{◌≡◌, true, ◌++◌, ◌+◌, ◌*◌, ◌≤◌, length};
ghost use Rattle.answer.specs.Answer.{answer};
ghost use Rattle.answer.specs.Given.{answer_of};
ghost use Rattle.octets.specs.Bits.{digits_of, bits_of, octets_of, part, laid};
ghost use Rattle.dataframe.specs.Table.{payload_length, room_of};
ghost use Rattle.dataframe.specs.Forms.{form_number};
ghost use Rattle.dataframe.specs.Frame.{data_octets};
ghost use Rattle.dataframe.specs.Refusals.{is_stuffing, end_refusals, value_refusals};
ghost use Rattle.datawriter.specs.Laying.{MarksOf, RowsOf, laid_frame};
ghost use Rattle.datawriter.specs.Promises.{DataWritten};

use answer::Refused;
use dataframe::{Form, Overhead, Room};

// sbid1 and sbid2 in the lowest digit, and what stands behind the last payload bit: so many digits.
#[derive(Drop)]
pub struct Marks {
    pub first: u32,
    pub second: u32,
    pub end: u32,
    pub ends: u32,
}

// The bits between the payload blocks, each run as one number: before the first block, behind it, behind the second, behind the third, and
// behind the last.
#[derive(Drop)]
pub struct Rows {
    pub head: u32,
    pub first: u32,
    pub second: u32,
    pub third: u32,
    pub end: u32,
    pub ends: u32,
}

// Spare bits of the synchronous form; of the plesiochronous form, stuffing bits and what announces them.
fn marks_of(form: Form, spare: u32, stuffing: u32) -> Marks
    requires { is_stuffing (form_number form) stuffing ≡ true }
    ensures { MarksOf (form_number form) spare stuffing result }
{
    match form {
        Form::Synchronous => Marks {
            first: spare,
            second: spare / 2,
            end: spare / 4,
            ends: 2,
        },
        Form::Plesiochronous => Marks {
            first: stuffing / 4,
            second: stuffing / 4,
            end: dataframe::ONES,
            ends: stuffing,
        },
    }
}

// Sync, losd and sega.
fn head(sync: u32, indicators: u32) -> u32
    ensures { digits_of 16 result ≡ digits_of 14 sync ++ digits_of 2 indicators }
{
    sync % dataframe::SYNCS + dataframe::SYNCS * (indicators % 4)
}

// Ten overhead bits: four of eoc, two check bits, and four more.
fn row(eoc: u32, crc: u32, last: u32) -> u32
    ensures { digits_of 10 result ≡ digits_of 4 eoc ++ (digits_of 2 crc ++ digits_of 4 last) }
{
    eoc % 16 + 16 * (crc % 4 + 4 * (last % 16))
}

// The four of the first row: ps, sbid1, eoc05 and eoc06.
fn first_last(ps: u32, mark: u32, eoc: u32) -> u32
    ensures { digits_of 4 result ≡ digits_of 1 ps ++ (digits_of 1 mark ++ digits_of 2 eoc) }
{
    ps % 2 + 2 * (mark % 2 + 2 * (eoc % 4))
}

// The four of the second row: segd, eoc11, eoc12 and sbid2.
fn second_last(segd: u32, eoc: u32, mark: u32) -> u32
    ensures { digits_of 4 result ≡ digits_of 1 segd ++ (digits_of 2 eoc ++ digits_of 1 mark) }
{
    segd % 2 + 2 * (eoc % 4 + 4 * (mark % 2))
}

// All bits but payload.
fn rows_of(sync: u32, overhead: Overhead, marks: Marks) -> Rows
    ensures { RowsOf sync overhead marks result }
{
    let indicators = overhead.indicators;
    let eoc = overhead.eoc;
    let crc = bitfields::turned(6, overhead.crc);
    Rows {
        head: head(sync, indicators),
        first: row(eoc, crc, first_last(indicators / 4, marks.first, eoc / 16)),
        second: row(
            eoc / 64,
            crc / 4,
            second_last(indicators / 8, eoc / 1024, marks.second),
        ),
        third: row(eoc / 4096, crc / 16, eoc / 65536),
        end: marks.end,
        ends: marks.ends,
    }
}

// A run of w overhead bits, and the n bits of payload behind it that stand from place `from` on.
fn put_run(frame: &mut [u8], at: usize, w: u32, run: u32, payload: &[u8], from: usize, n: u32)
    requires { (at ≤ 20000) × (w ≤ 16) }
    ensures { frame.new ≡ laid frame.old at (digits_of w run ++ part from n (bits_of payload.now)) }
{
    bitfields::put_field(frame, at, w, run);
    octets::copy(frame, at + (w as usize), payload, from, n);
}

// All rows, the four payload blocks of n bits between them, and so many zeros behind.
fn put(frame: &mut [u8], rows: Rows, payload: &[u8], n: u32, rest: u32)
    requires { (n ≤ 3468) × (4 * n ≤ 8 * length payload.now) × (rows.ends ≤ 4) × (4 * n + 46 + rows.ends + rest ≡ 8 * length frame.old) }
    ensures { frame.new ≡ octets_of (length frame.old) (laid_frame rows n rest (bits_of payload.now)) }
{
    let m = n as usize;
    let ends = rows.ends;
    put_run(frame, 0, 16, rows.head, payload, 0, n);
    put_run(frame, m + 16, 10, rows.first, payload, m, n);
    put_run(frame, 2 * m + 26, 10, rows.second, payload, 2 * m, n);
    put_run(frame, 3 * m + 36, 10, rows.third, payload, 3 * m, n);
    bitfields::put_field(frame, 4 * m + 46, ends, rows.end);
    octets::clear(frame, 4 * m + 46 + (ends as usize), rest);
}

// Whether spare and stuffing may be so.
fn end_allowed(form: Form, spare: u32, stuffing: u32) -> Result<(), Refused>
    ensures { answer_of result ≡ answer (end_refusals (form_number form) spare stuffing) }
{
    match (form, stuffing) {
        (Form::Synchronous, _) if dataframe::FOURS <= spare => Err(Refused::Range),
        (_, 0) | (Form::Plesiochronous, dataframe::STUFFING) => Ok(()),
        _ => Err(Refused::Stuffing),
    }
}

// Whether the numbers that are to stand in a frame may.
fn allowed(form: Form, sync: u32, overhead: Overhead) -> Result<(), Refused>
    ensures { answer_of result ≡ answer (value_refusals (form_number form) sync overhead) }
{
    if dataframe::SYNCS <= sync
        || dataframe::FOURS <= overhead.indicators
        || dataframe::EOCS <= overhead.eoc
        || dataframe::CRCS <= overhead.crc
    {
        return Err(Refused::Range);
    }
    end_allowed(form, overhead.spare, overhead.stuffing)
}

// A frame, and zeros behind it, where all is right.
fn put_frame(form: Form, size: u32, sync: u32, overhead: Overhead, payload: &[u8], frame: &mut [u8])
    requires { (size ≤ 289) × (is_stuffing (form_number form) overhead.stuffing ≡ true) × (length payload.now ≡ payload_length size)
        × (length frame.old ≡ room_of (form_number form)) }
    ensures { frame.new ≡ data_octets (form_number form) size sync overhead payload.now }
{
    let marks = marks_of(form, overhead.spare, overhead.stuffing);
    let ends = marks.ends;
    let n = dataframe::SUB_BLOCKS * size;
    let rest = (8 * frame.len()) as u32 - (4 * n + 46 + ends);
    put(frame, rows_of(sync, overhead, marks), payload, n, rest);
}

// A data-mode frame. Its check bits are those that the caller has of the frame before; what it gives are its own, which go into the next.
pub fn write(
    form: u32,
    size: u32,
    sync: u32,
    overhead: Overhead,
    payload: &[u8],
    frame: &mut [u8],
) -> Result<u32, Refused>
    ensures { DataWritten form size sync overhead payload.now frame.old result frame.new }
{
    if payload.len() != dataframe::PAYLOAD_OCTETS * (size as usize) {
        return Err(Refused::Length);
    }
    let form = datacrc::room(form, size, frame)?.form;
    allowed(form, sync, overhead)?;
    put_frame(form, size, sync, overhead, payload, frame);
    let room = Room {
        form,
        size,
        octets: frame,
    };
    let six = datacrc::sixes_in(room);
    Ok(six.due)
}
