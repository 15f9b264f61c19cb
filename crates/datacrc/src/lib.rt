// The six check bits of a data-mode frame (002, clause 7.1.5): those that stand in it, and those that the next frame has to carry. Places count
// from 0, and a block has m or n = 12k bits: place m + 20 is bit 12k + 21.
#![tactic(auto)]

ghost use Rattle.std.specs.Prelude.{◌≡◌, ◌^◌, ◌<◌};
ghost use Rattle.octets.specs.Bits.{bits_of, part};
ghost use Rattle.remainder.specs.Division.{RemainderFrom};
ghost use Rattle.dataframe.specs.Table.{end_width};
ghost use Rattle.dataframe.specs.Forms.{form_number};
ghost use Rattle.dataframe.specs.Frame.{six_generator};
ghost use Rattle.dataframe.specs.Refusals.{is_room};
ghost use Rattle.dataframe.specs.Rooms.{DueIn, carried_by};
ghost use Rattle.datacrc.specs.Promises.{RoomChecked, SixesGiven, CrcGiven};

use answer::Refused;
use dataframe::{Form, Room};

// The six that stand in a frame, and the six that the next frame has to carry. crc1 weighs 32.
#[derive(Clone, Copy)]
pub struct Sixes {
    pub carried: u32,
    pub due: u32,
}

// What is left of the n bits from a place on, behind a start.
fn left(start: u32, frame: &[u8], at: usize, n: u32) -> u32
    requires { start < 2 ^ 6 }
    ensures { RemainderFrom 6 six_generator start (part at n (bits_of frame.now)) result }
{
    remainder::from_start(remainder::SIX, remainder::SIX_DEGREE, start, frame, at, n).unwrap()
}

// The spare bits behind the last payload bit.
fn spare(form: Form) -> u32
    ensures { result ≡ end_width (form_number form) 0 }
{
    match form {
        Form::Synchronous => 2,
        Form::Plesiochronous => 0,
    }
}

// What is left of the covered bits: those between sync, the three pairs of check bits, and the end.
fn due(room: Room<'_>) -> u32
    ensures { DueIn room.entry result }
{
    let n = room.block();
    let m = n as usize;
    let first = left(0, room.octets, 14, n + 6);
    let second = left(first, room.octets, m + 22, n + 8);
    let third = left(second, room.octets, 2 * m + 32, n + 8);
    left(third, room.octets, 3 * m + 42, n + 4 + spare(room.form))
}

// The six that stand in the frame, two behind each of the first three blocks.
fn carried(room: Room<'_>) -> u32
    ensures { result ≡ (carried_by room.entry).crc }
{
    let m = room.block() as usize;
    let first = room.piece(m + 20, 2);
    let second = room.piece(2 * m + 30, 2);
    let third = room.piece(3 * m + 40, 2);
    bitfields::turned(remainder::SIX_DEGREE, first + 4 * (second + 4 * third))
}

// Whether so many octets are the room of a form; of an unknown form, of either.
fn is_room(form: u32, octets: usize) -> bool
    ensures { result ≡ is_room form octets }
{
    match octets {
        dataframe::SYNCHRONOUS_OCTETS => form != dataframe::PLESIOCHRONOUS,
        dataframe::PLESIOCHRONOUS_OCTETS => form != dataframe::SYNCHRONOUS,
        _ => false,
    }
}

// A room whose length, form and size are right.
pub fn room<'a>(form: u32, size: u32, octets: &'a [u8]) -> Result<Room<'a>, Refused>
    ensures { RoomChecked form size octets.entry result }
{
    if !is_room(form, octets.len()) {
        return Err(Refused::Length);
    }
    let form = Form::try_from(form)?;
    if !(dataframe::SMALLEST..=dataframe::LARGEST).contains(&size) {
        return Err(Refused::Range);
    }
    Ok(Room { form, size, octets })
}

// The six that stand in a frame and the six due in the next one. Sync, stuffing bits and the room behind the frame are not looked at.
pub fn sixes_in(room: Room<'_>) -> Sixes
    ensures { SixesGiven room.entry result }
{
    Sixes {
        carried: carried(room),
        due: due(room),
    }
}

// The same, where room, form and size are right.
pub fn crc(form: u32, size: u32, frame: &[u8]) -> Result<Sixes, Refused>
    ensures { CrcGiven form size frame.now result }
{
    let room = room(form, size, frame)?;
    Ok(sixes_in(room))
}
