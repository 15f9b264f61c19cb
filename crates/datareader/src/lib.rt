// Reading a data-mode frame (002, clause 7.1.5, table 7.2). Places count from 0, and a block has m or n = 12k bits: place 2m + 26 is bit 24k + 27.
#![tactic(auto)]

ghost use Rattle.std.specs.Prelude.{◌≡◌, length};
ghost use Rattle.dataframe.specs.Table.{payload_length};
ghost use Rattle.dataframe.specs.Rooms.{carried_by, payload_at};
ghost use Rattle.datareader.specs.Promises.{DataRead};

use answer::Refused;
use dataframe::{Form, Overhead, Room};

// losd and sega, ps, segd.
fn indicators_in(room: Room<'_>) -> u32
    ensures { result ≡ (carried_by room.entry).indicators }
{
    let m = room.block() as usize;
    let first = room.piece(14, 2);
    let ps = room.piece(m + 22, 1);
    let segd = room.piece(2 * m + 32, 1);
    first + 4 * (ps + 2 * segd)
}

// sbid1, sbid2, spa1 and spa2 of the synchronous form; the other has none.
fn spare_in(room: Room<'_>) -> u32
    ensures { result ≡ (carried_by room.entry).spare }
{
    match room.form {
        Form::Synchronous => {
            let m = room.block() as usize;
            let first = room.piece(m + 23, 1);
            let second = room.piece(2 * m + 35, 1);
            let end = room.piece(4 * m + 46, 2);
            first + 2 * (second + 2 * end)
        }
        Form::Plesiochronous => 0,
    }
}

// eoc01 to eoc20, in six pieces.
fn eoc_in(room: Room<'_>) -> u32
    ensures { result ≡ (carried_by room.entry).eoc }
{
    let m = room.block() as usize;
    let a = room.piece(m + 16, 4);
    let b = room.piece(m + 24, 2);
    let c = room.piece(2 * m + 26, 4);
    let d = room.piece(2 * m + 33, 2);
    let e = room.piece(3 * m + 36, 4);
    let f = room.piece(3 * m + 42, 4);
    a + 16 * (b + 4 * (c + 16 * (d + 4 * (e + 16 * f))))
}

// The four payload blocks.
fn take_payload(payload: &mut [u8], room: Room<'_>)
    requires { length payload.old ≡ payload_length room.size }
    ensures { payload.new ≡ payload_at room.entry }
{
    let n = room.block();
    let m = n as usize;
    octets::copy(payload, 0, room.octets, 16, n);
    octets::copy(payload, m, room.octets, m + 26, n);
    octets::copy(payload, 2 * m, room.octets, 2 * m + 36, n);
    octets::copy(payload, 3 * m, room.octets, 3 * m + 46, n);
}

// A data-mode frame, whose check bits stand in the next frame: its payload, and what it carries beside.
pub fn read(
    form: u32,
    size: u32,
    sync: u32,
    next: u32,
    frame: &[u8],
    payload: &mut [u8],
) -> Result<Overhead, Refused>
    ensures { DataRead form size sync next frame.now payload.old result payload.new }
{
    if payload.len() != dataframe::PAYLOAD_OCTETS * (size as usize) {
        return Err(Refused::Length);
    }
    let found = datachecker::judge(form, size, sync, next, frame)?;
    let room = Room {
        form: Form::try_from(form).unwrap(),
        size,
        octets: frame,
    };
    take_payload(payload, room);
    Ok(Overhead {
        indicators: indicators_in(room),
        eoc: eoc_in(room),
        spare: spare_in(room),
        stuffing: found.stuffing,
        crc: found.crc,
    })
}
