// Checking a data-mode frame (002, clause 7.1.5). Places count from 0, and a block has m = 12k bits: place 2m + 35 is bit 24k + 36.
#![tactic(auto)]

ghost use Rattle.std.specs.Prelude.{◌≡◌, ◌≤◌, eqb};
ghost use Rattle.answer.specs.Given.{answer_of};
ghost use Rattle.octets.specs.Bits.{value_of};
ghost use Rattle.dataframe.specs.Table.{unused, line_bits};
ghost use Rattle.dataframe.specs.Frame.{behind, due_of};
ghost use Rattle.dataframe.specs.Refusals.{stuffing_right};
ghost use Rattle.dataframe.specs.Rooms.{form_in, bits_in, carried_by};
ghost use Rattle.datachecker.specs.Judging.{StuffingGiven};
ghost use Rattle.datachecker.specs.Promises.{DataChecked, VerdictGiven};

use answer::Refused;
use dataframe::{Form, Room};

// What checking finds in a frame that is right: how many stuffing bits it has, and the six check bits that stand in it.
#[derive(Clone, Copy)]
pub struct Verdict {
    pub stuffing: u32,
    pub crc: u32,
}

// How many stuffing bits sbid1 announces; none in the synchronous form.
fn announced(room: Room<'_>) -> u32
    ensures { (result ≡ (carried_by room.entry).stuffing) × (result ≤ 4) }
{
    match room.form {
        Form::Synchronous => 0,
        Form::Plesiochronous => {
            let m = room.block() as usize;
            dataframe::STUFFING * room.piece(m + 23, 1)
        }
    }
}

// Whether sbid2 says the same as sbid1, and the stuffing bits that they announce are ONE.
fn right(room: Room<'_>, stuffing: u32) -> bool
    requires { stuffing ≡ (carried_by room).stuffing }
    ensures { result ≡ stuffing_right (form_in room.entry) room.entry.size (bits_in room.entry) }
{
    match room.form {
        Form::Synchronous => true,
        Form::Plesiochronous => {
            let m = room.block() as usize;
            dataframe::STUFFING * room.piece(2 * m + 35, 1) == stuffing
                && (stuffing == 0 || room.piece(4 * m + 46, dataframe::STUFFING) == dataframe::ONES)
        }
    }
}

// The bits of a frame that ends so.
fn line_bits(room: Room<'_>, stuffing: u32) -> u32
    requires { stuffing ≤ 4 }
    ensures { result ≡ line_bits (form_in room.entry) room.entry.size stuffing }
{
    let last = 4 * room.block() + 46;
    match room.form {
        Form::Synchronous => last + 2,
        Form::Plesiochronous => last + stuffing,
    }
}

// Whether the room behind the frame is zero.
fn clear(room: Room<'_>, stuffing: u32) -> bool
    requires { (stuffing ≡ (carried_by room).stuffing) × (stuffing ≤ 4) }
    ensures { result ≡ eqb (value_of (behind unused (form_in room.entry) room.entry.size (bits_in room.entry))) 0 }
{
    let n = line_bits(room, stuffing);
    octets::is_clear(room.octets, n as usize, (8 * room.octets.len()) as u32 - n)
}

// How many stuffing bits a frame has whose bits are right, where these six are due.
fn stuffing_of(room: Room<'_>, sync: u32, next: u32, due: u32) -> Result<u32, Refused>
    requires { due ≡ due_of (form_in room) room.size (bits_in room) }
    ensures { StuffingGiven room.entry sync next result }
{
    if dataframe::SYNCS <= sync || dataframe::CRCS <= next {
        return Err(Refused::Range);
    }
    if room.piece(0, dataframe::SYNC_BITS) != sync {
        return Err(Refused::Sync);
    }
    let stuffing = announced(room);
    if !right(room, stuffing) {
        return Err(Refused::Stuffing);
    }
    if !clear(room, stuffing) {
        return Err(Refused::Pad);
    }
    if next != due {
        return Err(Refused::Check);
    }
    Ok(stuffing)
}

// What is wrong with a frame, or what was found on the way. Where nothing is wrong, form, size and frame make a room (`Found`); a caller that
// wants it makes it, as datareader does.
pub fn judge(form: u32, size: u32, sync: u32, next: u32, frame: &[u8]) -> Result<Verdict, Refused>
    ensures { VerdictGiven form size sync next frame.entry result }
{
    let room = datacrc::room(form, size, frame)?;
    let six = datacrc::sixes_in(room);
    let stuffing = stuffing_of(room, sync, next, six.due)?;
    Ok(Verdict {
        stuffing,
        crc: six.carried,
    })
}

// What is wrong with a frame.
pub fn check(form: u32, size: u32, sync: u32, next: u32, frame: &[u8]) -> Result<(), Refused>
    ensures { DataChecked form size sync next frame.now (answer_of result) }
{
    judge(form, size, sync, next, frame)?;
    Ok(())
}
