// The data-mode frame's measures (002, clauses 7.1.2 to 7.1.5). What they mean is in specs/: one table gives every place.
#![tactic(auto)]

ghost use Rattle.std.specs.Prelude.{◌≡◌, ◌≤◌, length};
ghost use Rattle.dataframe.specs.Table.{smallest, largest, room_of};
ghost use Rattle.dataframe.specs.Forms.{form_number};

use answer::Refused;

// The two forms' numbers.
pub const SYNCHRONOUS: u32 = 0;

pub const PLESIOCHRONOUS: u32 = 1;

// A payload sub-block has from 24 to 289 bits.
pub const SMALLEST: u32 = 24;

pub const LARGEST: u32 = 289;

// The octets of the room for the longest frame of each form.
pub const SYNCHRONOUS_OCTETS: usize = 1740;

pub const PLESIOCHRONOUS_OCTETS: usize = 1741;

// The bits of one of the four payload blocks are so many times the size.
pub const SUB_BLOCKS: u32 = 12;

// The octets of payload are so many times the size.
pub const PAYLOAD_OCTETS: usize = 6;

// Numbers of 14 bits (sync), 4 (indicators and spare), 20 (eoc) and 6 (check bits) are below these.
pub const SYNCS: u32 = 1 << 14;

pub const FOURS: u32 = 1 << 4;

pub const EOCS: u32 = 1 << 20;

pub const CRCS: u32 = 1 << 6;

// The bits of sync.
pub const SYNC_BITS: u32 = 14;

// So many stuffing bits, or none; they are ONE.
pub const STUFFING: u32 = 4;

pub const ONES: u32 = 15;

// What a frame carries beside its payload and its sync word. Of each field the first bit in time weighs least, but crc1 weighs most.
#[derive(Clone, Copy)]
pub struct Overhead {
    // losd 1, sega 2, ps 4, segd 8.
    pub indicators: u32,
    // eoc01 weighs 1.
    pub eoc: u32,
    // Of the synchronous form: sbid1 1, sbid2 2, spa1 4, spa2 8.
    pub spare: u32,
    // Of the plesiochronous form: 0 or 4 stuffing bits.
    pub stuffing: u32,
    // crc1 to crc6, as they stand in the frame: those of the frame before it.
    pub crc: u32,
}

// The two forms: the line's clock is locked to that of payload, or stuffing bits make up for what it is not.
#[derive(Clone, Copy, PartialEq, Eq)]
pub enum Form {
    Synchronous,
    Plesiochronous,
}

impl TryFrom<u32> for Form {
    type Error = Refused;

    ghost use Rattle.dataframe.specs.Forms.{FormGiven};

    ghost try_from_gives = { FormGiven };

    fn try_from(number: u32) -> Result<Form, Refused> {
        match number {
            SYNCHRONOUS => Ok(Form::Synchronous),
            PLESIOCHRONOUS => Ok(Form::Plesiochronous),
            _ => Err(Refused::Unknown),
        }
    }
}

// A frame's octets, or room for it, with a form and a size: all three are right.
#[derive(Clone, Copy)]
pub struct Room<'a> {
    pub form: Form,
    pub size: u32,
    pub octets: &'a [u8],
    pub ghost least: { smallest ≤ size },
    pub ghost most: { size ≤ largest },
    pub ghost whole: { length octets.now ≡ room_of (form_number form) },
}

impl<'a> Room<'a> {
    ghost use Rattle.dataframe.specs.Rooms.{BlockGiven, PieceRead};

    // The bits of one of the four payload blocks.
    pub fn block(self) -> u32
        ensures { BlockGiven self.entry result }
    {
        SUB_BLOCKS * self.size
    }

    // The w bits from a place on, the first lowest.
    pub fn piece(self, at: usize, w: u32) -> u32
        ensures { PieceRead self.entry at w result }
    {
        bitfields::field(self.octets, at, w)
    }
}
