// Data-mode frames for C (002, clauses 7.1.2 to 7.1.5): numbers by value, payload and frame as lent octets.
ghost use Rattle.std.specs.Prelude.{◌≡◌};
ghost use Rattle.datachecker.specs.Promises.{DataChecked};
ghost use Rattle.host.specs.Data.{DataFrameWritten, DataCrcGiven, DataFrameRead};

use crate::answered;
use dataframe::Overhead;

// What a frame carries beside sync word and payload.
#[repr(C)]
#[derive(Drop)]
pub struct DataOverhead {
    pub indicators: u32,
    pub eoc: u32,
    pub spare: u32,
    pub stuffing: u32,
    pub crc: u32,
}

// What writing gives: the answer, and the six check bits that the next frame has to carry.
#[repr(C)]
#[derive(Drop)]
pub struct DataSent {
    pub answer: u32,
    pub crc: u32,
}

// The six check bits that stand in a frame, and those due in the next.
#[repr(C)]
#[derive(Drop)]
pub struct DataCrcs {
    pub answer: u32,
    pub carried: u32,
    pub due: u32,
}

// What reading gives.
#[repr(C)]
#[derive(Drop)]
pub struct DataFields {
    pub answer: u32,
    pub overhead: DataOverhead,
}

// What a frame carries, as it comes from C.
impl From<DataOverhead> for Overhead {
    ghost use Rattle.host.specs.Data.{overhead_of};

    ghost from_gives = { λ o r. r ≡ overhead_of o };

    fn from(o: DataOverhead) -> Overhead {
        Overhead {
            indicators: o.indicators,
            eoc: o.eoc,
            spare: o.spare,
            stuffing: o.stuffing,
            crc: o.crc,
        }
    }
}

// The same as it goes to C.
impl From<Overhead> for DataOverhead {
    ghost use Rattle.host.specs.Data.{overhead_for};

    ghost from_gives = { λ o r. r ≡ overhead_for o };

    fn from(o: Overhead) -> DataOverhead {
        DataOverhead {
            indicators: o.indicators,
            eoc: o.eoc,
            spare: o.spare,
            stuffing: o.stuffing,
            crc: o.crc,
        }
    }
}

// Writes a data-mode frame.
pub fn sdsl_data_write(
    form: u32,
    size: u32,
    sync: u32,
    overhead: DataOverhead,
    payload: &[u8],
    frame: &mut [u8],
) -> DataSent
    ensures { DataFrameWritten form size sync overhead payload.now frame.old result frame.new }
{
    match datawriter::write(form, size, sync, Overhead::from(overhead), payload, frame) {
        Ok(crc) => DataSent {
            answer: answer::DONE,
            crc,
        },
        Err(no) => DataSent {
            answer: no.number(),
            crc: 0,
        },
    }
}

// The six check bits that stand in a data-mode frame, and those due in the next.
pub fn sdsl_data_crc(form: u32, size: u32, frame: &[u8]) -> DataCrcs
    ensures { DataCrcGiven form size frame.now result }
{
    match datacrc::crc(form, size, frame) {
        Ok(six) => DataCrcs {
            answer: answer::DONE,
            carried: six.carried,
            due: six.due,
        },
        Err(no) => DataCrcs {
            answer: no.number(),
            carried: 0,
            due: 0,
        },
    }
}

// What is wrong with a data-mode frame, or 0.
pub fn sdsl_data_check(form: u32, size: u32, sync: u32, next: u32, frame: &[u8]) -> u32
    ensures { DataChecked form size sync next frame.now result }
{
    answered(datachecker::check(form, size, sync, next, frame))
}

// Reads a data-mode frame: what it carries, and into lent memory its payload.
pub fn sdsl_data_read(
    form: u32,
    size: u32,
    sync: u32,
    next: u32,
    frame: &[u8],
    payload: &mut [u8],
) -> DataFields
    ensures { DataFrameRead form size sync next frame.now payload.old result payload.new }
{
    match datareader::read(form, size, sync, next, frame, payload) {
        Ok(overhead) => DataFields {
            answer: answer::DONE,
            overhead: DataOverhead::from(overhead),
        },
        Err(no) => DataFields {
            answer: no.number(),
            overhead: DataOverhead {
                indicators: 0,
                eoc: 0,
                spare: 0,
                stuffing: 0,
                crc: 0,
            },
        },
    }
}
