// Data-mode frames, as C calls them.
ghost use Rattle.datachecker.specs.Promises.{DataChecked};
ghost use Rattle.host.specs.Data.{DataFrameWritten, DataCrcGiven, DataFrameRead};

use host::data::{DataCrcs, DataFields, DataOverhead, DataSent};

// Writes a data-mode frame.
#[unsafe(no_mangle)]
pub extern "C" fn sdsl_data_write(
    form: u32,
    size: u32,
    sync: u32,
    overhead: DataOverhead,
    payload: &[u8],
    frame: &mut [u8],
) -> DataSent
    ensures { DataFrameWritten form size sync overhead payload.now frame.old result frame.new }
{
    host::data::sdsl_data_write(form, size, sync, overhead, payload, frame)
}

// The six check bits that stand in a data-mode frame, and those due in the next.
#[unsafe(no_mangle)]
pub extern "C" fn sdsl_data_crc(form: u32, size: u32, frame: &[u8]) -> DataCrcs
    ensures { DataCrcGiven form size frame.now result }
{
    host::data::sdsl_data_crc(form, size, frame)
}

// What is wrong with a data-mode frame, or 0.
#[unsafe(no_mangle)]
pub extern "C" fn sdsl_data_check(form: u32, size: u32, sync: u32, next: u32, frame: &[u8]) -> u32
    ensures { DataChecked form size sync next frame.now result }
{
    host::data::sdsl_data_check(form, size, sync, next, frame)
}

// Reads a data-mode frame: what it carries, and into lent memory its payload.
#[unsafe(no_mangle)]
pub extern "C" fn sdsl_data_read(
    form: u32,
    size: u32,
    sync: u32,
    next: u32,
    frame: &[u8],
    payload: &mut [u8],
) -> DataFields
    ensures { DataFrameRead form size sync next frame.now payload.old result payload.new }
{
    host::data::sdsl_data_read(form, size, sync, next, frame, payload)
}
