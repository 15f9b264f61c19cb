// Messages of the operations channel, as C calls them.
ghost use Rattle.host.specs.Channel.{EocWritten, EocRead, EocHanded};

use host::channel::{EocForm, EocHandedUp, EocMessage};

// Writes a message of the operations channel.
#[unsafe(no_mangle)]
pub extern "C" fn sdsl_eoc_write(
    source: u32,
    destination: u32,
    number: u32,
    contents: &[u8],
    room: &mut [u8],
) -> EocForm
    ensures { EocWritten source destination number contents.now room.old result room.new }
{
    host::channel::sdsl_eoc_write(source, destination, number, contents, room)
}

// Reads a message of the operations channel: its numbers, and into lent memory its contents.
#[unsafe(no_mangle)]
pub extern "C" fn sdsl_eoc_read(octets: &[u8], contents: &mut [u8]) -> EocMessage
    ensures { EocRead octets.now contents.old result contents.new }
{
    host::channel::sdsl_eoc_read(octets, contents)
}

// Hands a message of the operations channel up to the units that it is meant for.
#[unsafe(no_mangle)]
pub extern "C" fn sdsl_eoc_hand_up(octets: &[u8], units: &mut [u8]) -> EocHandedUp
    ensures { EocHanded octets.now units.old result units.new }
{
    host::channel::sdsl_eoc_hand_up(octets, units)
}
