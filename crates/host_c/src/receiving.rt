// The receiver, as C calls it.
ghost use Rattle.host.specs.Receiving.{ReceiverStarted, LumpReceived};

use host::receiving::{Received, Receiver};

// Starts a receiver.
#[unsafe(no_mangle)]
pub extern "C" fn sdsl_receive_start(end: u32) -> Received
    ensures { ReceiverStarted end result }
{
    host::receiving::sdsl_receive_start(end)
}

// Takes the next bits off the line.
#[unsafe(no_mangle)]
pub extern "C" fn sdsl_receive(
    state: Receiver,
    line: &mut [u8],
    lump: &[u8],
    bits: usize,
    frame: &mut [u8],
) -> Received
    ensures { LumpReceived state line.old lump.now bits frame.old result line.new frame.new }
{
    host::receiving::sdsl_receive(state, line, lump, bits, frame)
}
