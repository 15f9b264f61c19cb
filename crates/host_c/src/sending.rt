// Sending an activation frame, as C calls it.
ghost use Rattle.host.specs.Sending.{FrameSent};

use host::scrambling::Scrambled;

// Sends a frame of either kind.
#[unsafe(no_mangle)]
pub extern "C" fn sdsl_frame_send(
    end: u32,
    state: u32,
    kind: u32,
    count: u32,
    coefficients: &[u8],
    a: u32,
    b: u32,
    vendor: &[u8],
    frame: &mut [u8],
) -> Scrambled
    ensures { FrameSent end state kind count coefficients.now a b vendor.now frame.old result frame.new }
{
    host::sending::sdsl_frame_send(end, state, kind, count, coefficients, a, b, vendor, frame)
}
