// Activation frames once they are descrambled, as C calls them.
ghost use Rattle.host.specs.Frames.{FrameRead};
ghost use Rattle.checker.specs.Promises.{Checked};

use host::frames::FrameFields;

// What is wrong with a frame, or 0.
#[unsafe(no_mangle)]
pub extern "C" fn sdsl_frame_check(frame: &[u8]) -> u32
    ensures { Checked frame.now result }
{
    host::frames::sdsl_frame_check(frame)
}

// Reads a frame: its kind, and into lent memory vendor data and, of a training frame, the coefficients and the reserved bits.
#[unsafe(no_mangle)]
pub extern "C" fn sdsl_frame_read(
    frame: &[u8],
    coefficients: &mut [u8],
    vendor: &mut [u8],
    reserved: &mut [u8],
) -> FrameFields
    ensures { FrameRead frame.now coefficients.old vendor.old reserved.old result
        coefficients.new vendor.new reserved.new }
{
    host::frames::sdsl_frame_read(frame, coefficients, vendor, reserved)
}
