// The scrambler, as C calls it.
ghost use Rattle.recurrence.specs.declared.Way.TheVariants.{Scramble as scramble, Descramble as descramble};
ghost use Rattle.host.specs.Scrambling.{ScramblerStarted, BitScrambled, ScrambledRun, FrameDescrambled};

use host::scrambling::{Scrambled, ScrambledBit};

// The state that an end starts with.
#[unsafe(no_mangle)]
pub extern "C" fn sdsl_scrambler_start(end: u32) -> Scrambled
    ensures { ScramblerStarted end result }
{
    host::scrambling::sdsl_scrambler_start(end)
}

// Scrambles one bit.
#[unsafe(no_mangle)]
pub extern "C" fn sdsl_scramble_bit(end: u32, state: u32, bit: u32) -> ScrambledBit
    ensures { BitScrambled scramble end state bit result }
{
    host::scrambling::sdsl_scramble_bit(end, state, bit)
}

// Descrambles one bit.
#[unsafe(no_mangle)]
pub extern "C" fn sdsl_descramble_bit(end: u32, state: u32, bit: u32) -> ScrambledBit
    ensures { BitScrambled descramble end state bit result }
{
    host::scrambling::sdsl_descramble_bit(end, state, bit)
}

// Scrambles the first `bits` bits of the input.
#[unsafe(no_mangle)]
pub extern "C" fn sdsl_scramble(
    end: u32,
    state: u32,
    input: &[u8],
    bits: usize,
    output: &mut [u8],
) -> Scrambled
    ensures { ScrambledRun scramble end state input.now bits output.old result output.new }
{
    host::scrambling::sdsl_scramble(end, state, input, bits, output)
}

// Descrambles the first `bits` bits of the input.
#[unsafe(no_mangle)]
pub extern "C" fn sdsl_descramble(
    end: u32,
    state: u32,
    input: &[u8],
    bits: usize,
    output: &mut [u8],
) -> Scrambled
    ensures { ScrambledRun descramble end state input.now bits output.old result output.new }
{
    host::scrambling::sdsl_descramble(end, state, input, bits, output)
}

// Descrambles a whole frame.
#[unsafe(no_mangle)]
pub extern "C" fn sdsl_descramble_frame(
    end: u32,
    state: u32,
    frame: &[u8],
    output: &mut [u8],
) -> Scrambled
    ensures { FrameDescrambled end state frame.now output.old result output.new }
{
    host::scrambling::sdsl_descramble_frame(end, state, frame, output)
}
