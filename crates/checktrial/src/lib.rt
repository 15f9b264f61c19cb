// For tests and the benchmark only: what is compared with numbers from outside and no card's host calls.
#![tactic(auto)]

ghost use Rattle.std.specs.Prelude.{◌%◌, length};
ghost use Rattle.fcs.specs.Promises.{Sequenced};
ghost use Rattle.remainder.specs.Promises.{CheckBits};
ghost use Rattle.checktrial.specs.Promises.{Tried};

// The check bits of any range of bits.
#[unsafe(no_mangle)]
pub extern "C" fn trial_check_bits(s: &[u8], at: usize, n: u32) -> u32
    ensures { CheckBits s.now at n result }
{
    remainder::check_bits(s, at, n)
}

// The remainder of any range of bits by any generator, behind any start; 0 where one is refused.
#[unsafe(no_mangle)]
pub extern "C" fn trial_from_start(
    generator: u32,
    degree: u32,
    start: u32,
    s: &[u8],
    at: usize,
    n: u32,
) -> u32
    ensures { Tried generator degree start s.now at n result }
{
    remainder::from_start(generator, degree, start, s, at, n).unwrap_or(0)
}

// The check sequence of octets, up to 65,535 of them.
#[unsafe(no_mangle)]
pub extern "C" fn trial_sequence(s: &[u8]) -> u32
    ensures { Sequenced s.now (length s.now % 65536) result }
{
    fcs::sequence(s, (s.len() % 65536) as u16)
}
