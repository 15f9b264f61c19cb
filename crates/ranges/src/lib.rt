// Measures and ranges that the frame and the symbols share (SCOPE): of a coefficient, of A and B; and whether numbers lie in a range.
#![tactic(auto)]

ghost use Rattle.std.specs.Prelude.{◌≡◌};
ghost use Rattle.ranges.specs.Ranges.{between, every};

// The coefficients of a frame, and the precoder's taps.
pub const COEFFICIENTS: usize = 180;

// The bits of a coefficient, and of A or B.
pub const COEFFICIENT_BITS: u32 = 22;

pub const WORD_BITS: u32 = 21;

// The range of a coefficient.
pub const LOWEST_COEFFICIENT: i32 = -2_097_152;

pub const HIGHEST_COEFFICIENT: i32 = 2_097_151;

// The highest A or B.
pub const HIGHEST_WORD: u32 = 2_097_151;

// Whether a number lies from low to high.
pub fn in_range(z: i32, low: i32, high: i32) -> bool
    ensures { result ≡ between low high z }
{
    (low..=high).contains(&z)
}

// Whether all numbers lie from low to high. All are looked at, also behind one that does not: so the compiler takes four at a time.
pub fn all_in_range(values: &[i32], low: i32, high: i32) -> bool
    ensures { result ≡ every (between low high) values.now }
{
    values
        .iter()
        .fold(true, |all, &z| all & in_range(z, low, high))
}
