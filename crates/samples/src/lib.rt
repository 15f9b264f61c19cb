// Numbers of the precoder in steps of 1/131,072 (000, clause 4.3.4): ranges, rounding, folding, the history and the shaper's float.
#![tactic(auto)]

ghost use Rattle.std.specs.Prelude.{◌≡◌};
ghost use Rattle.samples.specs.Samples.{at_start, Rounds, Folds, past_after};
ghost use Rattle.samples.specs.Shaper.{Shapes};

use answer::Refused;

// 1 in steps.
pub const ONE: i32 = 131_072;

// The range of x, y and past outputs.
pub const LOWEST: i32 = -ONE;

pub const HIGHEST: i32 = ONE - 1;

// The past outputs that are remembered.
pub const PAST: usize = ranges::COEFFICIENTS;

const LAST: usize = PAST - 1;

// The same as wider numbers: 1, a half, the range and its width.
const STEPS: i64 = ONE as i64;

const HALF: i64 = STEPS / 2;

const HIGH: i64 = STEPS - 1;

const WIDTH: i64 = 2 * STEPS;

// And as a float.
const AS_FLOAT: f32 = ONE as f32;

// s/131,072 to the nearest whole number, halves upward: the floor, or the next number where the rest is half a step or more.
pub fn rounded(s: i64) -> i64
    ensures { Rounds s result }
{
    let floor = s.div_euclid(STEPS);
    if HALF <= s.rem_euclid(STEPS) {
        floor + 1
    } else {
        floor
    }
}

// u moved by a multiple of 262,144 into the range of y.
pub fn folded(u: i64) -> i32
    ensures { Folds u result }
{
    let r = u.rem_euclid(WIDTH);
    if HIGH < r {
        (r - WIDTH) as i32
    } else {
        r as i32
    }
}

// The history before the first symbol.
pub fn start() -> [i32; PAST]
    ensures { result ≡ at_start }
{
    [0; PAST]
}

// The newest output goes to the front; every other moves one place on, and the oldest is dropped.
pub fn shift(history: &mut [i32; PAST], y: i32)
    ensures { history.new ≡ past_after history.old y }
{
    history.copy_within(..LAST, 1);
    history[0] = y;
}

// y as a 32-bit float that is exactly y/131,072.
pub fn shaper(y: i32) -> Result<f32, Refused>
    ensures { Shapes y result }
{
    if !ranges::in_range(y, LOWEST, HIGHEST) {
        return Err(Refused::Range);
    }
    Ok((y as f32) / AS_FLOAT)
}
