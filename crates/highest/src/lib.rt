// How many coefficients are in use, as far as a frame shows it: the highest that is not zero (specs/Highest.antt).
#![tactic(auto)]

ghost use Rattle.highest.specs.Promises.{Highest};

// The number of the highest non-zero coefficient, counted from 1; 0 where there is none.
pub fn highest(cs: &[i32]) -> usize
    ensures { Highest cs.now result }
{
    match cs.iter().rposition(|&c| c != 0) {
        Some(i) => i + 1,
        None => 0,
    }
}
