// What C calls, over the proved crates: only numbers and octet slices cross. Crate host_c exports each function here under its name.
// Stays: structs with an answer number, and states of the crates below once more, as C has them (include/sdsl.h).
#![tactic(auto)]

ghost use Rattle.std.specs.Prelude.{◌≡◌};
ghost use Rattle.answer.specs.Given.{answer_of};

use answer::Refused;

pub mod channel;
pub mod data;
pub mod frames;
pub mod receiving;
pub mod scrambling;
pub mod sending;
pub mod supervising;
pub mod symbols;

// What C is given of a call that gives nothing but its answer.
fn answered(given: Result<(), Refused>) -> u32
    ensures { result ≡ answer_of given }
{
    match given {
        Ok(()) => answer::DONE,
        Err(no) => no.number(),
    }
}
