// Fields one behind the other, taken with the field reader (SCOPE, "The activation frame").
#![tactic(auto)]

ghost use Rattle.walk.specs.Promises.{PairTaken, SignedFilled};

// Two fields, one behind the other, and the place behind them.
#[derive(Drop)]
pub struct TakenPair {
    pub first: u32,
    pub second: u32,
    pub next: usize,
}

// The field of v bits at a place, and the one of w bits behind it.
pub fn pair(frame: &[u8], at: usize, v: u32, w: u32) -> TakenPair
    ensures { PairTaken frame.now at v w result }
{
    let mut r = fields::reader(frame, at);
    let first = r.take(v);
    let second = r.take(w);
    TakenPair {
        first,
        second,
        next: r.at,
    }
}

// The fields of w bits in two's complement, one behind the other from a place on, as many as the lent room takes, and the
// place behind them.
pub fn fill_signed(frame: &[u8], at: usize, w: u32, into: &mut [i32]) -> usize
    ensures { SignedFilled frame.now at w into.old into.new result }
{
    let mut r = fields::reader(frame, at);
    // Stays: an index, since the must-fail edit counts_from_one has to be refused in this loop.
    for k in 0..into.len() {
        into[k] = r.take_signed(w);
    }
    r.at
}
