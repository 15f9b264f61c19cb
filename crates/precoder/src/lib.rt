// The channel precoder and its inverse (000, clause 4.3.4), in runs of symbols. All values are in steps of 1/131,072.
#![tactic(auto)]

ghost use Rattle.std.specs.Prelude.{◌≡◌, true, ◌%◌, ◌-◌, ◌*◌, ◌^◌, ◌≤◌, pos, neg_ℤ, nat_abs, ◌+ℤ◌, ◌-ℤ◌, ◌*ℤ◌, length};
ghost use Rattle.answer.specs.Given.{answer_of};
ghost use Rattle.numbers.specs.Promises.{number_length, numbers_of};
ghost use Rattle.ranges.specs.Ranges.{coefficient_count, between, is_coefficient, every};
ghost use Rattle.samples.specs.Samples.{is_signal, past_after};
ghost use Rattle.precoder.specs.Precoder.{Splits, exact_sum, Sends, Receives, Turns, line_of};
ghost use Rattle.precoder.specs.Directions.{is_back};
ghost use Rattle.precoder.specs.Runs.{Turned, lengths_right, ranges_right, RunPromise, PrecodesRun, DecodesRun};

use answer::Refused;

// The taps: as many coefficients, and as many past outputs.
const TAPS: usize = ranges::COEFFICIENTS;

// What the high half of a number weighs: 2^11 in a coefficient, 2^9 in an output.
const COEFFICIENT_WEIGHT: u32 = 2_048;

const OUTPUT_WEIGHT: u32 = 512;

// The lowest values, and their sizes in such weights.
const LOWEST_COEFFICIENT: i32 = ranges::LOWEST_COEFFICIENT;

const LOWEST_OUTPUT: i32 = samples::LOWEST;

const COEFFICIENT_RAISE: i16 = 1_024;

const OUTPUT_RAISE: i16 = 256;

// The two directions: forward an x goes out as a y, back a y comes in and its x is got back.
#[derive(Clone, Copy)]
enum Direction {
    Precode,
    Decode,
}

// A number in two halves. The high one has the number's sign, the low one has none.
#[derive(Drop)]
struct Halves {
    high: i16,
    low: i16,
}

// The four products of the halves of a coefficient and of an output, the coefficient's half named first; or four columns, sums of such
// products.
#[derive(Drop)]
struct Parts {
    hh: i32,
    hl: i32,
    lh: i32,
    ll: i32,
}

// The exact product of 16 by 16 bits. The small controller has no wider one: every product here is made of these.
fn narrow(a: i16, b: i16) -> i32
    ensures { result ≡ a *ℤ b }
{
    i32::from(a) * i32::from(b)
}

// A number in halves: less the lowest it has no sign, so that / and % split it. The lowest is -RAISE in the high half's weights.
fn split<const LOWEST: i32, const WEIGHT: u32, const RAISE: i16>(z: i32) -> Halves
    requires { Splits LOWEST WEIGHT RAISE z }
    ensures { (pos WEIGHT *ℤ result.high +ℤ result.low ≡ z)
        × (between (neg_ℤ RAISE) (RAISE -ℤ pos 1) result.high ≡ true) × (between (pos 0) (pos (WEIGHT - 1)) result.low ≡ true) }
{
    let raised = (z - LOWEST) as u32;
    Halves {
        high: (raised / WEIGHT) as i16 - RAISE,
        low: (raised % WEIGHT) as i16,
    }
}

// A coefficient in halves of 11 bits.
fn coefficient_halves(coefficient: i32) -> Halves
    requires { is_coefficient coefficient ≡ true }
    ensures { (pos 2048 *ℤ result.high +ℤ result.low ≡ coefficient)
        × (between (neg_ℤ (pos 1024)) (pos 1023) result.high ≡ true) × (between (pos 0) (pos 2047) result.low ≡ true) }
{
    split::<LOWEST_COEFFICIENT, COEFFICIENT_WEIGHT, COEFFICIENT_RAISE>(coefficient)
}

// An output in halves of 9 bits.
fn output_halves(y: i32) -> Halves
    requires { is_signal y ≡ true }
    ensures { (pos 512 *ℤ result.high +ℤ result.low ≡ y)
        × (between (neg_ℤ (pos 256)) (pos 255) result.high ≡ true) × (between (pos 0) (pos 511) result.low ≡ true) }
{
    split::<LOWEST_OUTPUT, OUTPUT_WEIGHT, OUTPUT_RAISE>(y)
}

// The exact product of a coefficient and an output, as four narrow ones.
fn product(coefficient: i32, y: i32) -> Parts
    requires { (is_coefficient coefficient ≡ true) × (is_signal y ≡ true) }
    ensures { (pos (2 ^ 20) *ℤ result.hh +ℤ pos (2 ^ 11) *ℤ result.hl +ℤ pos (2 ^ 9) *ℤ result.lh +ℤ result.ll ≡ coefficient *ℤ y)
        × (nat_abs result.hh ≤ 2047 * 511) × (nat_abs result.hl ≤ 2047 * 511)
        × (nat_abs result.lh ≤ 2047 * 511) × (nat_abs result.ll ≤ 2047 * 511) }
{
    let c = coefficient_halves(coefficient);
    let w = output_halves(y);
    Parts {
        hh: narrow(c.high, w.high),
        hl: narrow(c.high, w.low),
        lh: narrow(c.low, w.high),
        ll: narrow(c.low, w.low),
    }
}

// z times 2 to the power of bits, by a shift; small enough for four of them to add up in 64 bits.
fn scaled(z: i32, bits: u32) -> i64
    requires { bits ≤ 20 }
    ensures { (result ≡ pos (2 ^ bits) *ℤ z) × (nat_abs result ≤ 2 ^ 51) }
{
    (z as i64) << bits
}

// Four parts put together: hh weighs 2^20, hl 2^11, lh 2^9.
fn joined(parts: Parts) -> i64
    ensures { result ≡ pos (2 ^ 20) *ℤ parts.hh +ℤ pos (2 ^ 11) *ℤ parts.hl +ℤ pos (2 ^ 9) *ℤ parts.lh +ℤ parts.ll }
{
    scaled(parts.hh, 20) + scaled(parts.hl, 11) + scaled(parts.lh, 9) + (parts.ll as i64)
}

// A precoder at either end: its taps and its past outputs, each in its range.
#[derive(Drop)]
struct Precoder<'a> {
    taps: &'a [i32; TAPS],
    past: [i32; TAPS],
    ghost coefficients: { every is_coefficient taps.now ≡ true },
    ghost outputs: { every is_signal past ≡ true },
}

impl<'a> Precoder<'a> {
    // The exact sum of C(k) times y(m-k). Four columns add up in 32 bits, each at most 180 * 2,047 * 511 = 188,283,060 in size, and are put
    // together once, at the end.
    fn sum(&self) -> i64
        ensures { result ≡ exact_sum coefficient_count self.now.taps.now self.now.past }
    {
        let taps = self.taps;
        let mut hh: i32 = 0;
        let mut hl: i32 = 0;
        let mut lh: i32 = 0;
        let mut ll: i32 = 0;
        for (&coefficient, &y) in taps.iter().zip(&self.past) {
            let p = product(coefficient, y);
            hh += p.hh;
            hl += p.hl;
            lh += p.lh;
            ll += p.ll;
        }
        joined(Parts { hh, hl, lh, ll })
    }

    // One symbol: u = x - v, folded to y, which joins the past.
    fn send(&mut self, x: i32) -> i32
        ensures { Sends self.old.taps.now self.old.past x result
            × (self.new.taps ≡ self.old.taps) × (self.new.past ≡ past_after self.old.past result) }
    {
        let v = samples::rounded(self.sum());
        let sent = samples::folded((x as i64) - v);
        samples::shift(&mut self.past, sent);
        sent
    }

    // One symbol in range, backward: the x that goes out as y, which joins the past.
    fn receive(&mut self, y: i32) -> i32
        requires { is_signal y ≡ true }
        ensures { Receives self.old.taps.now self.old.past y result
            × (self.new.taps ≡ self.old.taps) × (self.new.past ≡ past_after self.old.past y) }
    {
        let v = samples::rounded(self.sum());
        let x = samples::folded((y as i64) + v);
        samples::shift(&mut self.past, y);
        x
    }

    // One symbol in range in either direction.
    fn turn(&mut self, direction: Direction, z: i32) -> i32
        requires { is_signal z ≡ true }
        ensures { Turns (is_back direction) self.old.taps.now self.old.past z result
            × (self.new.taps ≡ self.old.taps)
            × (self.new.past ≡ past_after self.old.past (line_of (is_back direction) z result)) }
    {
        match direction {
            Direction::Precode => self.send(z),
            Direction::Decode => self.receive(z),
        }
    }

    // Symbols in range, one after the other, in either direction.
    fn turn_all(&mut self, direction: Direction, symbols: &[u8], room: &mut [u8])
        requires { (every is_signal (numbers_of symbols.now) ≡ true)
            × (length symbols.now % number_length ≡ 0) × (length room.old ≡ length symbols.now) }
        ensures { Turned (is_back direction) self.old.taps.now self.old.past (numbers_of symbols.now)
            self.new.past room.new }
    {
        for i in 0..symbols.len() / numbers::NUMBER_OCTETS {
            let w = self.turn(direction, numbers::number(symbols, i));
            numbers::put_number(room, i, w);
        }
    }
}

// Whether every number of a run of octets is in the range of x and y.
fn numbers_in_range(octets: &[u8]) -> bool
    requires { length octets.now % number_length ≡ 0 }
    ensures { result ≡ every is_signal (numbers_of octets.now) }
{
    (0..octets.len() / numbers::NUMBER_OCTETS).all(|i| ranges::in_range(
        numbers::number(octets, i),
        samples::LOWEST,
        samples::HIGHEST,
    ))
}

// Whether the four buffers of a run have their lengths.
fn lengths_right(coefficients: &[u8], history: &[u8], symbols: &[u8], room: &[u8]) -> bool
    ensures { result ≡ lengths_right coefficients.now history.now symbols.now room.now }
{
    coefficients.len() == numbers::COEFFICIENT_OCTETS
        && history.len() == numbers::COEFFICIENT_OCTETS
        && symbols.len() % numbers::NUMBER_OCTETS == 0
        && room.len() == symbols.len()
}

// Whether all numbers of a run lie in their ranges.
fn ranges_right(coefficients: &[i32; TAPS], history: &[i32; TAPS], symbols: &[u8]) -> bool
    requires { length symbols.now % number_length ≡ 0 }
    ensures { result ≡ ranges_right coefficients.now history.now (numbers_of symbols.now) }
{
    ranges::all_in_range(
        coefficients,
        ranges::LOWEST_COEFFICIENT,
        ranges::HIGHEST_COEFFICIENT,
    ) && ranges::all_in_range(history, samples::LOWEST, samples::HIGHEST)
        && numbers_in_range(symbols)
}

// A run in either direction. Coefficients and history are decoded once; everything is checked before anything is written.
fn run(
    direction: Direction,
    coefficients: &[u8],
    history: &mut [u8],
    symbols: &[u8],
    room: &mut [u8],
) -> Result<(), Refused>
    ensures { RunPromise (is_back direction) coefficients.now history.old symbols.now room.old
        (answer_of result) history.new room.new }
{
    if !lengths_right(coefficients, history, symbols, room) {
        return Err(Refused::Length);
    }
    let taps = numbers::numbers(coefficients);
    let past = numbers::numbers(history);
    if !ranges_right(&taps, &past, symbols) {
        return Err(Refused::Range);
    }
    // Stays: a reference beside an array, as two arrays by value would take 3,480 octets of stack, over the header's 3,072.
    let mut precoder = Precoder { taps: &taps, past };
    precoder.turn_all(direction, symbols, room);
    numbers::put_numbers(history, &precoder.past);
    Ok(())
}

// Many symbols in one call, on octets, four a number, low octet first.
pub fn precode_run(
    coefficients: &[u8],
    history: &mut [u8],
    xs: &[u8],
    ys: &mut [u8],
) -> Result<(), Refused>
    ensures { PrecodesRun coefficients.now history.old xs.now ys.old
        (answer_of result) history.new ys.new }
{
    run(Direction::Precode, coefficients, history, xs, ys)
}

// The receiving end of such a run.
pub fn decode_run(
    coefficients: &[u8],
    history: &mut [u8],
    ys: &[u8],
    xs: &mut [u8],
) -> Result<(), Refused>
    ensures { DecodesRun coefficients.now history.old ys.now xs.old
        (answer_of result) history.new xs.new }
{
    run(Direction::Decode, coefficients, history, ys, xs)
}
