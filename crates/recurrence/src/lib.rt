// The bits on the line (SCOPE, "Scrambler"; 002, clause 7.1.6): s(n) = f(n) xor s(n-tap) xor s(n-23), for any tap from 1 to 23. A bit, and
// runs of them by the word; and back.
#![tactic(auto)]

ghost use Rattle.std.specs.Prelude.{◌≡◌, ◌⊎◌, ℕ, ◌+◌, ◌-◌, ◌*◌, ◌/◌, ◌%◌, ◌^◌, ◌<◌, ◌≤◌, length, IfOk};
ghost use Rattle.std.specs.Int.Bits.{bit_xor};
ghost use Rattle.answer.specs.Answer.{answer};
ghost use Rattle.answer.specs.Given.{answer_of};
ghost use Rattle.octets.specs.Bits.{bits_of, part, laid};
ghost use Rattle.recurrence.specs.Run.{out_of, on_line, next_of, run_of, after_of};
ghost use Rattle.recurrence.specs.Window.{Out, Gone};
ghost use Rattle.recurrence.specs.Promises.{step_refusals, StepPromise, run_refusals, RunPromise};

use answer::Refused;

// The line reaches so many bits back: the taps are 1 to this.
pub const REACH: u32 = 23;

// States are the numbers below 2^23: the last 23 bits of the line, the newest at weight 1.
pub const STATES: u32 = 8388608;

// The two directions.
#[derive(Clone, Copy, Debug, PartialEq, Eq)]
pub enum Way {
    Scramble,
    Descramble,
}

impl Way {
    // Which of the two is on the line: the scrambled one, so what comes out when scrambling and what comes in when descrambling.
    fn on_line(self, bits: u64, out: u64) -> u64
        ensures { result ≡ on_line self bits out }
    {
        match self {
            Way::Scramble => out,
            Way::Descramble => bits,
        }
    }
}

// What a step gives: the bit, and the state to go on with.
#[derive(Clone, Copy, Debug, PartialEq, Eq)]
pub struct Stepped {
    pub bit: u32,
    pub state: u32,
}

// The line in one direction, with a tap that it reaches.
#[derive(Clone, Copy)]
struct Line {
    way: Way,
    tap: u32,
    ghost reaches: { (1 ≤ tap) × (tap ≤ 23) },
}

impl Line {
    // The line for a step; or why the step is refused.
    fn for_step(way: Way, tap: u32, state: u32, bit: u32) -> Result<Line, Refused>
        ensures answered { answer_of result ≡ answer (step_refusals tap state bit) }
        ensures line { IfOk result (λ l. (l.way ≡ way) × (l.tap ≡ tap) × (state < 2 ^ 23) × (bit < 2)) }
    {
        if tap == 0 || REACH < tap || STATES <= state || 1 < bit {
            return Err(Refused::Range);
        }
        Ok(Line { way, tap })
    }

    // The bit that comes out: the one that comes in, and the bits of the line that lie tap and 23 back.
    fn out(self, state: u32, bit: u32) -> u32
        requires { bit < 2 }
        ensures { result ≡ out_of self.tap state bit }
    {
        bit ^ ((state >> (self.tap - 1)) % 2) ^ ((state >> 22) % 2)
    }

    // The state after a bit.
    fn after(self, state: u32, bit: u32) -> u32
        requires { (bit < 2) × (state < 2 ^ 23) }
        ensures { result ≡ next_of self.way self.tap state bit }
    {
        let line = match self.way {
            Way::Scramble => self.out(state, bit),
            Way::Descramble => bit,
        };
        (state * 2 + line) % STATES
    }
}

// One bit in either direction.
pub fn step(way: Way, tap: u32, state: u32, bit: u32) -> Result<Stepped, Refused>
    ensures { StepPromise way tap state bit result }
{
    let line = Line::for_step(way, tap, state, bit)?;
    Ok(Stepped {
        bit: line.out(state, bit),
        state: line.after(state, bit),
    })
}

// The bits of a word, and its octets.
const WORD: u32 = 64;

const OCTETS: usize = 8;

// Windows are states turned: the oldest bit at weight 1, so that the bits of the line run on from it. So they are numbers below 2^23 too.
const WINDOWS: u64 = STATES as u64;

// The longest part of a run that is no whole word.
const PART: usize = 56;

// A word of line bits, the first lowest, with those of it that lie tap and 23 back added to each.
fn spread(tap: u32, line: u64) -> u64
    requires { tap ≤ 23 }
    ensures { result ≡ bit_xor (bit_xor line (line * 2 ^ tap % 2 ^ 64)) (line * 2 ^ 23 % 2 ^ 64) }
{
    (line ^ (line << tap)) ^ (line << 23)
}

// The line bits whose spread is u. The spread of the spread adds the bits 2 tap and 46 back, that one's twice those 4 tap back, and so on,
// until they lie before the word and nothing is added.
fn gathered(tap: u32, u: u64) -> u64
    requires { (1 ≤ tap) × (tap ≤ 23) }
    ensures { bit_xor (bit_xor result (result * 2 ^ tap % 2 ^ 64)) (result * 2 ^ 23 % 2 ^ 64) ≡ u }
{
    let once = spread(tap, u);
    let two = tap + tap;
    let mut line = (once ^ (once << two)) ^ (once << 46);
    let mut k = two + two;
    // Stays: k doubles, and no range does that.
    while k < WORD {
        line ^= line << k;
        k += k;
    }
    line
}

// The window n bits further.
fn later(window: u64, line: u64, n: u32) -> u64
    requires { (window < 2 ^ 23) × (n ≤ 64) }
    ensures { result ≡ (line * 2 ^ 23 + window) / 2 ^ n % 2 ^ 23 }
{
    if n < REACH {
        ((line << (REACH - n)) | (window >> n)) % WINDOWS
    } else {
        (line >> (n - REACH)) % WINDOWS
    }
}

// How many of so many bits lie before the first octet that begins at or behind place `at`.
fn lead(at: u32, bits: usize) -> usize
    ensures { (result ≤ bits) × (result < 8) × ((result ≡ bits) ⊎ ((at + result) % 8 ≡ 0)) }
{
    (((8 - at % 8) % 8) as usize).min(bits)
}

impl Line {
    // What comes out for up to 64 bits at once.
    fn word_out(self, window: u64, bits: u64) -> u64
        requires { window < 2 ^ 23 }
        ensures { (n : ℕ) → n ≤ 64 → Out self.way self.tap window n bits result }
    {
        let before = (window >> (REACH - self.tap)) ^ window;
        match self.way {
            Way::Scramble => gathered(self.tap, bits ^ before),
            Way::Descramble => spread(self.tap, bits) ^ before,
        }
    }

    // The run over so many words from octet i on: the window after it.
    fn by_words(self, start: u64, input: &[u8], i: usize, count: usize, output: &mut [u8]) -> u64
        requires { (start < 2 ^ 23) × (i + 8 * count ≤ length input.now) }
        ensures { Gone self.way self.tap start (part (8 * i) (64 * count) (bits_of input.now)) output.old (8 * i) result output.new }
    {
        let mut window = start;
        for k in 0..count {
            let octet = i + OCTETS * k;
            let bits = octets::word(input, octet);
            let out = self.word_out(window, bits);
            octets::put_word(output, octet, out);
            window = later(window, self.way.on_line(bits, out), WORD);
        }
        window
    }

    // The run over the bits from the one `from` places behind place `at` on, up to so many behind it, no word among them: the window after it.
    fn by_parts(
        self,
        start: u64,
        input: &[u8],
        at: u32,
        from: usize,
        bits: usize,
        output: &mut [u8],
    ) -> u64
        requires { (start < 2 ^ 23) × (from ≤ bits) × (at + bits ≤ 8 * length input.now) }
        ensures { Gone self.way self.tap start (part (at + from) (bits - from) (bits_of input.now)) output.old (at + from) result output.new }
    {
        let mut window = start;
        let mut k = from;
        // Stays: as many bits go next as are left, 56 at most, so there is nothing to count.
        while k < bits {
            let n = (bits - k).min(PART) as u32;
            let f = octets::bits(input, k, at, n);
            let out = self.word_out(window, f);
            octets::put_bits(output, k, at, n, out);
            window = later(window, self.way.on_line(f, out), n);
            k += n as usize;
        }
        window
    }

    // The run itself, over the bits from place `at` on: the state after it. Up to an octet, by words, and the rest.
    fn go(self, start: u32, input: &[u8], at: u32, bits: usize, output: &mut [u8]) -> u32
        requires { (start < 2 ^ 23) × (at + bits ≤ 8 * length input.now) }
        ensures { (result ≡ after_of self.way self.tap start (part at bits (bits_of input.now)))
            × (output.new ≡ laid output.old at (run_of self.way self.tap start (part at bits (bits_of input.now)))) }
    {
        let window = u64::from(bitfields::turned(REACH, start));
        let first = lead(at, bits);
        let second = self.by_parts(window, input, at, 0, first, output);
        let octet = ((at as usize) + first) / 8;
        let count = (bits - first) / (WORD as usize);
        let third = self.by_words(second, input, octet, count, output);
        let from = first + (WORD as usize) * count;
        let last = self.by_parts(third, input, at, from, bits, output);
        bitfields::turned(REACH, last as u32)
    }

    // The line for a run; or why the run is refused.
    fn for_run(
        way: Way,
        tap: u32,
        state: u32,
        input: &[u8],
        at: u32,
        bits: usize,
    ) -> Result<Line, Refused>
        ensures answered { answer_of result ≡ answer (run_refusals tap state input.now at bits) }
        ensures line { IfOk result (λ l. (l.way ≡ way) × (l.tap ≡ tap) × (state < 2 ^ 23) × (at + bits ≤ 8 * length input.now)) }
    {
        let places = (at as usize) % 8 + bits % 8;
        if input.len() < (at as usize) / 8 + bits / 8 + (places + 7) / 8 {
            return Err(Refused::Length);
        }
        Line::for_step(way, tap, state, 0)
    }
}

// The bits of the input from place `at` on, so many of them, run into the same places of the output; its other bits stay.
pub fn run(
    way: Way,
    tap: u32,
    state: u32,
    input: &[u8],
    at: u32,
    bits: usize,
    output: &mut [u8],
) -> Result<u32, Refused>
    ensures { RunPromise way tap state input.now at bits output.old result output.new }
{
    let line = Line::for_run(way, tap, state, input, at, bits)?;
    Ok(line.go(state, input, at, bits, output))
}
