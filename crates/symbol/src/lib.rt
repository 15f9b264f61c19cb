// Symbols: levels in sixteenths, and the data encoder (000, clauses 4.1.6 and 4.3.3).
#![tactic(auto)]

ghost use Rattle.std.specs.Prelude.{◌≡◌, true, not, ◌+◌, ◌*◌, ◌^◌, ◌≤◌, ◌<◌, pos, ◌-ℤ◌, [], ◌∷◌, length};
ghost use Rattle.answer.specs.Answer.{refuse, answer};
ghost use Rattle.answer.specs.Given.{answer_of};
ghost use Rattle.octets.specs.Bits.{digits_of};
ghost use Rattle.symbol.specs.Levels.{ActivationLevel, DataLevel, LevelCode};
ghost use Rattle.symbol.specs.Encoder.{x2, x3, parity_of, code_of, next_of, held_in, encoder_in, Started, Stepped};
ghost use Rattle.symbol.specs.Encoder.{codes_of, sent_after, register_of, symbols_in, with_register, Ran};

use answer::Refused;

// The level of an activation bit: 0 gives -9/16, 1 gives +9/16.
pub fn activation_level(bit: u32) -> Result<i32, Refused>
    ensures { ActivationLevel bit result }
{
    match bit {
        0 => Ok(-9),
        1 => Ok(9),
        _ => Err(Refused::Range),
    }
}

// The n-th of the sixteen levels from below, n from 0.
fn from_below(n: u32) -> i32
    requires { n < 16 }
    ensures { result ≡ pos (2 * n) -ℤ pos 15 }
{
    2 * (n as i32) - 15
}

// The level of a data code Y3..Y0. 1100 to 1111 lie below 1000 to 1011: the codes do not rise in order.
pub fn data_level(code: u32) -> Result<i32, Refused>
    ensures { DataLevel code result }
{
    match code {
        0..=7 => Ok(from_below(code)),
        8..=11 => Ok(from_below(code + 4)),
        12..=15 => Ok(from_below(code - 4)),
        _ => Err(Refused::Range),
    }
}

// Going back: the code of a level in sixteenths. The levels are odd, from -15 to 15.
pub fn level_code(sixteenths: i32) -> Result<u32, Refused>
    ensures { LevelCode sixteenths result }
{
    if !ranges::in_range(sixteenths, -15, 15) {
        return Err(Refused::Range);
    }
    let above = (sixteenths + 15) as u32;
    if above % 2 == 1 {
        return Err(Refused::Range);
    }
    let n = above / 2;
    match n {
        0..=7 => Ok(n),
        8..=11 => Ok(n + 4),
        _ => Ok(n - 4),
    }
}

// The encoder's state: words A and B (a0 and b0 weigh 1), and the last twenty X1, newest at weight 1.
#[derive(Clone, Copy)]
pub struct Encoder {
    pub a: u32,
    pub b: u32,
    pub register: u32,
}

// What a step gives: the code, its level in sixteenths and the next state.
#[derive(Drop)]
pub struct Step {
    pub code: u32,
    pub sixteenths: i32,
    pub next: Encoder,
}

// A symbol's code and the next state.
#[derive(Drop)]
struct Turn {
    code: u32,
    next: Encoder,
}

impl Encoder {
    // Registers lie below this, 20 bits.
    pub const REGISTERS: u32 = 0x10_0000;
    // The register before the first symbol.
    pub const START: u32 = 0;

    // The encoder before the first symbol. Words out of range are refused, here and by every step.
    pub fn start(a: u32, b: u32) -> Result<Encoder, Refused>
        ensures { Started a b result }
    {
        let first = Encoder {
            a,
            b,
            register: Self::START,
        };
        first.allowed()?;
        Ok(first)
    }

    // That A, B and the register lie in their ranges.
    fn allowed(self) -> Result<(), Refused>
        ensures { answer_of result ≡ answer (refuse 4 (not (encoder_in self)) ∷ []) }
    {
        if self.a <= ranges::HIGHEST_WORD
            && self.b <= ranges::HIGHEST_WORD
            && self.register < Self::REGISTERS
        {
            Ok(())
        } else {
            Err(Refused::Range)
        }
    }

    // A symbol's code by the window, which holds the current X1 at weight 1, where a0 and b0 meet it.
    fn code(self, window: u32, symbol: u32) -> u32
        requires { (window < 2 ^ 21) × (symbol ≤ 7) }
        ensures { result ≡ 8 * x3 symbol + 4 * x2 symbol + 2 * parity_of self.a (digits_of 21 window) + parity_of self.b (digits_of 21 window) }
    {
        let y3 = symbol % 2;
        let y2 = symbol / 2 % 2;
        let y1 = (self.a & window).count_ones() % 2;
        let y0 = (self.b & window).count_ones() % 2;
        y3 * 8 + y2 * 4 + y1 * 2 + y0
    }

    // One symbol with nothing to refuse: what `step` and `run` are made of. The register is shifted after the code is made.
    fn turn(self, symbol: u32) -> Turn
        requires { (encoder_in self ≡ true) × (symbol ≤ 7) }
        ensures { (result.code ≡ code_of self.a self.b (held_in self.register) symbol) × (result.next ≡ next_of self symbol) }
    {
        let window = self.register * 2 + symbol / 4;
        Turn {
            code: self.code(window, symbol),
            next: Encoder {
                a: self.a,
                b: self.b,
                register: window % Self::REGISTERS,
            },
        }
    }

    // One symbol: its bits X1, X2, X3 as a number, X1 weighs 4.
    pub fn step(self, symbol: u32) -> Result<Step, Refused>
        ensures { Stepped self symbol result }
    {
        self.allowed()?;
        if 7 < symbol {
            return Err(Refused::Range);
        }
        let t = self.turn(symbol);
        Ok(Step {
            code: t.code,
            sixteenths: data_level(t.code)?,
            next: t.next,
        })
    }

    // The codes of symbols with nothing to refuse, and the encoder after them.
    fn go(self, symbols: &[u8], codes: &mut [u8]) -> Encoder
        requires { (encoder_in self ≡ true) × (symbols_in symbols.now ≡ true) × (length codes.old ≡ length symbols.now) }
        ensures { (codes.new ≡ codes_of self.a self.b (held_in self.register) symbols.now)
            × (result ≡ with_register self (register_of (sent_after (held_in self.register) symbols.now))) }
    {
        let mut next = self;
        // Stays: codes by index; after iter_mut under zip a proof knows nothing of what was written (goal returns).
        for (i, &symbol) in symbols.iter().enumerate() {
            let t = next.turn(u32::from(symbol));
            codes[i] = t.code as u8;
            next = t.next;
        }
        next
    }

    // Many symbols, one to an octet; their codes, one to an octet. A single symbol over 7 makes it refuse the whole run.
    pub fn run(self, symbols: &[u8], codes: &mut [u8]) -> Result<Encoder, Refused>
        ensures { Ran self symbols.now codes.old result codes.new }
    {
        if codes.len() != symbols.len() {
            return Err(Refused::Length);
        }
        self.allowed()?;
        if !symbols_in(symbols) {
            return Err(Refused::Range);
        }
        let next = self.go(symbols, codes);
        Ok(next)
    }
}

// Whether no symbol is over 7.
fn symbols_in(symbols: &[u8]) -> bool
    ensures { result ≡ symbols_in symbols.now }
{
    symbols.iter().all(|&symbol| symbol <= 7)
}
