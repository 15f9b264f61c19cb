// Check bits: the remainder of a polynomial division over GF(2) (SCOPE, "The activation frame"; 000, clause 4.1.3).
#![tactic(auto)]

ghost use Rattle.std.specs.Prelude.{◌≡◌, ◌++◌, reverse, ℕ, ◌+◌, ◌*◌, ◌%◌, ◌^◌, ◌<◌, ◌≤◌, min, length};
ghost use Rattle.std.specs.Int.Bits.{bit_xor};
ghost use Rattle.answer.specs.Answer.{answer};
ghost use Rattle.answer.specs.Given.{answer_of};
ghost use Rattle.octets.specs.Bits.{digits_of, value_of, bits_of, part};
ghost use Rattle.remainder.specs.Division.{Degree, generator};
ghost use Rattle.remainder.specs.Register.{step_of, register_of};
ghost use Rattle.remainder.specs.Promises.{CheckBits, WordLeft, start_refusals, FromStart};

use answer::Refused;

// D^16 + D^12 + D^5 + 1, each power a digit.
pub const GENERATOR: u32 = 0x11021;

// The generator's degree: so many check bits.
pub const DEGREE: u32 = 16;

// The register one bit further, for a generator of that degree.
fn step(register: u32, bit: u32, generator: u32, degree: u32) -> u32
    requires { (1 ≤ degree) × (degree ≤ 16) × (register < 2 ^ degree) × (bit < 2) × Degree generator degree }
    ensures { result ≡ step_of degree generator register bit }
{
    let size = 1u32 << degree;
    let top = register >> (degree - 1);
    (register * 2 % size) ^ ((top ^ bit) * (generator % size))
}

// The bits of a word.
pub const WORD: u32 = 64;

// The word's share of the quotient by the generator's fourth power, turned: 1 + D^16 + D^44 + D^64 from the low end, the first of the bits
// at weight 1. Its square adds D^32, and that one's nothing within the word.
fn fourth(x: u64) -> u64
    ensures { bit_xor (bit_xor result (result * 2 ^ 16 % 2 ^ 64)) (result * 2 ^ 44 % 2 ^ 64) ≡ x }
{
    let c = x ^ (x << 32);
    (c ^ (c << 16)) ^ (c << 44)
}

// The word that stands for x 64 bits further on: what reaches over the word is left of it by the generator's fourth power, so by the
// generator too.
fn folded(x: u64) -> u64
    ensures { (w : ℕ) → w < 2 ^ 64
        → register_of 16 generator 0 (digits_of 64 x ++ digits_of 64 w) ≡ register_of 16 generator 0 (digits_of 64 (bit_xor result w)) }
{
    let q = fourth(x);
    ((q >> 48) ^ (q >> 20)) ^ q
}

// The register after the 64 bits of x, from zero, turned: the quotient by the generator itself, and what reaches over.
fn settled(x: u64) -> u64
    ensures { result ≡ value_of (reverse (digits_of 16 (register_of 16 generator 0 (digits_of 64 x)))) }
{
    let c = fourth(x);
    let b = ((c ^ (c << 8)) ^ (c << 22)) ^ (c << 32);
    let q = ((b ^ (b << 4)) ^ (b << 11)) ^ (b << 16);
    ((q >> 60) ^ (q >> 53)) ^ (q >> 48)
}

// What is left of the 64 bits of a word, the lowest first, with its digits turned round: c1 is the digit of weight 1.
pub fn word_left(x: u64) -> u32
    ensures { WordLeft x result }
{
    settled(x) as u32
}

// The register after the 64 bits of x, from zero.
fn after_word(x: u64) -> u32
    ensures { result ≡ register_of 16 generator 0 (digits_of 64 x) }
{
    bitfields::turned(DEGREE, word_left(x))
}

// The word that stands for x and the n low digits of t behind it: both moved up to the end of two words, and the first of them folded.
fn joined(x: u64, t: u64, n: u32) -> u64
    requires { (1 ≤ n) × (n < 64) }
    ensures { register_of 16 generator 0 (digits_of 64 x ++ digits_of n t) ≡ register_of 16 generator 0 (digits_of 64 result) }
{
    let low = x << (WORD - n);
    let high = (t << (WORD - n)) | (x >> n);
    folded(low) ^ high
}

// The word that stands for a start and so many words from octet i on. Each is read as eight octets of their own: so the compiler
// makes one load of it, and looks for no end.
fn words(start: u16, s: &[u8], i: usize, count: usize) -> u64
    requires { (1 ≤ count) × (i + 8 * count ≤ length s.now) }
    ensures { register_of 16 generator start (part (8 * i) (64 * count) (bits_of s.now)) ≡ register_of 16 generator 0 (digits_of 64 result) }
{
    let mut x = octets::word(s, i) ^ u64::from(bitfields::turned(DEGREE, u32::from(start)));
    for k in 1..count {
        let at = i + 8 * k;
        let w = octets::word(&s[at..at + 8], 0);
        x = folded(x) ^ w;
    }
    x
}

// The word that stands for x and the n bits from octet i on.
fn rest(x: u64, s: &[u8], i: usize, n: u32) -> u64
    requires { (n < 64) × (8 * i + n ≤ 8 * length s.now) }
    ensures { register_of 16 generator 0 (digits_of 64 x ++ part (8 * i) n (bits_of s.now)) ≡ register_of 16 generator 0 (digits_of 64 result) }
{
    if n == 0 {
        return x;
    }
    joined(x, octets::word(s, i), n)
}

// The register after so many words from octet i on, and n bits behind them.
fn by_words(start: u16, s: &[u8], i: usize, count: usize, n: u32) -> u32
    requires { (1 ≤ count) × (n < 64) × (8 * i + (64 * count + n) ≤ 8 * length s.now) }
    ensures { result ≡ register_of 16 generator start (part (8 * i) (64 * count + n) (bits_of s.now)) }
{
    let x = words(start, s, i, count);
    after_word(rest(x, s, i + 8 * count, n))
}

// The register after the n bits from octet i on, where a word holds them: the start is added to the first of them, and they are moved up to the
// word's end. The zeros before them count for nothing.
fn short(start: u16, s: &[u8], i: usize, n: u32) -> u32
    requires { (16 ≤ n) × (n ≤ 64) × (8 * i + n ≤ 8 * length s.now) }
    ensures { result ≡ register_of 16 generator start (part (8 * i) n (bits_of s.now)) }
{
    let x = octets::word(s, i) ^ u64::from(bitfields::turned(DEGREE, u32::from(start)));
    after_word(x << (WORD - n))
}

// The register after the n bits from place `at` on, bit by bit. Nothing past the end counts.
fn by_bits(generator: u32, degree: u32, start: u32, s: &[u8], at: usize, n: u32) -> u32
    requires { (1 ≤ degree) × (degree ≤ 16) × Degree generator degree × (start < 2 ^ degree) }
    ensures { result ≡ register_of degree generator start (part at n (bits_of s.now)) }
{
    let mut register = start;
    for k in 0..n {
        if !octets::has(s, at, k) {
            return register;
        }
        let b = u32::from(octets::bit(s, at, k));
        register = step(register, b, generator, degree);
    }
    register
}

// The register of D^16 + D^12 + D^5 + 1 after the n bits from place `at` on: up to an octet, and the rest in one word or by words.
fn after(start: u16, s: &[u8], at: usize, n: u32) -> u32
    ensures { result ≡ register_of 16 generator start (part at n (bits_of s.now)) }
{
    let lead = ((8 - at % 8) % 8) as u32;
    if n < lead + DEGREE || !octets::has(s, at, n - 1) {
        return by_bits(GENERATOR, DEGREE, u32::from(start), s, at, n);
    }
    let register = by_bits(GENERATOR, DEGREE, u32::from(start), s, at, lead) as u16;
    let octet = at / 8 + (at % 8 + 7) / 8;
    let rest = n - lead;
    if rest <= WORD {
        return short(register, s, octet, rest);
    }
    by_words(register, s, octet, (rest / WORD) as usize, rest % WORD)
}

// X^6 + X + 1, each power a digit.
pub const SIX: u32 = 0x43;

// Its degree.
pub const SIX_DEGREE: u32 = 6;

// X^63 divided by it leaves 1, so 63 digits, the first bit lowest, stand for all bits before them.
const ROUND: u32 = 63;

// So many bits are read at once, from any place.
const READ: u32 = 56;

// The digits that stand for x and the n low digits of t behind it: the first n of x come round to the end, and those of t are added to them.
fn brought_round(x: u64, t: u64, n: u32) -> u64
    requires { (1 ≤ n) × (n ≤ 56) × (x < 2 ^ 63) × (t < 2 ^ n) }
    ensures { (result < 2 ^ 63) × (register_of 6 67 0 (digits_of 63 x ++ digits_of n t) ≡ register_of 6 67 0 (digits_of 63 result)) }
{
    let y = x ^ t;
    (y >> n) | ((y % (1u64 << n)) << (ROUND - n))
}

// The digits that stand for a start and the n bits from place `at` on.
fn stands_for(start: u32, s: &[u8], at: usize, n: u32) -> u64
    requires { (start < 2 ^ 6) × (at + n ≤ 8 * length s.now) }
    ensures { (result < 2 ^ 63) × (register_of 6 67 start (part at n (bits_of s.now)) ≡ register_of 6 67 0 (digits_of 63 result)) }
{
    let mut x = u64::from(bitfields::turned(SIX_DEGREE, start));
    let mut seen: u32 = 0;
    // Stays: as many bits go next as are left, 56 at most, so there is nothing to count.
    while seen < n {
        let v = octets::bits(s, at, seen, n - seen);
        let m = (n - seen).min(READ);
        x = brought_round(x, v, m);
        seen += m;
    }
    x
}

// The register of X^6 + X + 1 after the 64 bits of x, from zero, turned: the quotients by its eighth power, the fourth, the square and
// itself, and what reaches over.
fn six_settled(x: u64) -> u64
    ensures { result ≡ value_of (reverse (digits_of 6 (register_of 6 67 0 (digits_of 64 x)))) }
{
    let d = (x ^ (x << 40)) ^ (x << 48);
    let c = (d ^ (d << 20)) ^ (d << 24);
    let b = (c ^ (c << 10)) ^ (c << 12);
    let q = (b ^ (b << 5)) ^ (b << 6);
    (q >> 59) ^ (q >> 58)
}

// The register of X^6 + X + 1 after the n bits from place `at` on. A zero goes before the digits that stand for them, to make 64, and counts
// for nothing. Nor does what lies past the end.
fn six_after(start: u32, s: &[u8], at: usize, n: u32) -> u32
    requires { start < 2 ^ 6 }
    ensures { result ≡ register_of 6 67 start (part at n (bits_of s.now)) }
{
    if n == 0 {
        return start;
    }
    if !octets::has(s, at, n - 1) {
        return by_bits(SIX, SIX_DEGREE, start, s, at, n);
    }
    let x = stands_for(start, s, at, n);
    bitfields::turned(SIX_DEGREE, six_settled(x << 1) as u32)
}

// The check bits of the n bits from place `at` on, the first of them highest; c1 is the digit of weight 2^15. Nothing past the end counts.
pub fn check_bits(s: &[u8], at: usize, n: u32) -> u32
    ensures { CheckBits s.now at n result }
{
    after(0, s, at, n)
}

// Whether `from_start` takes a generator of that degree and a start.
fn allowed(generator: u32, degree: u32, start: u32) -> Result<(), Refused>
    ensures { answer_of result ≡ answer (start_refusals generator degree start) }
{
    if degree == 0 || DEGREE < degree {
        return Err(Refused::Range);
    }
    let size = 1u32 << degree;
    if generator < size || size * 2 <= generator || generator % 2 == 0 || size <= start {
        return Err(Refused::Range);
    }
    Ok(())
}

// The remainder of the n bits from place `at` on by any generator of degree 1 to 16 with a constant term, behind a start: what was left of
// bits before them, or any number below 2 to the degree. Nothing past the end counts.
pub fn from_start(
    generator: u32,
    degree: u32,
    start: u32,
    s: &[u8],
    at: usize,
    n: u32,
) -> Result<u32, Refused>
    ensures { FromStart generator degree start s.now at n result }
{
    allowed(generator, degree, start)?;
    Ok(match generator {
        GENERATOR => after(start as u16, s, at, n),
        SIX => six_after(start, s, at, n),
        _ => by_bits(generator, degree, start, s, at, n),
    })
}
