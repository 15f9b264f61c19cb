// Bits in octets (SCOPE, "The activation frame"): bit n of the paper stands at place n - 1, with weight 2 to the power
// (n-1) mod 8 in octet (n-1)/8. Every function takes every input: what lies past the end reads 0 and is not written.
#![tactic(auto)]

ghost use Rattle.std.specs.Prelude.{◌≡◌, true, ◌++◌, ◌+◌, ◌-◌, ◌*◌, ◌/◌, ◌%◌, ◌<◌, ◌≤◌, min, eqb, length, take, drop, replicate};
ghost use Rattle.std.proofs.lemmas.List.Edits.{sets};
ghost use Rattle.std.proofs.Math.Seq.{paste};
ghost use Rattle.octets.specs.Bits.{digits_of, value_of, bits_of, octets_of, part, laid};
ghost use Rattle.octets.specs.Promises.{BitRead, HasBit, WordRead, WordPut, BitsRead, BitsPut, FrontPut, Copied, Cleared, IsClear, Signed, Twos};

// Whether there is a bit k places behind place `at`.
pub fn has(s: &[u8], at: usize, k: u32) -> bool
    ensures { HasBit s.now at k result }
{
    at / 8 + (at % 8 + (k as usize)) / 8 < s.len()
}

// At how many octets eight octets begin. A loop asks this once.
fn starts(s: &[u8]) -> usize
    ensures { result ≡ length s.now - 7 }
{
    s.len().saturating_sub(7)
}

// Octets as one number, the first lowest. Of eight octets the compiler makes one load.
fn by_octets(s: &[u8]) -> u64
    requires { length s.now ≤ 8 }
    ensures { result ≡ value_of (bits_of s.now) }
{
    let mut v = 0u64;
    for &octet in s.iter().rev() {
        v = (v << 8) | u64::from(octet);
    }
    v
}

// The octets from octet i to before octet `end` become the low ones of v. Of eight octets the compiler makes one store.
fn put_octets(s: &mut [u8], i: usize, end: usize, v: u64)
    requires { end ≡ min (i + 8) (length s.old) }
    ensures { s.new ≡ sets s.old i (octets_of 8 (digits_of 64 v)) }
{
    let mut rest = v;
    for k in i..end {
        s[k] = (rest & 0xff) as u8;
        rest >>= 8;
    }
}

// The 64 bits from octet i on as one number, the first lowest: one load where there are eight octets.
pub fn word(s: &[u8], i: usize) -> u64
    ensures { WordRead s.now i result }
{
    if i < starts(s) {
        return by_octets(&s[i..i + 8]);
    }
    if s.len() <= i {
        return 0;
    }
    by_octets(&s[i..])
}

// The 64 bits from octet i on become those of v: one store where there are eight octets.
pub fn put_word(s: &mut [u8], i: usize, v: u64)
    ensures { WordPut s.old i v s.new }
{
    if i < starts(s) {
        put_octets(s, i, i + 8, v);
    } else {
        let end = s.len();
        put_octets(s, i, end, v);
    }
}

// The bits of eight octets, and the longest part that they hold at every place.
const WORD: u32 = 64;

const LONGEST: u32 = 56;

// The widest number in two's complement.
const WIDEST: u32 = 32;

// The 64 digits of x, where those of v stand from place r on, n of them.
fn replaced(x: u64, r: u32, n: u32, v: u64) -> u64
    requires { r + n ≤ 63 }
    ensures { digits_of 64 result ≡ take r (digits_of 64 x) ++ digits_of n v ++ drop (r + n) (digits_of 64 x) }
{
    let before = x % (1u64 << r);
    let field = v % (1u64 << n);
    let after = x >> (r + n);
    (after << (r + n)) | ((field << r) | before)
}

// The 64 bits from octet i on, with the n from the one r places behind the first on made the low digits of v. For all 64 nothing is loaded.
fn changed(s: &[u8], i: usize, r: u32, n: u32, v: u64) -> u64
    requires { r + n ≤ 64 - min r 1 }
    ensures { laid s.now (8 * i) (digits_of 64 result) ≡ laid s.now (8 * i + r) (digits_of n v) }
{
    if n == WORD {
        v
    } else {
        replaced(word(s, i), r, n, v)
    }
}

// Those n bits become the low digits of v.
fn put_part(s: &mut [u8], i: usize, r: u32, n: u32, v: u64)
    requires { r + n ≤ 64 - min r 1 }
    ensures { s.new ≡ laid s.old (8 * i + r) (digits_of n v) }
{
    let y = changed(s, i, r, n, v);
    put_word(s, i, y);
}

// The n bits from the one k places behind place `at` on as one number, the first lowest; no more than 56.
pub fn bits(s: &[u8], at: usize, k: u32, n: u32) -> u64
    ensures { BitsRead s.now at k n result }
{
    let m = n.min(LONGEST);
    let j = at % 8 + (k as usize);
    let x = word(s, at / 8 + j / 8) >> (j % 8);
    x % (1u64 << m)
}

// The bit k places behind place `at`.
pub fn bit(s: &[u8], at: usize, k: u32) -> u8
    ensures { BitRead s.now at k result }
{
    bits(s, at, k, 1) as u8
}

// The n bits from the one k places behind place `at` on become the low digits of v.
fn put_at(s: &mut [u8], at: usize, k: u32, n: u32, v: u64)
    requires { (at + k) % 8 + n ≤ 64 - min ((at + k) % 8) 1 }
    ensures { s.new ≡ laid s.old (at + k) (digits_of n v) }
{
    let j = at % 8 + (k as usize);
    put_part(s, at / 8 + j / 8, (j % 8) as u32, n, v);
}

// The n bits from the one k places behind place `at` on become the low digits of v, the lowest first; no more than 56.
pub fn put_bits(s: &mut [u8], at: usize, k: u32, n: u32, v: u64)
    ensures { BitsPut s.old at k n v s.new }
{
    put_at(s, at, k, n.min(LONGEST), v);
}

// The n bits from octet i on become the low digits of v, the lowest first; no more than 64.
pub fn put_front(s: &mut [u8], i: usize, n: u32, v: u64)
    ensures { FrontPut s.old i n v s.new }
{
    put_part(s, i, 0, n.min(WORD), v);
}

// The 64 bits from the one k places behind place `at` on as one number, the first lowest.
fn long(s: &[u8], at: usize, k: u32) -> u64
    ensures { result ≡ value_of (part (at + k) 64 (bits_of s.now)) }
{
    let j = at % 8 + (k as usize);
    let i = at / 8 + j / 8;
    let r = j % 8;
    ((word(s, i + 8) << (63 - r)) << 1) | (word(s, i) >> r)
}

// How many of the n bits from place `from` on are there.
fn there(s: &[u8], from: usize, n: u32) -> u32
    ensures { result ≡ min n (8 * length s.now - from) }
{
    if has(s, from, n) {
        return n;
    }
    if s.len() <= from / 8 {
        return 0;
    }
    ((s.len() - from / 8) * 8 - from % 8) as u32
}

// How many of n bits go next, from the one k places behind place `at` on: those before the next octet; at an octet 64, or what is left.
fn step(at: usize, k: u32, n: u32) -> u32
    ensures { (result ≤ n) × (min n 1 ≤ result) × ((at + k) % 8 + result ≤ 64 - min ((at + k) % 8) 1) }
{
    let r = ((at % 8 + (k as usize)) % 8) as u32;
    if r == 0 { n.min(WORD) } else { n.min(8 - r) }
}

// The n bits from place `at` on become those of the source from place `from` on, 64 at a time; past the source's end they stay.
fn copy_bits(s: &mut [u8], at: usize, source: &[u8], from: usize, n: u32)
    ensures { Copied s.old at source.now from n s.new }
{
    let all = there(source, from, n);
    let mut k: u32 = 0;
    // Stays: `step` says how far each turn goes, so there is nothing to count.
    while k < all {
        let m = step(at, k, all - k);
        put_at(s, at, k, m, long(source, from, k));
        k += m;
    }
}

// The octets from octet i on become those of the source from octet j on, so many. The compiler takes many at once.
fn copy_octets(s: &mut [u8], i: usize, source: &[u8], j: usize, count: usize)
    requires { (i + count ≤ length s.old) × (j + count ≤ length source.now) }
    ensures { s.new ≡ paste s.old i (drop j source.now) count }
{
    s[i..i + count].copy_from_slice(&source[j..j + count]);
}

// Whether n bits from a place of each on are whole octets that are there.
fn in_octets(s: &[u8], at: usize, source: &[u8], from: usize, n: u32) -> bool
    ensures { result ≡ true → (at % 8 ≡ 0) × (from % 8 ≡ 0) × (n % 8 ≡ 0) × (at / 8 + n / 8 ≤ length s.now)
        × (from / 8 + n / 8 ≤ length source.now) }
{
    at % 8 + from % 8 + (n % 8) as usize == 0
        && at / 8 + (n / 8) as usize <= s.len()
        && from / 8 + (n / 8) as usize <= source.len()
}

// The n bits from place `at` on become those of the source from place `from` on; past the source's end they stay. Whole octets that are all
// there go as octets.
pub fn copy(s: &mut [u8], at: usize, source: &[u8], from: usize, n: u32)
    ensures { Copied s.old at source.now from n s.new }
{
    if in_octets(s, at, source, from, n) {
        copy_octets(s, at / 8, source, from / 8, (n / 8) as usize);
    } else {
        copy_bits(s, at, source, from, n);
    }
}

// How many of the n bits from place `at` on stand before the next octet.
fn leading(at: usize, n: u32) -> u32
    ensures { result ≡ min n ((8 - at % 8) % 8) }
{
    n.min(((8 - at % 8) % 8) as u32)
}

// The octets from octet i to before octet `end` become 0, those that are there. The compiler fills them as one piece of memory.
fn fill(s: &mut [u8], i: usize, end: usize)
    ensures { s.new ≡ laid s.old (8 * i) (replicate (8 * (end - i)) 0) }
{
    let last = end.min(s.len());
    if i < last {
        s[i..last].fill(0);
    }
}

// The n bits from the one k places behind place `at` on become 0, fewer than 8. For none nothing is loaded.
fn put_zeros(s: &mut [u8], at: usize, k: u32, n: u32)
    requires { n < 8 }
    ensures { s.new ≡ laid s.old (at + k) (replicate n 0) }
{
    if n != 0 {
        put_at(s, at, k, n, 0);
    }
}

// The n bits from place `at` on become 0: those before an octet, whole octets, and those behind them.
pub fn clear(s: &mut [u8], at: usize, n: u32)
    ensures { Cleared s.old at n s.new }
{
    let head = leading(at, n);
    let last = (n - head) % 8;
    let i = at / 8 + (at % 8 + 7) / 8;
    put_zeros(s, at, 0, head);
    fill(s, i, i + ((n - head) / 8) as usize);
    put_zeros(s, at, n - last, last);
}

// Whether the octets from octet i to before octet `end` are all 0. The loop goes to its end, so the compiler takes many octets at once.
fn octets_clear(s: &[u8], i: usize, end: usize) -> bool
    ensures { result ≡ eqb (value_of (part (8 * i) (8 * (end - i)) (bits_of s.now))) 0 }
{
    let last = end.min(s.len());
    let mut all = 0u8;
    for k in i..last {
        all |= s[k];
    }
    all == 0
}

// Whether the n bits from place `at` on are all 0: those before an octet, those behind the last whole octet, and the octets between.
pub fn is_clear(s: &[u8], at: usize, n: u32) -> bool
    ensures { IsClear s.now at n result }
{
    let head = leading(at, n);
    let last = (n - head) % 8;
    let i = at / 8 + (at % 8 + 7) / 8;
    bits(s, at, 0, head) == 0
        && bits(s, at, n - last, last) == 0
        && octets_clear(s, i, i + ((n - head) / 8) as usize)
}

// The whole number that the w low digits of n stand for in two's complement: their value, less 2 to the power w where the highest is 1;
// a width over 32 counts as 32.
pub fn signed(w: u32, n: u32) -> i32
    ensures { Signed w n result }
{
    let size = 1u64 << w.min(WIDEST);
    let v = (n as u64) % size;
    let top = (v + v) / size;
    (v as i64 - (top * size) as i64) as i32
}

// The value of the 32 digits of a whole number in two's complement.
pub fn twos(v: i32) -> u32
    ensures { Twos v result }
{
    v.cast_unsigned()
}
