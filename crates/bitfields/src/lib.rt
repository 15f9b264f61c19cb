// Fields of bits in octets, read and put by the word (SCOPE, "The activation frame"): the first bit lowest. Every function takes
// every input: what lies past the end reads 0 and is not written, and a field's width over 32 counts as 32.
#![tactic(auto)]

ghost use Rattle.std.specs.Prelude.{◌≡◌, ◌*◌, ◌/◌, ◌%◌, ◌^◌, ◌<◌, ◌≤◌, min, pos, get_or};
ghost use Rattle.octets.specs.Bits.{value_of, bits_of, part};
ghost use Rattle.bitfields.specs.Fields.{Pushed};
ghost use Rattle.bitfields.specs.Promises.{FieldRead, FieldPut, SignedRead, SignedFieldsPut, Turned, Behind};

// The widest field.
const WIDEST: u32 = 32;

// The field of w bits from place `at` on, the first bit lowest.
pub fn field(s: &[u8], at: usize, w: u32) -> u32
    ensures { FieldRead s.now at w result }
{
    octets::bits(s, at, 0, w.min(WIDEST)) as u32
}

// The field of w bits from place `at` on becomes the w low digits of v, the lowest first.
pub fn put_field(s: &mut [u8], at: usize, w: u32, v: u32)
    ensures { FieldPut s.old at w v s.new }
{
    octets::put_bits(s, at, 0, w.min(WIDEST), u64::from(v));
}

// The field of w bits from place `at` on, in two's complement.
pub fn signed_field(s: &[u8], at: usize, w: u32) -> i32
    ensures { SignedRead s.now at w result }
{
    octets::signed(w, field(s, at, w))
}

// Bits that are not in memory yet, the first lowest: so many of them, and the octet that they begin at.
#[derive(Drop)]
pub struct Window {
    pub octet: usize,
    pub held: u64,
    pub count: u32,
}

// One field more behind those that a window holds; where there are 64 bits then, they go to memory as eight octets.
fn pushed(s: &mut [u8], window: Window, w: u32, v: u32) -> Window
    requires { (window.count < 64) × (window.held < 2 ^ window.count) × (window.octet < 2 ^ 63) × (w ≤ 32) }
    ensures { Pushed s.old window w v s.new result }
{
    let octet = window.octet;
    let count = window.count;
    let field = (v as u64) % (1u64 << w);
    let all = (field << count) | window.held;
    if count + w < 64 {
        return Window {
            octet,
            held: all,
            count: count + w,
        };
    }
    octets::put_word(s, octet, all);
    Window {
        octet: octet + 8,
        held: field >> (64 - count),
        count: count + w - 64,
    }
}

// The window that fields from place `at` on begin with: the bits of its octet that lie before it.
fn opened(s: &[u8], at: usize) -> Window
    ensures { result ≡ record { octet = at / 8; held = value_of (part (8 * (at / 8)) (at % 8) (bits_of s.now)); count = at % 8 } }
{
    let count = (at % 8) as u32;
    Window {
        octet: at / 8,
        held: octets::word(s, at / 8) % (1u64 << count),
        count,
    }
}

// The fields of n numbers, w bits each, one behind the other from place `at` on, in two's complement: the numbers given, and zero where there are
// fewer. They go through a window of 64 bits, so that no octet is read back.
pub fn put_signed_fields(s: &mut [u8], at: usize, w: u32, numbers: &[i32], n: u32)
    ensures { SignedFieldsPut s.old at w numbers.now n s.new }
{
    let width = w.min(WIDEST);
    let mut window = opened(s, at);
    for k in 0..n {
        let number = numbers.get(k as usize).copied().unwrap_or(0);
        let v = octets::twos(number);
        window = pushed(s, window, width, v);
    }
    octets::put_front(s, window.octet, window.count, window.held);
}

// The w low digits of v in the opposite order: the lowest becomes the highest.
pub fn turned(w: u32, v: u32) -> u32
    ensures { Turned w v result }
{
    let mut r = 0;
    let mut rest = v;
    for _ in 0..w.min(WIDEST) {
        r = r * 2 + rest % 2;
        rest /= 2;
    }
    r
}

// The place behind a field of w bits at place `at`; the last one where there is none.
pub fn behind(at: usize, w: u32) -> usize
    ensures { Behind at w result }
{
    at.saturating_add(w.min(WIDEST) as usize)
}
