// The check sequence of an operations channel message (002, clause 10.5.5.4; RFC 1662, FCS-16).
#![tactic(auto)]

ghost use Rattle.std.specs.Prelude.{◌≡◌, reverse, ◌≤◌, length, take};
ghost use Rattle.octets.specs.Bits.{digits_of, value_of};
ghost use Rattle.fcs.specs.Sequence.{register};
ghost use Rattle.fcs.specs.Promises.{Sequenced};

// Sixteen ones: the register's start, and what turns it over.
const ONES: u32 = 0xffff;

// The octets of a word.
const WORD_OCTETS: u16 = 8;

// The octets of a message without contents: addresses and number.
const BARE: u16 = 2;

// The register after n octets, turned round, where a word holds them: the ones are added to the first of them, and they are moved up to the
// word's end. The zeros before them count for nothing.
fn short(s: &[u8], n: u16) -> u32
    requires { (2 ≤ n) × (n ≤ 8) × (n ≤ length s.now) }
    ensures { result ≡ value_of (reverse (digits_of 16 (register (take n s.now)))) }
{
    let x = octets::word(s, 0) ^ (ONES as u64);
    remainder::word_left(x << (remainder::WORD - 8 * (n as u32)))
}

// The register after the first two octets, turned round: all that a request without contents has. The compiler makes one load of them and a
// few shifts.
fn bare(s: &[u8]) -> u32
    requires { 2 ≤ length s.now }
    ensures { result ≡ value_of (reverse (digits_of 16 (register (take 2 s.now)))) }
{
    short(&s[0..2], BARE)
}

// The register after n octets, turned round. Nothing past the end counts.
fn long(s: &[u8], n: u16) -> u32
    ensures { result ≡ value_of (reverse (digits_of 16 (register (take n s.now)))) }
{
    let left = remainder::from_start(
        remainder::GENERATOR,
        remainder::DEGREE,
        ONES,
        s,
        0,
        8 * u32::from(n),
    )
    .unwrap();
    bitfields::turned(remainder::DEGREE, left)
}

// The register after n octets, turned round, the shortest way. Everything else takes the long way through one branch, so that two octets
// need no stack frame.
fn behind_ones(s: &[u8], n: u16) -> u32
    ensures { result ≡ value_of (reverse (digits_of 16 (register (take n s.now)))) }
{
    let few = s.len() < (n as usize);
    if !few & (n == BARE) {
        return bare(s);
    }
    if few | (n < BARE) | (WORD_OCTETS < n) {
        return long(s, n);
    }
    short(s, n)
}

// The check sequence of the first n octets, its first octet low: of two octets as they are sent, the first is r % 256 and the second r / 256.
// Nothing past the end counts.
pub fn sequence(s: &[u8], n: u16) -> u32
    ensures { Sequenced s.now n result }
{
    ONES - behind_ones(s, n)
}
