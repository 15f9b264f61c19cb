// Signed numbers as the card's host lends them: four octets each, low octet first, in two's complement (SCOPE, "The activation
// frame").
#![tactic(auto)]

ghost use Rattle.std.specs.Prelude.{◌≡◌, ◌<◌};
ghost use Rattle.numbers.specs.Promises.{NumberRead, NumberPut, NumbersRead, NumbersPut};

// The octets of a number, and of as many as there are coefficients and remembered outputs: 720.
pub const NUMBER_OCTETS: usize = 4;

pub const COEFFICIENT_OCTETS: usize = NUMBER_OCTETS * ranges::COEFFICIENTS;

// Number k of octets, the first being number 0; where there is none it is 0.
pub fn number(octets: &[u8], k: usize) -> i32
    ensures { NumberRead octets.now k result }
{
    if octets.len() / NUMBER_OCTETS <= k {
        return 0;
    }
    let at = NUMBER_OCTETS * k;
    i32::from_le_bytes([octets[at], octets[at + 1], octets[at + 2], octets[at + 3]])
}

// Number k of octets becomes z; where there is none, nothing changes.
pub fn put_number(octets: &mut [u8], k: usize, z: i32)
    ensures { NumberPut octets.old k z octets.new }
{
    if k < octets.len() / NUMBER_OCTETS {
        let at = NUMBER_OCTETS * k;
        let [a, b, c, d] = z.to_le_bytes();
        octets[at..at + NUMBER_OCTETS].copy_from_slice(&[a, b, c, d]);
    }
}

// The first 180 numbers of octets, as many as there are coefficients and remembered outputs; where there are fewer they are 0.
pub fn numbers(octets: &[u8]) -> [i32; ranges::COEFFICIENTS]
    ensures { NumbersRead octets.now result }
{
    let mut into = [0i32; ranges::COEFFICIENTS];
    for k in 0..ranges::COEFFICIENTS {
        into[k] = number(octets, k);
    }
    into
}

// As many of some numbers as there is room for, into octets from the first on.
pub fn put_numbers(octets: &mut [u8], numbers: &[i32])
    ensures { NumbersPut octets.old numbers.now octets.new }
{
    for (k, &z) in numbers.iter().enumerate() {
        if octets.len() / NUMBER_OCTETS <= k {
            return;
        }
        put_number(octets, k, z);
    }
}
