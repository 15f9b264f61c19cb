// Symbols for C (clauses 4.1.6, 4.3.3, 4.3.4): levels, the encoder, the precoder and the shaper's float. Each export is a function of a
// crate below, on the same numbers.
ghost use Rattle.std.specs.Prelude.{◌≡◌};
ghost use Rattle.precoder.specs.Runs.{PrecodesRun, DecodesRun};
ghost use Rattle.host.specs.Symbols.{level_of, ActivationLevelGiven, DataLevelGiven, CodeGiven};
ghost use Rattle.host.specs.Symbols.{EncoderStarted, SymbolEncoded, SymbolsEncoded, HistoryStarted, SampleShaped};

use crate::answered;
use answer::Refused;
use symbol::Encoder;

// A history's octets.
const HISTORY_OCTETS: usize = 720;

// A level in sixteenths, with the answer first.
#[repr(C)]
#[derive(Drop)]
pub struct Level {
    pub answer: u32,
    pub sixteenths: i32,
}

// A code Y3..Y0, with the answer first.
#[repr(C)]
#[derive(Drop)]
pub struct Code {
    pub answer: u32,
    pub code: u32,
}

// What one symbol gives. The words A and B do not come back: the caller has them.
#[repr(C)]
#[derive(Drop)]
pub struct Encoded {
    pub answer: u32,
    pub code: u32,
    pub sixteenths: i32,
    pub register: u32,
}

// What a start and many symbols give, beside their codes.
#[repr(C)]
#[derive(Drop)]
pub struct EncodedRun {
    pub answer: u32,
    pub register: u32,
}

// A sample for the shaper, with the answer first.
#[repr(C)]
#[derive(Drop)]
pub struct Shaped {
    pub answer: u32,
    pub value: f32,
}

// What C is given of a level: 0 sixteenths with a refusal.
impl From<Result<i32, Refused>> for Level {
    ghost from_gives = { λ found level. level ≡ level_of found };

    fn from(found: Result<i32, Refused>) -> Level {
        match found {
            Ok(sixteenths) => Level {
                answer: answer::DONE,
                sixteenths,
            },
            Err(no) => Level {
                answer: no.number(),
                sixteenths: 0,
            },
        }
    }
}

// The level of a bit during activation.
pub fn sdsl_activation_level(bit: u32) -> Level
    ensures { ActivationLevelGiven bit result }
{
    Level::from(symbol::activation_level(bit))
}

// The level of a code in data mode.
pub fn sdsl_data_level(code: u32) -> Level
    ensures { DataLevelGiven code result }
{
    Level::from(symbol::data_level(code))
}

// The code of a level.
pub fn sdsl_level_code(sixteenths: i32) -> Code
    ensures { CodeGiven sixteenths result }
{
    match symbol::level_code(sixteenths) {
        Ok(code) => Code {
            answer: answer::DONE,
            code,
        },
        Err(no) => Code {
            answer: no.number(),
            code: 0,
        },
    }
}

// The register that an encoder with these words starts with.
pub fn sdsl_encoder_start(a: u32, b: u32) -> EncodedRun
    ensures { EncoderStarted a b result }
{
    match Encoder::start(a, b) {
        Ok(first) => EncodedRun {
            answer: answer::DONE,
            register: first.register,
        },
        Err(no) => EncodedRun {
            answer: no.number(),
            register: Encoder::START,
        },
    }
}

// One symbol.
pub fn sdsl_encode(a: u32, b: u32, register: u32, symbol: u32) -> Encoded
    ensures { SymbolEncoded a b register symbol result }
{
    match (Encoder { a, b, register }).step(symbol) {
        Ok(step) => Encoded {
            answer: answer::DONE,
            code: step.code,
            sixteenths: step.sixteenths,
            register: step.next.register,
        },
        Err(no) => Encoded {
            answer: no.number(),
            code: 0,
            sixteenths: 0,
            register,
        },
    }
}

// Many symbols, an octet each; a code each comes back.
pub fn sdsl_encode_run(
    a: u32,
    b: u32,
    register: u32,
    symbols: &[u8],
    codes: &mut [u8],
) -> EncodedRun
    ensures { SymbolsEncoded a b register symbols.now codes.old result codes.new }
{
    match (Encoder { a, b, register }).run(symbols, codes) {
        Ok(next) => EncodedRun {
            answer: answer::DONE,
            register: next.register,
        },
        Err(no) => EncodedRun {
            answer: no.number(),
            register,
        },
    }
}

// The history before the first symbol.
pub fn sdsl_history_start(history: &mut [u8]) -> u32
    ensures { HistoryStarted history.old result history.new }
{
    if history.len() != HISTORY_OCTETS {
        return Refused::Length.number();
    }
    let past = samples::start();
    numbers::put_numbers(history, &past);
    answer::DONE
}

// Precodes samples, four octets each; the history moves on.
pub fn sdsl_precode(coefficients: &[u8], history: &mut [u8], xs: &[u8], ys: &mut [u8]) -> u32
    ensures { PrecodesRun coefficients.now history.old xs.now ys.old result history.new
        ys.new }
{
    answered(precoder::precode_run(coefficients, history, xs, ys))
}

// The receiving end.
pub fn sdsl_unprecode(coefficients: &[u8], history: &mut [u8], ys: &[u8], xs: &mut [u8]) -> u32
    ensures { DecodesRun coefficients.now history.old ys.now xs.old result history.new
        xs.new }
{
    answered(precoder::decode_run(coefficients, history, ys, xs))
}

// A sample for the shaper: exactly y / 131,072.
pub fn sdsl_shaper(y: i32) -> Shaped
    ensures { SampleShaped y result }
{
    match samples::shaper(y) {
        Ok(value) => Shaped {
            answer: answer::DONE,
            value,
        },
        Err(outside) => Shaped {
            answer: outside.number(),
            value: 0.0,
        },
    }
}
