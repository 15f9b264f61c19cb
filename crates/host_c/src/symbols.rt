// Symbols, as C calls them: levels, the encoder, the precoder and the shaper's float.
ghost use Rattle.precoder.specs.Runs.{PrecodesRun, DecodesRun};
ghost use Rattle.host.specs.Symbols.{ActivationLevelGiven, DataLevelGiven, CodeGiven};
ghost use Rattle.host.specs.Symbols.{EncoderStarted, SymbolEncoded, SymbolsEncoded, HistoryStarted, SampleShaped};

use host::symbols::{Code, Encoded, EncodedRun, Level, Shaped};

// The level of a bit during activation.
#[unsafe(no_mangle)]
pub extern "C" fn sdsl_activation_level(bit: u32) -> Level
    ensures { ActivationLevelGiven bit result }
{
    host::symbols::sdsl_activation_level(bit)
}

// The level of a code in data mode.
#[unsafe(no_mangle)]
pub extern "C" fn sdsl_data_level(code: u32) -> Level
    ensures { DataLevelGiven code result }
{
    host::symbols::sdsl_data_level(code)
}

// The code of a level.
#[unsafe(no_mangle)]
pub extern "C" fn sdsl_level_code(sixteenths: i32) -> Code
    ensures { CodeGiven sixteenths result }
{
    host::symbols::sdsl_level_code(sixteenths)
}

// The register that an encoder with these words starts with.
#[unsafe(no_mangle)]
pub extern "C" fn sdsl_encoder_start(a: u32, b: u32) -> EncodedRun
    ensures { EncoderStarted a b result }
{
    host::symbols::sdsl_encoder_start(a, b)
}

// One symbol.
#[unsafe(no_mangle)]
pub extern "C" fn sdsl_encode(a: u32, b: u32, register: u32, symbol: u32) -> Encoded
    ensures { SymbolEncoded a b register symbol result }
{
    host::symbols::sdsl_encode(a, b, register, symbol)
}

// Many symbols, an octet each; a code each comes back.
#[unsafe(no_mangle)]
pub extern "C" fn sdsl_encode_run(
    a: u32,
    b: u32,
    register: u32,
    symbols: &[u8],
    codes: &mut [u8],
) -> EncodedRun
    ensures { SymbolsEncoded a b register symbols.now codes.old result codes.new }
{
    host::symbols::sdsl_encode_run(a, b, register, symbols, codes)
}

// The history before the first symbol.
#[unsafe(no_mangle)]
pub extern "C" fn sdsl_history_start(history: &mut [u8]) -> u32
    ensures { HistoryStarted history.old result history.new }
{
    host::symbols::sdsl_history_start(history)
}

// Precodes samples, four octets each; the history moves on.
#[unsafe(no_mangle)]
pub extern "C" fn sdsl_precode(
    coefficients: &[u8],
    history: &mut [u8],
    xs: &[u8],
    ys: &mut [u8],
) -> u32
    ensures { PrecodesRun coefficients.now history.old xs.now ys.old result history.new
        ys.new }
{
    host::symbols::sdsl_precode(coefficients, history, xs, ys)
}

// The receiving end.
#[unsafe(no_mangle)]
pub extern "C" fn sdsl_unprecode(
    coefficients: &[u8],
    history: &mut [u8],
    ys: &[u8],
    xs: &mut [u8],
) -> u32
    ensures { DecodesRun coefficients.now history.old ys.now xs.old result history.new
        xs.new }
{
    host::symbols::sdsl_unprecode(coefficients, history, ys, xs)
}

// A sample for the shaper: exactly y / 131,072.
#[unsafe(no_mangle)]
pub extern "C" fn sdsl_shaper(y: i32) -> Shaped
    ensures { SampleShaped y result }
{
    host::symbols::sdsl_shaper(y)
}
