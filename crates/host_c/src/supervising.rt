// The start-up supervisor, as C calls it.
ghost use Rattle.host.specs.Supervising.{Started, StateStepped, CodesRun};

use host::supervising::{Run, Stepped, Supervisor};

// Starts a supervisor.
#[unsafe(no_mangle)]
pub extern "C" fn sdsl_start(end: u32, silence: u32) -> Stepped
    ensures { Started end silence result }
{
    host::supervising::sdsl_start(end, silence)
}

// One code.
#[unsafe(no_mangle)]
pub extern "C" fn sdsl_step(state: Supervisor, code: u32) -> Stepped
    ensures { StateStepped state code result }
{
    host::supervising::sdsl_step(state, code)
}

// A list of codes, an octet each.
#[unsafe(no_mangle)]
pub extern "C" fn sdsl_run_codes(state: Supervisor, codes: &[u8]) -> Run
    ensures { CodesRun state codes.now result }
{
    host::supervising::sdsl_run_codes(state, codes)
}
