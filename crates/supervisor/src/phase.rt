// The phases of both ends by number, in the order of a start-up. An attempt is C_r to F_c. specs/Names.antt has the same names.
// Stays: numbers, since C hands in a state with any phase (sdsl_step), and one that its end has not is answered 4 (`state_refusals`).

// Either end: waits for a 1.
pub const READY: u32 = 0;
// NTU: before the attempt.
pub const GAP: u32 = 1;
// LTU: before the attempt.
pub const AWAIT: u32 = 2;
// NTU: opens the attempt.
pub const C_R: u32 = 3;
// LTU: opens the attempt.
pub const HEARING: u32 = 4;
// Either end, with a limit of its own.
pub const QUIET: u32 = 5;
// LTU.
pub const S_C: u32 = 6;
// NTU.
pub const S_R: u32 = 7;
// LTU.
pub const T_C: u32 = 8;
// NTU: the attempt's last.
pub const T_R: u32 = 9;
// LTU: the attempt's last.
pub const F_C: u32 = 10;
// Either end: data mode.
pub const SETTLING: u32 = 11;
// Either end.
pub const VALID: u32 = 12;
// Either end: silent.
pub const EXCEPTION: u32 = 13;
