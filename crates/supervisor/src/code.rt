// The nine codes that a step takes (clauses 4.1.2 and 4.1.8): a millisecond, and eight reports that take no time.
// Stays: numbers, since C hands in any code (sdsl_step), and one above 8 is answered 2 (`step_refusals`).

// One millisecond.
pub const TICK: u32 = 0;
// Pre-activation has ended.
pub const PRE_ACTIVATED: u32 = 1;
// C_r begins.
pub const C_R_BEGINS: u32 = 2;
// C_r has ended.
pub const C_R_ENDED: u32 = 3;
// The card's own receiver has converged.
pub const CONVERGED: u32 = 4;
// T_c is seen.
pub const T_C_SEEN: u32 = 5;
// T_r is seen.
pub const T_R_SEEN: u32 = 6;
// The second F_c frame is over.
pub const F_C_OVER: u32 = 7;
// Something abnormal: the highest code.
pub const ABNORMAL: u32 = 8;
