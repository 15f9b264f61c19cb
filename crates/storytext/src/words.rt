// The phrases of a story's text, a row each, counted from 0 (crate phrases): # is the phrase's number, @ the same in seconds, $ ends a line.
// Stays: rows are numbers, since most are found by adding a code's, kind's or phase's number to the first of their rows (`KINDS + kind`).

// No phrase, in either table.
pub const NONE: u32 = 0;

// The line of an event. A code's row is its number, with one behind them for what is no report; a kind's is 10 more than its number, and a
// phase's 19 more, each with rows behind it for those that do not go by number alone.
pub const EVENT: [u8; 875] = *b"\
    \n\
    code #, pre-activation ended: \n\
    code #, C_r begins: \n\
    code #, C_r has ended: \n\
    code #, own receiver converged: \n\
    code #, T_c seen: \n\
    code #, T_r seen: \n\
    code #, second F_c frame over: \n\
    code #, abnormal: \n\
    code #, : \n\n\
    opens: \n\
    ends in data mode: \n\
    ends in exception: \n\n\
    silence starts again: \n\
    heard, still \n\
    changes nothing, still \n\
    time is up, ends in exception: \n\
    Ready (until code 1, pre-activation ended)\n\
    Gap (0.300 s)\n\
    Await (until code 2, C_r begins)\n\
    C_r (1.000 s)\n\
    Hearing (until code 3, C_r has ended)\n\
    Quiet (0.500 s)\n\
    S_c (5.000 s and until code 4, own receiver converged)\n\
    S_r (until code 4, own receiver converged, and code 5, T_c seen)\n\
    T_c (until code 6, T_r seen)\n\
    T_r (until code 7, second F_c frame over)\n\
    F_c (until code 7, second F_c frame over)\n\
    Settling (1.000 s)\n\
    Valid (until code 8, abnormal)\n\
    Exception (silent for @ s)\n\
    Quiet (1.500 s)\n\
    no phase\n\
    attempt #, \n\
    tick # (@ s): \n\
    $\n";

// A code that is no report.
pub const CODE: u32 = 9;

// What an event of kind 0 is.
pub const KINDS: u32 = 10;

// An attempt whose time is up.
pub const LATE: u32 = 18;

// Phase 0.
pub const PHASES: u32 = 19;

// Quiet at the NTU.
pub const QUIET_NTU: u32 = 33;

// What is no phase.
pub const NO_PHASE: u32 = 34;

// The attempt's number.
pub const ATTEMPT: u32 = 35;

// A tick.
pub const TICK: u32 = 36;

// The end of the line.
pub const END_OF_LINE: u32 = 37;

// The end of the log. What a phase lacks has the row of its number (specs/Attempts.antt), and the name of a phase one that is 10 more.
pub const END: [u8; 735] = *b"\
    \n\
    : C_r has not ended\n\
    : own receiver has not converged\n\
    : T_c has not been seen\n\
    : own receiver has not converged, and T_c has not been seen\n\
    : T_r has not been seen\n\
    : the second F_c frame is not over\n\
    end of log at tick # (@ s)$\n\
    attempt # is still trying in \n\
    attempt # ended in \n\n\n\n\
    C_r\n\
    Hearing\n\
    Quiet\n\
    S_c\n\
    S_r\n\
    T_c\n\
    T_r\n\
    F_c\n\
    , @ s of 15.000 s used\n\
    , @ s left\n\
    data mode after @ s\n\
    exception after @ s\n\
    : time was up in \n\
    : code 8, abnormal, came in \n\
    ; code 8, abnormal, ended data mode; \n\
    ; \n\
    still waiting in Ready for pre-activation to end, @ s so far\n\
    still waiting in Gap for the attempt to open, @ s so far\n\
    still waiting in Await for C_r, @ s so far\n\
    still silent in Exception, @ s so far\n\
    still in data mode, @ s so far\n\
    : C_r has not been heard\n\
    $\n";

// The log's last tick.
pub const LAST_TICK: u32 = 7;

// An attempt that is still trying.
pub const TRYING: u32 = 8;

// One that has ended.
pub const ENDED: u32 = 9;

// The name of phase 0, if it were one of an attempt.
pub const NAMES: u32 = 10;

// Time that is used of an attempt.
pub const USED: u32 = 21;

// Time that is left.
pub const LEFT: u32 = 22;

// Data mode, after how long.
pub const DATA: u32 = 23;

// The exception state, after how long.
pub const EXCEPTION: u32 = 24;

// What ended an attempt: its time.
pub const TIME_UP: u32 = 25;

// An 8.
pub const ABNORMAL: u32 = 26;

// What ended data mode.
pub const DATA_ENDED: u32 = 27;

// What came then.
pub const THEN: u32 = 28;

// Phase 0, for how long.
pub const WAITING: u32 = 29;

// The exception state, for how long.
pub const SILENT: u32 = 32;

// Data mode, for how long.
pub const IN_DATA: u32 = 33;

// What has not come in Await.
pub const UNHEARD: u32 = 34;

// The end of the line.
pub const OVER: u32 = 35;

// The line of a refusal: the reasons' rows are the answers' numbers.
pub const REFUSED: [u8; 150] = *b"\n\
    : the log has more than 1048576 octets\n\
    : this line is no code\n\n\
    : no line counts so many ticks, or the log has over 1000000000\n\
    refused # at line \n#\n$\n";

// What is refused.
pub const REFUSAL: u32 = 5;

// The number of the log's line.
pub const LINE: u32 = 6;

// The end of the line.
pub const LINE_OVER: u32 = 7;
