// What there is to tell of a code, by number. The first four are those of a run's attempt (startup).
// Stays: numbers, since `storytext::put_event` takes an event of any kind.

// A tick in which nothing changed.
pub const NOTHING: u32 = 0;
// An attempt opened.
pub const OPENED: u32 = 1;
// It ended in data mode.
pub const DATA: u32 = 2;
// It ended in the exception state.
pub const EXCEPTION: u32 = 3;
// Another phase was entered.
pub const ENTERED: u32 = 4;
// Abnormal in the exception state: its silence starts again.
pub const AGAIN: u32 = 5;
// A report was heard and the phase goes on.
pub const HEARD: u32 = 6;
// A report changed nothing.
pub const IGNORED: u32 = 7;
