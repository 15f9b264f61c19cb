// The rules of the phases (000, clauses 4.1.2 and 4.1.8): a small method for each, by a match on the report code. specs/Phases.antt is their table.
ghost use Rattle.std.specs.Prelude.{◌≡◌, cond, ◌&&◌, ◌+◌, leb, eqb};
ghost use Rattle.supervisor.specs.Limits.{attempt_ticks};
ghost use Rattle.supervisor.specs.Names.{Ready, Gap, Await, Cr, Hearing, Quiet, Sc, Sr, Tc, Tr, Fc, Settling, Valid, Exception};
ghost use Rattle.supervisor.specs.Phases.{ntu_phases, ltu_phases, row_of};
ghost use Rattle.supervisor.specs.Rules.{changed, entered, counted, acted, moved};

use crate::{Legal, Supervisor, code, phase};

impl Legal {
    // What a code does to a legal state: the rule of its phase.
    pub(crate) fn moved(self, code: u32) -> Supervisor
        ensures { result ≡ moved self.state code }
    {
        let phase = self.state.phase;
        match phase {
            phase::READY => self.in_ready(code),
            phase::GAP => self.in_gap(code),
            phase::AWAIT => self.in_await(code),
            phase::C_R => self.in_cr(code),
            phase::HEARING => self.in_hearing(code),
            phase::QUIET => self.in_quiet(code),
            phase::S_C => self.in_sc(code),
            phase::S_R => self.in_sr(code),
            phase::T_C => self.in_tc(code),
            phase::T_R => self.in_tr(code),
            phase::F_C => self.in_fc(code),
            phase::SETTLING => self.in_settling(code),
            phase::VALID => self.in_valid(code),
            _ => self.in_exception(code),
        }
    }

    // A phase is entered: its ticks are 0 and its marks unheard, whatever was heard before it. The end and the silence stay.
    fn entered(self, phase: u32, attempt: u32) -> Supervisor
        ensures { result ≡ entered self.state phase attempt }
    {
        Supervisor {
            end: self.state.end,
            phase,
            ticks: 0,
            attempt,
            silence: self.state.silence,
            converged: 0,
            seen: 0,
        }
    }

    // The phase goes on after a tick, held at 59,999.
    fn counted(self, attempt: u32) -> Supervisor
        ensures { result ≡ counted self.state attempt }
    {
        Supervisor {
            ticks: (self.state.ticks + 1).min(Supervisor::MOST_TICKS),
            attempt,
            ..self.state
        }
    }

    // A tick in a phase outside an attempt: the limit is tested first, the hold second.
    fn waited(self, limit: u32, next: u32) -> Supervisor
        ensures { result ≡ cond (leb limit (self.state.ticks + 1)) (entered self.state next 0) (counted self.state self.state.attempt) }
    {
        if limit <= self.state.ticks + 1 {
            self.entered(next, 0)
        } else {
            self.counted(self.state.attempt)
        }
    }

    // A tick in an attempt: the 15,000th ends it, even where it would have ended the phase. The phase is over where its reports are heard and it has lasted.
    fn tried(self, heard: bool, lasts: u32, next: u32) -> Supervisor
        ensures { result ≡ cond (leb attempt_ticks (self.state.attempt + 1)) (entered self.state Exception 0)
            (cond (heard && leb lasts (self.state.ticks + 1)) (entered self.state next (self.state.attempt + 1))
            (counted self.state (self.state.attempt + 1))) }
    {
        let attempt = self.state.attempt + 1;
        let over = heard && (lasts <= self.state.ticks + 1);
        if Supervisor::ATTEMPT <= attempt {
            self.entered(phase::EXCEPTION, 0)
        } else if over {
            self.entered(next, attempt)
        } else {
            self.counted(attempt)
        }
    }

    // A report that a phase of an attempt awaits: with it the phase is over, or goes on with these marks.
    fn told(self, over: bool, next: u32, converged: u32, seen: u32) -> Supervisor
        ensures { result ≡ cond over (entered self.state next self.state.attempt)
            (changed self.state self.state.phase self.state.ticks self.state.attempt converged seen) }
    {
        if over {
            self.entered(next, self.state.attempt)
        } else {
            Supervisor {
                converged,
                seen,
                ..self.state
            }
        }
    }

    // Ready until 1, which starts Gap at the NTU and Await at the LTU.
    fn in_ready(self, code: u32) -> Supervisor
        ensures { result ≡ cond (eqb self.state.end 1)
            (acted (row_of Ready (ntu_phases self.state.silence)) self.state code) (acted (row_of Ready (ltu_phases self.state.silence)) self.state code) }
    {
        match code {
            code::PRE_ACTIVATED => if self.state.end == Supervisor::NTU {
                self.entered(phase::GAP, 0)
            } else {
                self.entered(phase::AWAIT, 0)
            },
            code::ABNORMAL => self.entered(phase::EXCEPTION, 0),
            _ => self.state,
        }
    }

    // NTU: Gap, 300 ticks.
    fn in_gap(self, code: u32) -> Supervisor
        ensures { result ≡ acted (row_of Gap (ntu_phases self.state.silence)) self.state code }
    {
        match code {
            code::TICK => self.waited(Supervisor::GAP, phase::C_R),
            code::ABNORMAL => self.entered(phase::EXCEPTION, 0),
            _ => self.state,
        }
    }

    // LTU: Await until 2. The attempt opens with it.
    fn in_await(self, code: u32) -> Supervisor
        ensures { result ≡ acted (row_of Await (ltu_phases self.state.silence)) self.state code }
    {
        match code {
            code::C_R_BEGINS => self.entered(phase::HEARING, 0),
            code::ABNORMAL => self.entered(phase::EXCEPTION, 0),
            _ => self.state,
        }
    }

    // NTU: C_r, 1,000 ticks.
    fn in_cr(self, code: u32) -> Supervisor
        ensures { result ≡ acted (row_of Cr (ntu_phases self.state.silence)) self.state code }
    {
        match code {
            code::TICK => self.tried(true, Supervisor::C_R, phase::QUIET),
            code::ABNORMAL => self.entered(phase::EXCEPTION, 0),
            _ => self.state,
        }
    }

    // LTU: Hearing until 3.
    fn in_hearing(self, code: u32) -> Supervisor
        ensures { result ≡ acted (row_of Hearing (ltu_phases self.state.silence)) self.state code }
    {
        match code {
            code::TICK => self.tried(false, 0, phase::QUIET),
            code::C_R_ENDED => self.entered(phase::QUIET, self.state.attempt),
            code::ABNORMAL => self.entered(phase::EXCEPTION, 0),
            _ => self.state,
        }
    }

    // Quiet, 1,500 ticks at the NTU and 500 at the LTU.
    fn in_quiet(self, code: u32) -> Supervisor
        ensures { result ≡ cond (eqb self.state.end 1)
            (acted (row_of Quiet (ntu_phases self.state.silence)) self.state code) (acted (row_of Quiet (ltu_phases self.state.silence)) self.state code) }
    {
        match code {
            code::TICK => if self.state.end == Supervisor::NTU {
                self.tried(true, Supervisor::NTU_QUIET, phase::S_R)
            } else {
                self.tried(true, Supervisor::LTU_QUIET, phase::S_C)
            },
            code::ABNORMAL => self.entered(phase::EXCEPTION, 0),
            _ => self.state,
        }
    }

    // NTU: S_r until both 4 and 5 have come, in either order, during S_r.
    fn in_sr(self, code: u32) -> Supervisor
        ensures { result ≡ acted (row_of Sr (ntu_phases self.state.silence)) self.state code }
    {
        let converged = self.state.converged;
        let seen = self.state.seen;
        match code {
            code::TICK => self.tried(converged != 0 && seen != 0, 0, phase::T_R),
            code::CONVERGED => self.told(seen != 0, phase::T_R, 1, seen),
            code::T_C_SEEN => self.told(converged != 0, phase::T_R, converged, 1),
            code::ABNORMAL => self.entered(phase::EXCEPTION, 0),
            _ => self.state,
        }
    }

    // LTU: S_c until it has lasted 5,000 ticks and 4 has come during it.
    fn in_sc(self, code: u32) -> Supervisor
        ensures { result ≡ acted (row_of Sc (ltu_phases self.state.silence)) self.state code }
    {
        match code {
            code::TICK => self.tried(self.state.converged != 0, Supervisor::S_C, phase::T_C),
            code::CONVERGED => self.told(
                Supervisor::S_C <= self.state.ticks,
                phase::T_C,
                1,
                self.state.seen,
            ),
            code::ABNORMAL => self.entered(phase::EXCEPTION, 0),
            _ => self.state,
        }
    }

    // NTU: T_r until 7. The attempt ends in data mode.
    fn in_tr(self, code: u32) -> Supervisor
        ensures { result ≡ acted (row_of Tr (ntu_phases self.state.silence)) self.state code }
    {
        match code {
            code::TICK => self.tried(false, 0, Supervisor::DATA_MODE),
            code::F_C_OVER => self.entered(Supervisor::DATA_MODE, 0),
            code::ABNORMAL => self.entered(phase::EXCEPTION, 0),
            _ => self.state,
        }
    }

    // LTU: T_c until 6.
    fn in_tc(self, code: u32) -> Supervisor
        ensures { result ≡ acted (row_of Tc (ltu_phases self.state.silence)) self.state code }
    {
        match code {
            code::TICK => self.tried(false, 0, phase::F_C),
            code::T_R_SEEN => self.entered(phase::F_C, self.state.attempt),
            code::ABNORMAL => self.entered(phase::EXCEPTION, 0),
            _ => self.state,
        }
    }

    // LTU: F_c until 7. The attempt ends in data mode.
    fn in_fc(self, code: u32) -> Supervisor
        ensures { result ≡ acted (row_of Fc (ltu_phases self.state.silence)) self.state code }
    {
        match code {
            code::TICK => self.tried(false, 0, Supervisor::DATA_MODE),
            code::F_C_OVER => self.entered(Supervisor::DATA_MODE, 0),
            code::ABNORMAL => self.entered(phase::EXCEPTION, 0),
            _ => self.state,
        }
    }

    // Settling, 1,000 ticks.
    fn in_settling(self, code: u32) -> Supervisor
        ensures { result ≡ acted (row_of Settling (ntu_phases self.state.silence)) self.state code }
    {
        match code {
            code::TICK => self.waited(Supervisor::SETTLING, phase::VALID),
            code::ABNORMAL => self.entered(phase::EXCEPTION, 0),
            _ => self.state,
        }
    }

    // Valid until an 8.
    fn in_valid(self, code: u32) -> Supervisor
        ensures { result ≡ acted (row_of Valid (ntu_phases self.state.silence)) self.state code }
    {
        match code {
            code::ABNORMAL => self.entered(phase::EXCEPTION, 0),
            _ => self.state,
        }
    }

    // Exception for the silence. An 8 starts it again: that is no change of phase, so the rest stays as handed in.
    fn in_exception(self, code: u32) -> Supervisor
        ensures { result ≡ acted (row_of Exception (ntu_phases self.state.silence)) self.state code }
    {
        match code {
            code::TICK => self.waited(self.state.silence, phase::READY),
            code::ABNORMAL => Supervisor {
                ticks: 0,
                ..self.state
            },
            _ => self.state,
        }
    }
}
