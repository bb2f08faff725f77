//! Laws that hold for every run and all reports: the contracts of functions that do nothing.
ghost use Rattle.std.specs.Prelude.{ℕ, Bool, List};
ghost use Rattle.line_filter.specs.Speaking.{IsSilent};
ghost use Rattle.line_filter.specs.Reporting.{ToldLine, GoOn, GoesOnOrWaits};
ghost use Rattle.line_filter.specs.Runs.{State, Runs};
ghost use Rattle.line_filter.specs.Laws.{Speaks, answers_along};

use crate::terminal::LineTerminal;

/// The octets sent are the stuffing of the units that the terminal returned along the run, and 1s if it had none.
pub fn what_goes_out_was_said<T: LineTerminal>()
    ensures { (count : ℕ) (s t : State T) (come out : List ℕ) (bytes : List ToldLine) (goes_on : Bool) → IsSilent s.voice
        → (r : Runs T.acts count s come out bytes goes_on t) → Speaks (answers_along r) out t.voice }
{}

/// Of the lines reported while the reader may be away, each that has to wait is written or waits: once, whole and in
/// order. Of the others, those not counted as lost are written or wait in their places.
pub fn what_waits_is_never_lost()
    ensures { (gone later : List ℕ) (waits left : List ToldLine) (lost more : ℕ) (lines : List ToldLine) → GoOn gone waits lost lines later left more
        → GoesOnOrWaits gone waits lost lines later left more }
{}
