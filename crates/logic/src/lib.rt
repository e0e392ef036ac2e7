//! The logic: what is true of a run after a history of events, and the laws that hold of it. The laws stand
//! on the contracts of the functions here, which do nothing else; their proofs are there for crates above.
//!
//! Rests on scales and lines. Read specs/History.antt, then specs/Truth.antt and specs/Rows.antt: these are the
//! definitions. specs/Readings.antt says each operation in sentences, specs/Worked.antt has worked cases.
#![tactic(auto)]

ghost use Rattle.logic.specs.Clear.{ClearStays, TruthsAreCodes};
ghost use Rattle.logic.specs.Reach.{BelowStays, NoGap, CountStops, RunsFollow};
ghost use Rattle.logic.specs.Readings.{LocalReadings, GlobalReadings};
ghost use Rattle.logic.specs.Steps.{RowStep, ReportRow, StartRow, CloseStays};
ghost use Rattle.logic.specs.TableMeans.{TableMeans};
ghost use Rattle.logic.specs.Worked.{WorkedCases, Pitfalls};

/// Each operation says what its sentence says, one step back at a time.
pub fn readings_hold()
    ensures local { LocalReadings }
    ensures global { GlobalReadings }
{}

/// A row comes line by line from the run's state, its earlier row and the row of the run before; so it does
/// after a report and a start. A start moves no run that is there, a close moves none at all.
pub fn rows_step()
    ensures step { RowStep }
    ensures report { ReportRow }
    ensures start { StartRow }
    ensures close { CloseStays }
{}

/// A report moves no run below its own, and the runs above that it moves follow without a gap: they are as many
/// as its reach says, less one.
pub fn reports_reach()
    ensures below { BelowStays }
    ensures above { NoGap }
    ensures stops { CountStops }
    ensures follow { RunsFollow }
{}

/// Clearer codes in the events give clearer truths, and a yes or no stays. Every truth is a code.
pub fn clear_codes_stay()
    ensures clear { ClearStays }
    ensures codes { TruthsAreCodes }
{}

/// The table of a form means what the form means, operation by operation.
pub fn tables_mean_forms()
    ensures { TableMeans }
{}

/// The definitions compute to what was worked out by hand.
pub fn worked_cases_stand()
    ensures cases { WorkedCases }
    ensures pitfalls { Pitfalls }
{}
