//! The worked cases, as one theorem about the definitions: from the bytes of a policy text to the answers that a list of
//! calls gets, computed.
//!
//! Rests on `text` for what a text means, and on `meaning` for what calls are answered.
#![tactic(auto)]

ghost use Rattle.worked.specs.Cases.{WorkedCases};

/// Every worked case comes out as it is written in specs/Cases.antt.
pub fn worked_cases_stand()
    ensures { WorkedCases }
{}
