//! The grammar of a policy text over its signs, and what reading a text must come to.
//!
//! specs/Grammar.antt has the grammar as a relation, one constructor for each production; specs/Limits.antt the limits;
//! specs/Machine.antt the reading sign by sign as a definition that computes. The law that ties them is
//! specs/Reading.antt: a text is accepted exactly when its signs derive a policy within the limits, and refused at the
//! first thing that is wrong; a sign fits where the signs up to it begin some policy. Rests on `signs` and `lines`.
#![tactic(auto)]

ghost use Rattle.grammar.specs.Reading.{ReadsRight, ReadsOnlyRight, OneReading};

mod fault;

pub use fault::GrammarFault;

/// Every text comes to what is right of it, and nothing else is right of it.
pub fn readings_are_right()
    ensures right { ReadsRight }
    ensures only { ReadsOnlyRight }
{}

/// A list of signs is a policy in at most one way.
pub fn one_reading()
    ensures { OneReading }
{}
