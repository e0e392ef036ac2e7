//! What a book holds and answers: the meaning of its store after a history of accepted events, the answer to each
//! call, and the law of a report's reach. Here are the definitions and their laws; the code that meets them is above.
//!
//! Rests on `logic` and `stores`. Read specs/Kept.antt and specs/Records.antt for what a store holds,
//! specs/Calls.antt and specs/Refusals.antt for what a call is answered, specs/Reaching.antt for the reach.
#![tactic(auto)]

ghost use Rattle.meaning.specs.Reaching.{ReportsReach};
ghost use Rattle.meaning.specs.Worked.{WorkedCalls};

mod answer;
mod call;
mod fault;
mod refusal;

pub use answer::Answer;
pub use call::Call;
pub use fault::BookFault;

/// A report moves its own run and the later runs next to it, as many as its reach says, and changes no other record.
pub fn reports_reach()
    ensures { ReportsReach }
{}

/// Whole lists of calls are answered as was worked out by hand.
pub fn worked_calls_stand()
    ensures { WorkedCalls }
{}
