//! What the program hears, as text (layer 6): its input is a policy text and lines, and a line spells
//! at most one call.
//!
//! Rests on `refusals`. specs/Input.antt says how an input is cut, specs/Lines.antt what its lines are,
//! specs/Spelling.antt which bytes spell a call, specs/Faults.antt what is refused.
#![tactic(auto)]

mod call;
mod fault;
mod input;
mod lines;
mod walk;

pub use call::{Call, CodeDigits, CodeRoom, MOST_CODES, parse_call, spelling_is_unique};
pub use fault::ProgramFault;
pub use input::{cut_at, cut_input};
pub use lines::Lines;
pub use walk::lines_are_exact;
