//! Scales: the truth values by which a rule is judged. A scale promises its laws and nothing else; code
//! above takes any scale and is proved once, by the laws.
//!
//! Rests on nothing. specs/Algebra.antt says what a scale is and which laws it keeps, specs/Scales.antt
//! defines the two scales here. A scale of one's own gets its laws by `laws_by_test` of specs/Tables.antt.
#![tactic(auto)]

mod open;
mod plain;
mod scale;

pub use open::Open;
pub use plain::Plain;
pub use scale::Scale;
