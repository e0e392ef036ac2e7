//! Row stores: the interface that every store meets, and the refusals of its calls.
//!
//! A store holds one record of a fixed width for each run of a window of runs. What it holds is its meaning, and
//! each call is an equation between the answer, the meaning before and the meaning after: specs/Meaning.antt and
//! specs/Refusals.antt say which. Code above is proved once, over any store.
//!
//! A store that lies in memory is a table (`Table`): it has the steps, and the tests before them are made here.
//!
//! Rests on `refusals`. The tables are crates of their own.
#![tactic(auto)]

mod bounds;
mod checks;
mod fault;
mod making;
mod refusal;
mod store;
mod table;

pub use bounds::Bounds;
pub use fault::StoreFault;
pub use making::limit_for;
pub use store::Store;
pub use table::Table;
