//! The calls of a book over its parts: a scale, a policy's lines, a store, and lent room for one record and two rows.
//!
//! Each call is told for every history that the store represents: its answer is the refusal by the table or the
//! result by the logic over that history, and the store represents the history with the call's event then. The
//! definitions are those of `meaning`. A report judges its own run and each later run up to and with the first that
//! does not move; each record is read once, and written once if it moved. Nothing is allocated.
//!
//! Rests on `meaning` and `records`, and on what `stores` and `scales` promise of any store and scale.
#![tactic(auto)]

mod access;
mod asking;
mod checks;
mod closing;
mod desk;
mod judging;
mod reporting;
mod rules;
mod starting;
mod walking;

pub use asking::{truth, verdict};
pub use closing::close;
pub use reporting::{preview, report};
pub use rules::Rules;
pub use starting::start;
