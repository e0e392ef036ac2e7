//! The book: a rule book for the runs of one depot, over any scale and any store. It owns its policy, its scale, its
//! store and the room that its calls work in; no call of an opened book allocates.
//!
//! Each call is told for every history that the book's store represents: what it answers, and what the store means
//! then. Opening gives a store that represents the history of no events, so `perform`, which opens a book and
//! performs a whole list of calls, is told with no premise. specs/Books.antt has the definitions, by those of
//! `meaning`.
//!
//! Rests on `monitor`, which has the calls over parts.
#![tactic(auto)]

mod book;
mod calling;
mod opening;
mod performing;
mod rooming;

pub use book::Book;
pub use opening::{OpenFault, Unopened, check_opening, record_width};
pub use performing::{Performed, perform};
pub use rooming::BookRoom;
