//! The row table: a row store in memory that is handed over, one slot for each run.
//!
//! ```text
//! memory: limit = size / W slots of W bytes, at most 4096, then the rest
//! +---------+---------+-- .. --+---------+------+
//! | slot 0  | slot 1  |        | limit-1 | rest |   run r is in slot (r - 1) % limit
//! +---------+---------+-- .. --+---------+------+
//! ```
//!
//! A slot that holds no record is zero, and so is the rest. Every byte is fixed by what the table means
//! (specs/Image.antt), at its making and after every call: that is part of its type.
//!
//! Rests on `stores`: it has the steps of a table there, and so is a store.
#![tactic(auto)]

mod making;
mod slots;
mod store;
mod table;

pub use table::RowTable;
