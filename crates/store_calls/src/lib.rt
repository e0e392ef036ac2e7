//! The calls of a row store as values, and lists of them.
//!
//! What a store answers, and what it means afterwards, depend on its meaning alone: two stores of equal meaning
//! answer every list of calls alike, whatever they are made of (`agree`). specs/Calls.antt says what is answered.
//!
//! Rests on `stores`.
#![tactic(auto)]

mod call;
mod performing;

pub use call::{StoreAnswer, StoreCall};
pub use performing::{agree, perform};
