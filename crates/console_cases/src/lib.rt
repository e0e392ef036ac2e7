//! Cases for the program from the bytes of an input to the printed answers, run as tests.
//!
//! Rests on console, answers and what they rest on.
#![tactic(auto)]

#[cfg(test)]
mod tests;
