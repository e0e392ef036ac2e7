//! Cases for the program's lines, calls and answers, run as tests.
//!
//! Rests on refusals, calls and answers.
#![tactic(auto)]

#[cfg(test)]
mod tests;
