//! Cases for judging a row, run as tests: short walks over one or two runs, the way a book takes them.
//!
//! Rests on scales, lines, logic and judge.
#![tactic(auto)]

#[cfg(test)]
mod tests;
