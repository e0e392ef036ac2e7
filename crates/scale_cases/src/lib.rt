//! Cases for the scales, run as tests: every byte for not, every pair of small bytes for or and clear.
//! With a scale of its own whose or minds the order of its sides, to show that the laws admit one.
//!
//! Rests on scales. The cases stand in the module tests, the scale in sided.
#![tactic(auto)]

mod sided;
#[cfg(test)]
mod tests;
