//! A script that is made up from a number: the same number makes the same lines.
#![tactic(auto)]

mod draw;
mod generator;
mod line;
mod slots;

pub use generator::Generator;

#[cfg(test)]
mod tests;
