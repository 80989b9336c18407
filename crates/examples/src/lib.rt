//! Callers that show what follows from the public contracts.
#![tactic(auto)]

mod code;
pub mod coder;
pub mod cut;
mod held;
pub mod image;
pub mod kept;
pub mod line;
pub mod pieces;
pub mod room;
pub mod rows;
#[cfg(test)]
mod tests;
