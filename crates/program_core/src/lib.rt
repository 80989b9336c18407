//! The work of the two programs between their arguments and the engine. Each program itself is only a `main`.
#![tactic(auto)]

mod args;
mod files;
pub mod jbgtopbm85;
mod line_fault;
mod matches;
mod message;
pub mod pbmtojbg85;
mod program;

pub use files::{Places, Readable, Writable};
pub use line_fault::LineFault;
pub use program::{end, refuse, words_of};
