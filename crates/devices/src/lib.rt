//! Devices: the sources and destinations of bytes.
#![tactic(auto)]

mod adapters;
mod buffered;
mod device;
pub mod trial;
mod write;

pub use adapters::{FromRead, ToWrite};
pub use buffered::Buffered;
pub use device::{DeviceFailed, Input, Output};
pub use write::{WriteFault, write_bytes, write_counted};
