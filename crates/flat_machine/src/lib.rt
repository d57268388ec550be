//! A guest's private machine, runnable: one flat list of bytes, its virtual processors, devices and disk.
#![tactic(auto)]

mod accesses;
mod changes;
mod device_accesses;
mod flat;
mod machine;
mod memory;
mod quiet;
mod running;
mod stepping;
mod window;

pub use flat::Flat;
