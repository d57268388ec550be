//! A guest's private machine, by which its console is defined: one flat list of bytes, stepped by the processor's manual.
//! Definitions, and one virtual processor alone with what it does by itself.
#![tactic(auto)]

mod register_page;
mod ticking;
mod translation;
mod vcpu;
mod vcpus;

pub use register_page::{RegBlock, redirected};
pub use vcpu::Vcpu;
pub use vcpus::{new_vcpus, show, unlink_all, unlink_others, unlink_page};
