//! The top call: from the command line's words to the printed report.
#![tactic(auto)]

mod fault_lines;
mod law;
mod monitored;
mod private_run;
mod sources;
mod top;

pub use admission::{Fault, Job, Refusal};
pub use elf_image::ImageFault;
pub use guest_asm::AsmCause;
pub use law::{exactly, examples, made_runs, text_runs};
pub use top::disco;
