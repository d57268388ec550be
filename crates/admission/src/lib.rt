//! From the command line's words and the files to what is to be done, or the first refusal.
#![tactic(auto)]

mod asm;
mod checking;
mod description;
mod disks;
mod faults;
mod guests;
mod images;
mod job;
mod law;
mod library;
mod made;
mod setup;
mod single;
mod words;

pub use disks::{DiskList, DiskNumbers, disks_in};
pub use faults::{Fault, Refusal};
pub use images::ImageList;
pub use job::admit;
pub use law::{examples, made_accepted, made_described, made_loads, made_served, steady, told};
pub use setup::{Job, Setup};
pub use words::{Form, read_form};
