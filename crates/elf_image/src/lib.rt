//! Guest images: an executable ELF file or a raw file is read into the pages of a guest's physical memory.
//! What is refused is refused by its first fault in a fixed order, and what is accepted lies where the file says.
#![tactic(auto)]

mod fault;
mod filling;
mod header;
mod image;
mod overlapping;
mod segment;
mod segments;

pub use fault::ImageFault;
pub use image::{Image, load, load_raw};
