//! Tests of what is read and written: descriptions, guest images, files and outputs.
#![tactic(auto)]

#[cfg(test)]
mod elf_image_files;
#[cfg(test)]
mod machine_desc_texts;
#[cfg(test)]
mod outside_io_calls;
#[cfg(test)]
mod telling;
