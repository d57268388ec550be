//! Tests of words and of texts: what is asked for, programs, what is made from a number, and litmus files with their runs.
#![tactic(auto)]

#[cfg(test)]
mod admission_words;
#[cfg(test)]
mod guest_asm_tables;
#[cfg(test)]
mod guest_asm_texts;
#[cfg(test)]
mod guest_gen_made;
#[cfg(test)]
mod litmus_calls;
#[cfg(test)]
mod litmus_file_texts;
#[cfg(test)]
mod page_slots_turns;
#[cfg(test)]
mod telling;
