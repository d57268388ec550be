//! Tests of whole runs of one file: raw programs, texts of instructions, and what is made from a number.
#![tactic(auto)]

#[cfg(test)]
mod handlers;
#[cfg(test)]
mod hostile;
#[cfg(test)]
mod numbers;
#[cfg(test)]
mod programs;
#[cfg(test)]
mod rows;
#[cfg(test)]
mod seven;
#[cfg(test)]
mod spaces;
#[cfg(test)]
mod states;
#[cfg(test)]
mod telling;
#[cfg(test)]
mod tests;
#[cfg(test)]
mod texts;
