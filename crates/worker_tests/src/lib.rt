//! Tests of whole runs of guests, and of what they leave.
#![tactic(auto)]

#[cfg(test)]
mod frames;
#[cfg(test)]
mod telling;
