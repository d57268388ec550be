//! Tests of moves of pages, and of a guest whose pages lie on frames.
#![tactic(auto)]

#[cfg(test)]
mod guest_course_entries;
#[cfg(test)]
mod guest_course_packets;
#[cfg(test)]
mod guest_course_sharing;
#[cfg(test)]
mod guest_course_turns;
#[cfg(test)]
mod page_moves_kinds;
#[cfg(test)]
mod page_moves_rig;
#[cfg(test)]
mod telling;
