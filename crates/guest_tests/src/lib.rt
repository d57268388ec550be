//! Tests of a guest under the monitor: its own calls, a turn under its lock, and what stands on the wires between two.
#![tactic(auto)]

#[cfg(test)]
mod booting;
#[cfg(test)]
mod guest_core_calls;
#[cfg(test)]
mod guest_core_losses;
#[cfg(test)]
mod guest_core_moves;
#[cfg(test)]
mod guest_core_packets;
#[cfg(test)]
mod guest_core_policy;
#[cfg(test)]
mod guest_core_sharing;
#[cfg(test)]
mod guest_lock_turns;
#[cfg(test)]
mod lane;
#[cfg(test)]
mod pair;
#[cfg(test)]
mod telling;
