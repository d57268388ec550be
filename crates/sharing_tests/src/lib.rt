//! Tests of the runs of guests that share blocks of their disks and whole packets.
#![tactic(auto)]

#[cfg(test)]
mod guests;
#[cfg(test)]
mod handing_on;
#[cfg(test)]
mod packets;
#[cfg(test)]
mod sharing;
#[cfg(test)]
mod storing_at_once;
#[cfg(test)]
mod telling;
