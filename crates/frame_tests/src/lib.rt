//! Tests of frames and who holds them, of notes between processors and guests, and of packets between guests.
#![tactic(auto)]

#[cfg(test)]
mod boot_frames_lots;
#[cfg(test)]
mod frame_words_calls;
#[cfg(test)]
mod frame_words_races;
#[cfg(test)]
mod node_frames_boots;
#[cfg(test)]
mod node_frames_searches;
#[cfg(test)]
mod shapes;
#[cfg(test)]
mod shootdown_notes;
#[cfg(test)]
mod shootdown_races;
#[cfg(test)]
mod telling;
#[cfg(test)]
mod virtual_subnet_packets;
#[cfg(test)]
mod wire_queue_packets;
#[cfg(test)]
mod wire_queue_soak;
