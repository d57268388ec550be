//! The wires between guests: a bounded queue of packets for each ordered pair of guests, and a pass for each end of it. A pass
//! knows what went through its end. What is taken from a wire is the first of what it accepted, in order.
#![tactic(auto)]

mod calls;
mod closing;
mod crossing;
mod law;
mod lists;
mod log;
mod making;
mod packet;
mod passes;
mod rule;
mod terms;
mod wire;
mod wires;

pub use crossing::cross_threads;
pub use law::{each_guest_has_its_list, the_end_tells_of_two_guests};
pub use lists::{AllPasses, PassList};
pub use packet::{Body, WirePacket};
pub use passes::{SendPass, TakePass};
pub use terms::Terms;
pub use wires::{Sent, Wires};
