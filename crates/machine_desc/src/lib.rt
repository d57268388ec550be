//! Reads the description of a machine, of the guests on it and of what they are to do.
//! The answer is the machine and the plan, or the first fault in a fixed order.
#![tactic(auto)]

mod fault;
mod input;
mod items;
mod key;
mod law;
mod machine;
mod named;
mod names;
mod place;
mod plan;
mod reader;
mod section;
mod shapes;
mod sheet;
mod tables;
mod value;
mod words;
mod work;

pub use fault::{Amount, DescFault};
use key::Key;
pub use law::accepted;
pub use machine::{GuestSpec, Machine, SpecList};
use place::Place;
pub use plan::{Item, ItemList, Plan};
pub use reader::read;
use section::Section;
