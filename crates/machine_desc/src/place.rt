//! The tables of a description, and the paths of their keys.
ghost use Rattle.std.specs.Prelude.{◌≡◌, IfOk};
ghost use Rattle.machine_desc.specs.Paths.{path};

use base_words::Name;
use std::alloc::{AllocError, Global};

/// Which table a key stands in. The tables of an array count from 0.
#[derive(Clone, Copy, Debug, PartialEq, Eq)]
pub enum Place {
    Top,
    Machine,
    Cell(usize),
    Guest(usize),
    Policy,
    Work(usize),
    Input(usize),
}

impl Place {
    /// The path of a key of this table.
    pub fn path(self, alloc: Global, key: &str) -> Result<Name, AllocError>
        ensures { IfOk result (λ name. name ≡ path self key.now) }
    {
        let text = match self {
            Place::Top => String::from_str(alloc, key)?,
            Place::Machine => format!(in alloc; "machine.{key}")?,
            Place::Cell(i) => format!(in alloc; "cell[{i}].{key}")?,
            Place::Guest(i) => format!(in alloc; "guest[{i}].{key}")?,
            Place::Policy => format!(in alloc; "policy.{key}")?,
            Place::Work(i) => format!(in alloc; "work[{i}].{key}")?,
            Place::Input(i) => format!(in alloc; "input[{i}].{key}")?,
        };
        Ok(Name::from_string(text))
    }
}
