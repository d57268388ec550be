//! The input of each guest, in the order in which it comes.
ghost use Rattle.std.specs.Prelude.{◌≡◌, IfOk};
ghost use Rattle.machine_desc.specs.Input.{entries_for, IsInputOf, AreInputs};

use crate::sheet::InputTable;
use base_words::{InputEntry, InputList, InputLists, Sequence};
use std::alloc::{AllocError, Global};

/// The entries of a guest, in the order of the file.
fn entries_for(
    alloc: Global,
    guest: usize,
    tables: &[InputTable],
) -> Result<Vec<InputEntry>, AllocError>
    ensures { IfOk result (λ entries. entries.items ≡ entries_for guest tables.now) }
{
    let mut entries = Vec::new(alloc);
    for table in tables {
        if usize::from(table.guest.0) == guest {
            let text = Vec::from_slice(alloc, table.text.as_slice())?;
            entries.push(InputEntry {
                at: u64::from(table.at),
                text: Sequence::from_vec(text),
            })?;
        }
    }
    Ok(entries)
}

/// The entries of a guest in order of their `at`, ties in the order of the file.
fn list_for(alloc: Global, guest: usize, tables: &[InputTable]) -> Result<InputList, AllocError>
    ensures { IfOk result (IsInputOf guest tables.now) }
{
    let mut entries = entries_for(alloc, guest, tables)?;
    entries.sort_by_key(|entry| entry.at)?;
    Ok(Sequence::from_vec(entries))
}

/// The list of each guest.
#[tactic(auto, using(crate::proofs::Inputs::input_lists))]
pub fn lists_in(
    alloc: Global,
    count: usize,
    tables: &[InputTable],
) -> Result<InputLists, AllocError>
    ensures { IfOk result (AreInputs count tables.now) }
{
    let mut lists = Sequence::new(alloc);
    for guest in 0..count {
        lists.push(list_for(alloc, guest, tables)?)?;
    }
    Ok(lists)
}
