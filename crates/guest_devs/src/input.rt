//! Console input: what has come, and what is still to come.
ghost use Rattle.std.specs.Prelude.{◌≡◌, ◌<◌, ◌≤◌, ◌+◌, ◌%◌, ◌^◌, ◌-◌, ◌++◌, IfOk, length, drop, sum_by, slice_index_or, not, ◌==◌};
ghost use Rattle.std.specs.Vec.{vec_len, vec_capacity};
ghost use Rattle.private_machine.specs.DeviceRegisters.{arrived, still_coming};
ghost use Rattle.guest_devs.specs.Arrivals.{NoneBefore};
ghost use Rattle.guest_devs.specs.DeviceState.{text_length};

use crate::NOTHING;
use base_words::{InputEntry, Sequence};
use std::alloc::{AllocError, Global};

/// A copy of input.
pub(crate) fn copy_of(alloc: Global, input: &[InputEntry]) -> Result<Vec<InputEntry>, AllocError>
    ensures { IfOk result (λ entries. entries.items ≡ input.now) }
{
    let mut entries = Vec::with_capacity(alloc, input.len())?;
    for entry in input {
        let text = Vec::from_slice(alloc, entry.text.as_slice())?;
        entries.push(InputEntry {
            at: entry.at,
            text: Sequence::from_vec(text),
        })?;
    }
    Ok(entries)
}

/// How many bytes input has; more than can be counted are more than memory has.
pub(crate) fn total_of(input: &[InputEntry]) -> Result<usize, AllocError>
    ensures { IfOk result (λ bytes. bytes ≡ sum_by text_length input.now) }
{
    let mut bytes = 0usize;
    for entry in input {
        match bytes.checked_add(entry.text.len()) {
            Some(more) => bytes = more,
            None => return Err(AllocError),
        }
    }
    Ok(bytes)
}

/// The first byte that waits, which is taken; `NOTHING` where none waits.
pub(crate) fn take_byte(queue: &[u8], taken: &mut usize) -> u32
    requires { taken.old ≤ length queue.now }
    ensures value { result ≡ slice_index_or (drop taken.old queue.now) 0 0xFFFF_FFFF }
    ensures taken { drop taken.new queue.now ≡ drop 1 (drop taken.old queue.now) }
    ensures within { taken.new ≤ length queue.now }
{
    let place = *taken;
    if place < queue.len() {
        *taken = place + 1;
        u32::from(queue[place])
    } else {
        NOTHING
    }
}

/// How many bytes wait, modulo 2^32.
pub(crate) fn queued(queue: &[u8], taken: usize) -> u32
    requires { taken ≤ length queue.now }
    ensures { result ≡ length (drop taken queue.now) % 2 ^ 32 }
{
    ((queue.len() - taken) % (1 << 32)) as u32
}

/// The input whose time has come after so many steps joins the queue, in which there is room for all that is still to come.
#[inline]
pub(crate) fn join(input: &[InputEntry], next: &mut usize, queue: &mut Vec<u8>, steps: u64)
    requires within { next.old ≤ length input.now }
    requires room { vec_len queue.old + sum_by text_length (drop next.old input.now) ≤ vec_capacity queue.old }
    ensures queue { queue.new.items ≡ queue.old.items ++ arrived steps (drop next.old input.now) }
    ensures coming { drop next.new input.now ≡ still_coming steps (drop next.old input.now) }
    ensures within { next.new ≤ length input.now }
    ensures room { vec_len queue.new + sum_by text_length (drop next.new input.now) ≤ vec_capacity queue.new }
{
    while *next < input.len() && input[*next].at <= steps {
        queue
            .extend_from_slice(input[*next].text.as_slice())
            .unwrap();
        *next += 1;
    }
}

/// Whether input whose time has come after so many steps has a byte.
pub(crate) fn comes(input: &[InputEntry], steps: u64) -> bool
    ensures { result ≡ not (length (arrived steps input.now) == 0) }
{
    for entry in input {
        if entry.at > steps {
            return false;
        }
        if !entry.text.is_empty() {
            return true;
        }
    }
    false
}

/// After how many own steps the next input comes; the greatest number where none is to come.
#[inline]
pub(crate) fn next_at(input: &[InputEntry]) -> u64
    ensures { NoneBefore result input.now }
{
    match input.first() {
        Some(entry) => entry.at,
        None => u64::MAX,
    }
}
