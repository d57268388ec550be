//! The lines of a report.
ghost use Rattle.std.specs.Prelude.{◌≡◌, string_bytes, IfOk};
ghost use Rattle.run_report.specs.Report.{console_line as console_line_of, end_line as end_line_of, end_text as end_text_of, step_sums as step_sums_of, share_sums as share_sums_of, sums_line as sums_line_of, guests_text as guests_text_of, ended_text as ended_text_of, failure_text};

use crate::Sums;
use base_words::{End, GuestId};
use guest_core::FailureRecord;
use std::alloc::{AllocError, Global};

/// How a guest ended.
fn end_text(alloc: Global, end: End) -> Result<String, AllocError>
    ensures { IfOk result (λ text. string_bytes text ≡ end_text_of end) }
{
    match end {
        End::Halted => String::from_str(alloc, "halted"),
        End::Budget => String::from_str(alloc, "budget"),
        End::CellFailed(cell) => {
            let number = cell.0;
            format!(in alloc; "cell {number}")
        }
    }
}

/// The line before a guest's console: its number, and how many bytes it printed.
pub fn console_line(alloc: Global, number: usize, count: usize) -> Result<String, AllocError>
    ensures { IfOk result (λ line. string_bytes line ≡ console_line_of number count) }
{
    format!(in alloc; "guest {number} console {count}\n")
}

/// What ends a guest's console, and how the guest ended.
pub fn end_line(alloc: Global, end: End) -> Result<String, AllocError>
    ensures { IfOk result (λ line. string_bytes line ≡ end_line_of end) }
{
    let text = end_text(alloc, end)?;
    let text = text.as_str();
    format!(in alloc; "\nend {text}\n")
}

/// The sums of a guest's steps and moves.
fn step_sums(alloc: Global, sums: &Sums) -> Result<String, AllocError>
    ensures { IfOk result (λ text. string_bytes text ≡ step_sums_of sums.now) }
{
    let steps = sums.steps;
    let refills = sums.refills;
    let moves = sums.moves;
    let skips = sums.skips;
    format!(in alloc; "sums steps {steps} refills {refills} moves {moves} skips {skips}")
}

/// The sums of what a guest shares and receives.
fn share_sums(alloc: Global, sums: &Sums) -> Result<String, AllocError>
    ensures { IfOk result (λ text. string_bytes text ≡ share_sums_of sums.now) }
{
    let breaks = sums.breaks;
    let shared = sums.shared;
    let received = sums.received;
    let discarded = sums.discarded;
    format!(in alloc;
        " breaks {breaks} shared {shared} received {received} discarded {discarded}\n"
    )
}

/// The line of a guest's sums.
pub fn sums_line(alloc: Global, sums: &Sums) -> Result<String, AllocError>
    ensures { IfOk result (λ line. string_bytes line ≡ sums_line_of sums.now) }
{
    let steps = step_sums(alloc, sums)?;
    let shares = share_sums(alloc, sums)?;
    let steps = steps.as_str();
    let shares = shares.as_str();
    format!(in alloc; "{steps}{shares}")
}

/// Guests, each after a space.
fn guests_text(alloc: Global, guests: &[GuestId]) -> Result<String, AllocError>
    ensures { IfOk result (λ text. string_bytes text ≡ guests_text_of guests.now) }
{
    let mut text = String::new(alloc);
    for guest in guests {
        let number = guest.0;
        text.push_str(format!(in alloc; " {number}")?.as_str())?;
    }
    Ok(text)
}

/// The guests that a failure ended.
fn ended_text(alloc: Global, ended: &[GuestId]) -> Result<String, AllocError>
    ensures { IfOk result (λ text. string_bytes text ≡ ended_text_of ended.now) }
{
    if ended.is_empty() {
        String::from_str(alloc, " none")
    } else {
        guests_text(alloc, ended)
    }
}

/// The line of a failure.
pub fn failure_line(alloc: Global, failure: &FailureRecord) -> Result<String, AllocError>
    ensures { IfOk result (λ line. string_bytes line ≡ failure_text failure.now) }
{
    let ended = ended_text(alloc, failure.ended.as_slice())?;
    let ended = ended.as_str();
    let cell = failure.cell.0;
    format!(in alloc; "failure cell {cell} ended{ended}\n")
}
