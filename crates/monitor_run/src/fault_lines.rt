//! The lines of refusals.
ghost use Rattle.std.specs.Prelude.{◌≡◌, string_bytes, IfOk};
ghost use Rattle.outside_io.specs.Writing.{Writes};
ghost use Rattle.machine_desc.specs.declared.fault.DescFault.TheVariants.{Range};
ghost use Rattle.admission.specs.declared.faults.Fault.TheVariants.{Asm, Description, BadImage};
ghost use Rattle.monitor_run.specs.FaultLines.{amount_text as amount_text_of, description_text as description_text_of, image_text as image_text_of, cause_text as cause_text_of, fault_line as fault_line_of};

use admission::Fault;
use base_words::{GuestId, Name};
use elf_image::ImageFault;
use guest_asm::AsmCause;
use machine_desc::{Amount, DescFault};
use outside_io::{Sink, SinkFault};
use std::alloc::{AllocError, Global};

/// An integer, or the length of a text, a list or an array.
fn amount_text(alloc: Global, amount: Amount) -> Result<String, AllocError>
    ensures { IfOk result (λ text. string_bytes text ≡ amount_text_of amount) }
{
    match amount {
        Amount::Number(number) => format!(in alloc; "{number}"),
        Amount::Length(length) => format!(in alloc; "{length}"),
    }
}

/// A value that is out of its range.
fn range_text(alloc: Global, key: &Name, amount: Amount) -> Result<String, AllocError>
    ensures { IfOk result (λ text. string_bytes text ≡ description_text_of (Range key.now amount)) }
{
    let value = amount_text(alloc, amount)?;
    let key = key.as_str();
    let value = value.as_str();
    format!(in alloc; "range {key} {value}")
}

/// Why a description is refused.
fn description_text(alloc: Global, fault: &DescFault) -> Result<String, AllocError>
    ensures { IfOk result (λ text. string_bytes text ≡ description_text_of fault.now) }
{
    match fault {
        DescFault::Toml => String::from_str(alloc, "toml"),
        DescFault::Missing(key) => {
            let key = key.as_str();
            format!(in alloc; "missing {key}")
        }
        DescFault::Unknown(key) => {
            let key = key.as_str();
            format!(in alloc; "unknown {key}")
        }
        DescFault::Kind(key) => {
            let key = key.as_str();
            format!(in alloc; "kind {key}")
        }
        DescFault::Range(key, amount) => range_text(alloc, key, *amount),
        DescFault::Names(key, number) => {
            let key = key.as_str();
            format!(in alloc; "names {key} {number}")
        }
        DescFault::Twice(key, number) => {
            let key = key.as_str();
            format!(in alloc; "twice {key} {number}")
        }
        DescFault::Steps(total) => format!(in alloc; "steps {total}"),
        DescFault::Memory => String::from_str(alloc, "memory"),
    }
}

/// Why an image is refused.
fn image_text(alloc: Global, fault: ImageFault) -> Result<String, AllocError>
    ensures { IfOk result (λ text. string_bytes text ≡ image_text_of fault) }
{
    match fault {
        ImageFault::Short => String::from_str(alloc, "short"),
        ImageFault::Magic => String::from_str(alloc, "magic"),
        ImageFault::Class => String::from_str(alloc, "class"),
        ImageFault::Order => String::from_str(alloc, "order"),
        ImageFault::Version => String::from_str(alloc, "version"),
        ImageFault::Kind => String::from_str(alloc, "kind"),
        ImageFault::Processor => String::from_str(alloc, "processor"),
        ImageFault::Headers => String::from_str(alloc, "headers"),
        ImageFault::Interp => String::from_str(alloc, "interp"),
        ImageFault::Segment(segment) => format!(in alloc; "segment {segment}"),
        ImageFault::Place(segment) => format!(in alloc; "place {segment}"),
        ImageFault::Overlap(one, other) => format!(in alloc; "overlap {one} {other}"),
        ImageFault::Entry => String::from_str(alloc, "entry"),
        ImageFault::Memory => String::from_str(alloc, "memory"),
    }
}

/// Why a line of a text is refused.
fn cause_text<'a>(cause: AsmCause) -> &'a str
    ensures { result.now ≡ cause_text_of cause }
{
    match cause {
        AsmCause::Syntax => "syntax",
        AsmCause::Mnemonic => "mnemonic",
        AsmCause::Operands => "operands",
        AsmCause::Twice => "twice",
        AsmCause::Label => "label",
        AsmCause::Range => "range",
        AsmCause::Place => "place",
    }
}

/// The line of a text of which a line is refused.
fn asm_line(alloc: Global, line: u32, cause: AsmCause) -> Result<String, AllocError>
    ensures { IfOk result (λ text. string_bytes text ≡ fault_line_of (Asm line cause)) }
{
    let cause = cause_text(cause);
    format!(in alloc; "fault asm {line} {cause}\n")
}

/// The line of a description that is refused.
fn description_line(alloc: Global, fault: &DescFault) -> Result<String, AllocError>
    ensures { IfOk result (λ line. string_bytes line ≡ fault_line_of (Description fault.now)) }
{
    let text = description_text(alloc, fault)?;
    let text = text.as_str();
    format!(in alloc; "fault description {text}\n")
}

/// The line of an image that is refused.
fn image_line(alloc: Global, guest: GuestId, fault: ImageFault) -> Result<String, AllocError>
    ensures { IfOk result (λ line. string_bytes line ≡ fault_line_of (BadImage guest fault)) }
{
    let number = guest.0;
    let text = image_text(alloc, fault)?;
    let text = text.as_str();
    format!(in alloc; "fault image {number} {text}\n")
}

/// The line of a refusal.
fn fault_line(alloc: Global, fault: &Fault) -> Result<String, AllocError>
    ensures { IfOk result (λ line. string_bytes line ≡ fault_line_of fault.now) }
{
    match fault {
        Fault::Words => String::from_str(alloc, "fault words\n"),
        Fault::Read(name) => {
            let name = name.as_str();
            format!(in alloc; "fault read {name}\n")
        }
        Fault::Long(name) => {
            let name = name.as_str();
            format!(in alloc; "fault long {name}\n")
        }
        Fault::Asm { line, cause } => asm_line(alloc, *line, *cause),
        Fault::Description(fault) => description_line(alloc, fault),
        Fault::BadImage(guest, fault) => image_line(alloc, *guest, *fault),
        Fault::CacheAdmission { cell, needs, has } => {
            let number = cell.0;
            format!(in alloc; "fault admission cell {number} needs {needs} has {has}\n")
        }
        Fault::Admission { guest, needs, has } => {
            let number = guest.0;
            format!(in alloc; "fault admission guest {number} needs {needs} has {has}\n")
        }
    }
}

/// Puts a text, and settles it.
pub fn put_whole<K: Sink>(sink: &mut K, text: &[u8]) -> Result<(), SinkFault>
    ensures { Writes (K.view sink.old) (K.view sink.new) text.now result }
{
    match sink.put(text) {
        Ok(()) => sink.finish(),
        Err(fault) => Err(fault),
    }
}

/// Puts the line of a refusal, and settles it.
pub fn render_fault<K: Sink>(alloc: Global, sink: &mut K, fault: &Fault) -> Result<(), SinkFault>
    ensures { Writes (K.view sink.old) (K.view sink.new) (fault_line_of fault.now) result }
{
    let line = fault_line(alloc, fault)?;
    put_whole(sink, line.as_bytes())
}
