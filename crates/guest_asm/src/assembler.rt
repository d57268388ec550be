//! Assembles a text in two passes: one over the labels, one over the words.
ghost use Rattle.std.specs.Prelude.{◌≡◌, ◌≤◌, ◌<◌, ◌+◌, ◌-◌, ◌^◌, map, length, ◌++◌, Ok, OnOk, option_map};
ghost use Rattle.guest_asm.specs.Addresses as place;
ghost use Rattle.guest_asm.specs.Causes as spec;
ghost use Rattle.guest_asm.specs.Sites.{address_in, site_in, Answers, IsKept};
ghost use Rattle.guest_asm.specs.Assembled.{placed_at, Assembles, WordsOf};
ghost use Rattle.guest_asm.specs.Assembly.{assembly_of, IsAnswer};

use crate::address::{END, START, behind, may_move};
use crate::assembled::{Assembled, Placed};
use crate::fault::{AsmCause, AsmFault, LineFault};
use crate::image::image_of;
use crate::labels::{Labels, Site};
use crate::lines::{label_of, lines_of};
use crate::mnemonics::Operation;
use crate::statement::{Statement, statement_on};
use crate::value::{is_unlabelled, value_of};
use crate::word::statement_word;
use std::alloc::{AllocError, Global};

/// A text of so many bytes or more is too long: its addresses could pass the last one.
const TOO_LONG: usize = 0x800_0000;

/// The word that a statement puts at its address, if it puts one there.
fn placed_word(
    address: u32,
    operation: Operation,
    word: u32,
    value: u32,
) -> Result<Option<u32>, AsmCause>
    ensures { result ≡ spec.placed_word address operation word value }
{
    match operation {
        Operation::Origin => {
            if may_move(address, value) {
                Ok(None)
            } else {
                Err(AsmCause::Place)
            }
        }
        _ => {
            if address < END {
                Ok(Some(word))
            } else {
                Err(AsmCause::Place)
            }
        }
    }
}

/// The same, once the value of the statement's number is known, if it is in range.
fn with_value(
    address: u32,
    outside: bool,
    statement: Statement,
    value: Option<u32>,
) -> Result<Option<u32>, AsmCause>
    ensures { result ≡ spec.with_value address outside statement value }
{
    let Some(value) = value else {
        return Err(AsmCause::Range);
    };
    if outside {
        return Err(AsmCause::Place);
    }
    let word = statement_word(statement.operation, &statement.fields, value);
    placed_word(address, statement.operation, word, value)
}

/// The same, for the statement of a line, if it has one.
fn with_label(
    address: u32,
    outside: bool,
    statement: Option<Statement>,
) -> Result<Option<u32>, AsmCause>
    requires { address + 4 < 2 ^ 32 }
    ensures { result ≡ spec.with_label address outside statement }
{
    let Some(statement) = statement else {
        return if outside {
            Err(AsmCause::Place)
        } else {
            Ok(None)
        };
    };
    if is_unlabelled(statement.fields.given.source) {
        return Err(AsmCause::Label);
    }
    let value = value_of(statement.fields.given, address);
    with_value(address, outside, statement, value)
}

/// Whether a label stands on a line before this one.
fn stands_before(label: Option<&[u8]>, labels: &Labels, number: usize) -> bool
    ensures { result ≡ spec.stands_before_in (site_in labels.now) (option_map (λ name. name.now) label.entry) number }
{
    match label {
        Some(name) => match labels.site(name) {
            Some(Site { line, .. }) => line < number,
            None => false,
        },
        None => false,
    }
}

/// Whether the label is the entry, behind the last word that there is room for.
fn begins_outside(address: u32, label: Option<&[u8]>) -> bool
    ensures { result ≡ spec.begins_outside address (option_map (λ name. name.now) label.entry) }
{
    match label {
        Some(name) => name == b"start".as_slice() && address >= END,
        None => false,
    }
}

/// What a line puts at its address, if it puts a word there. A refusal is the first cause that holds, or want of memory.
fn line_word(
    alloc: Global,
    labels: &Labels,
    number: usize,
    address: u32,
    line: &[u8],
) -> Result<Option<u32>, LineFault>
    requires { address + 4 < 2 ^ 32 }
    ensures { Answers (spec.line_word_in (site_in labels.now) (address_in labels.now) number address line.now) result }
{
    let statement = statement_on(alloc, labels, line)?;
    let label = label_of(line);
    if stands_before(label, labels, number) {
        return Err(LineFault::Cause(AsmCause::Twice));
    }
    match with_label(address, begins_outside(address, label), statement) {
        Ok(word) => Ok(word),
        Err(cause) => Err(LineFault::Cause(cause)),
    }
}

/// A line's fault, as one of the text.
fn fault_of(number: usize, fault: LineFault) -> AsmFault
    requires { number < 2 ^ 32 - 1 }
    ensures { result ≡ spec.fault_of number fault }
{
    match fault {
        LineFault::Cause(cause) => AsmFault::Line {
            line: number as u32 + 1,
            cause,
        },
        LineFault::Memory => AsmFault::Memory,
    }
}

/// Puts the word of a line behind words, if there is one.
fn put(words: &mut Vec<Placed>, address: u32, word: Option<u32>) -> Result<(), AllocError>
    ensures { OnOk result (words.new.items ≡ words.old.items ++ placed_at address (Ok word)) }
{
    if let Some(word) = word {
        words.push(Placed { address, word })?;
    }
    Ok(())
}

/// The words of lines, or the first fault.
fn words_of(alloc: Global, labels: &Labels, lines: &[&[u8]]) -> Result<Vec<Placed>, AsmFault>
    requires short { length lines.now ≤ 2 ^ 27 }
    requires labels { IsKept (map (λ line. line.now) lines.now) labels.now }
    ensures { WordsOf (map (λ line. line.now) lines.now) result }
{
    let mut words = Vec::new(alloc);
    let mut address = START;
    for (number, line) in lines.iter().enumerate() {
        match line_word(alloc, labels, number, address, line) {
            Ok(word) => put(&mut words, address, word)?,
            Err(fault) => return Err(fault_of(number, fault)),
        }
        address = behind(alloc, address, line)?;
    }
    Ok(words)
}

/// Assembles a text: instructions, words and labels, a line each. The first address is C0000000, and there is room for 65,536 bytes.
///
/// A refusal is `Line` with the first line that is refused, counted from 1, and the first cause that holds on it; or `Memory`, where memory
/// is wanting or the text has 2^27 bytes or more.
pub fn assemble(alloc: Global, text: &[u8]) -> Result<Assembled, AsmFault>
    ensures lines { Assembles text.now result }
    ensures whole { IsAnswer (assembly_of text.now) result }
{
    if text.len() >= TOO_LONG {
        return Err(AsmFault::Memory);
    }
    let lines = lines_of(alloc, text)?;
    let labels = Labels::read(alloc, lines.as_slice())?;
    let words = words_of(alloc, &labels, lines.as_slice())?;
    let entry = labels.entry();
    let image = image_of(alloc, entry, words.as_slice())?;
    Ok(Assembled {
        words,
        entry,
        image,
    })
}
