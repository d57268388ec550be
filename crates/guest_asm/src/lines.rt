//! A text's lines, and the parts of a line.
ghost use Rattle.std.specs.Prelude.{◌≡◌, ◌≤◌, ◌+◌, length, map, IfOk, option_map, option_copied};
ghost use Rattle.std.specs.List.{before_first, after_first, position_or_len, slice_split};
ghost use Rattle.std.specs.Char.{is_ascii_whitespace};
ghost use Rattle.guest_asm.specs.Lines as spec;
ghost use Rattle.guest_asm.specs.Operands as parts_spec;

use crate::characters::{is_name, place_of, trimmed};
use std::alloc::{AllocError, Global};

/// The lines of a text: each ends at a line feed or with the text.
pub fn lines_of<'a>(alloc: Global, text: &'a [u8]) -> Result<Vec<&'a [u8]>, AllocError>
    ensures value { IfOk result (λ lines. map (λ line. line.now) lines.items ≡ spec.lines_of text.now) }
    ensures few { IfOk result (λ lines. length lines.items ≤ length text.now + 1) }
{
    text.split(|byte| *byte == b'\n').collect(alloc)
}

/// What stands before the comment, without blanks at its ends.
#[tactic(auto, unfolding(crate::specs::Lines::code_of))]
fn code_of(line: &[u8]) -> &[u8]
    ensures { result.now ≡ spec.code_of line.now }
{
    trimmed(&line[..place_of(b'#', line)])
}

/// How many bytes stand before the colon behind a label; None where there is no label.
fn label_length(code: &[u8]) -> Option<usize>
    ensures { result ≡ spec.label_length code.now }
{
    let place = place_of(b':', code);
    if place < code.len() && is_name(&code[..place]) {
        Some(place)
    } else {
        None
    }
}

/// A line's label, if it has one.
pub fn label_of(line: &[u8]) -> Option<&[u8]>
    ensures { option_map (λ label. label.now) result ≡ spec.label_of line.now }
{
    let code = code_of(line);
    let length = label_length(code)?;
    Some(&code[..length])
}

/// A line's statement; empty where there is none.
pub fn statement_of(line: &[u8]) -> &[u8]
    ensures { result.now ≡ spec.statement_of line.now }
{
    let code = code_of(line);
    match label_length(code) {
        Some(at) => trimmed(&code[at + 1..]),
        None => code,
    }
}

/// How many bytes a statement's mnemonic has.
fn mnemonic_length(statement: &[u8]) -> usize
    ensures value { result ≡ position_or_len is_ascii_whitespace statement.now }
    ensures within { result ≤ length statement.now }
{
    statement
        .iter()
        .position(|byte| byte.is_ascii_whitespace())
        .unwrap_or(statement.len())
}

/// A statement's mnemonic.
pub fn mnemonic_of(statement: &[u8]) -> &[u8]
    ensures { result.now ≡ spec.mnemonic_of statement.now }
{
    &statement[..mnemonic_length(statement)]
}

/// What stands behind a statement's mnemonic.
pub fn operand_text(statement: &[u8]) -> &[u8]
    ensures { result.now ≡ spec.operand_text statement.now }
{
    trimmed(&statement[mnemonic_length(statement)..])
}

/// The texts between the commas of a text that isn't empty.
pub fn between_commas<'a>(alloc: Global, text: &'a [u8]) -> Result<Vec<&'a [u8]>, AllocError>
    ensures { IfOk result (λ parts. map (λ part. part.now) parts.items ≡ slice_split parts_spec.is_comma text.now) }
{
    text.split(|byte| *byte == b',').collect(alloc)
}
