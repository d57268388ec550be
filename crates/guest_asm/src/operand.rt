//! The operands of a statement.
ghost use Rattle.std.specs.Prelude.{◌≡◌, ◌-◌, ◌<◌, length, map, take, option_map, IfOk};
ghost use Rattle.std.specs.List.{after_first};
ghost use Rattle.guest_asm.specs.Characters as text_spec;
ghost use Rattle.guest_asm.specs.Operands as spec;
ghost use Rattle.guest_asm.specs.Sites.{address_in};

use crate::characters::{is_name, place_of, trimmed};
use crate::labels::Labels;
use crate::lines::between_commas;
use crate::number::{Number, number_of, register_of};
use mips_isa::Register;
use std::alloc::{AllocError, Global};

/// An operand. A number is None where it is out of the range of numbers, and what a name stands for is None where no line has the label.
#[derive(Clone, Copy, Debug, PartialEq, Eq)]
pub enum Operand {
    /// `$0` to `$31`.
    Register(Register),
    Number(Option<Number>),
    /// A name, with the address of its label.
    Name(Option<u32>),
    /// `lo(NAME)`.
    Low(Option<u32>),
    /// `hi(NAME)`.
    High(Option<u32>),
    /// `N(rs)`.
    Based(Option<Number>, Register),
}

fn low_of(labels: &Labels, name: &[u8]) -> Option<Operand>
    ensures { result ≡ spec.low_of (address_in labels.now) name.now }
{
    if is_name(name) {
        Some(Operand::Low(labels.address(name)))
    } else {
        None
    }
}

fn high_of(labels: &Labels, name: &[u8]) -> Option<Operand>
    ensures { result ≡ spec.high_of (address_in labels.now) name.now }
{
    if is_name(name) {
        Some(Operand::High(labels.address(name)))
    } else {
        None
    }
}

/// The operand that a text and another one in brackets behind it are.
fn bracketed(labels: &Labels, outer: &[u8], inner: &[u8]) -> Option<Operand>
    ensures { result ≡ spec.bracketed (address_in labels.now) outer.now inner.now }
{
    if outer == b"lo".as_slice() {
        low_of(labels, inner)
    } else if outer == b"hi".as_slice() {
        high_of(labels, inner)
    } else {
        Some(Operand::Based(number_of(outer)?, register_of(inner)?))
    }
}

/// What stands behind the opening bracket, without the last byte.
fn within_brackets(text: &[u8]) -> &[u8]
    ensures { result.now ≡ spec.without_last (after_first spec.is_opening text.now) }
{
    let start = text.len().min(place_of(b'(', text) + 1);
    let behind = &text[start..];
    &behind[..behind.len().saturating_sub(1)]
}

/// The operand that a text is, if it is one.
#[tactic(auto, unfolding(crate::specs::Operands::operand_of))]
pub fn operand_of(labels: &Labels, text: &[u8]) -> Option<Operand>
    ensures { result ≡ spec.operand_of (address_in labels.now) text.now }
{
    if text.starts_with(b"$") {
        return Some(Operand::Register(register_of(text)?));
    }
    if text.ends_with(b")") {
        return bracketed(labels, &text[..place_of(b'(', text)], within_brackets(text));
    }
    if is_name(text) {
        return Some(Operand::Name(labels.address(text)));
    }
    Some(Operand::Number(number_of(text)?))
}

/// The operands that texts are, unless one of them is no operand.
fn each_operand(
    alloc: Global,
    labels: &Labels,
    parts: &[&[u8]],
) -> Result<Option<Vec<Operand>>, AllocError>
    ensures { IfOk result (λ operands. option_map (λ list. list.items) operands ≡ spec.each_operand (address_in labels.now) (map (λ part. text_spec.trimmed part.now) parts.now)) }
{
    let mut operands = Vec::new(alloc);
    for part in parts {
        match operand_of(labels, trimmed(part)) {
            Some(operand) => operands.push(operand)?,
            None => return Ok(None),
        }
    }
    Ok(Some(operands))
}

/// The operands of what stands behind a mnemonic, unless a part of it is no operand.
#[tactic(auto, unfolding(crate::specs::Operands::operands_of))]
pub fn operands_of(
    alloc: Global,
    labels: &Labels,
    text: &[u8],
) -> Result<Option<Vec<Operand>>, AllocError>
    ensures { IfOk result (λ operands. option_map (λ list. list.items) operands ≡ spec.operands_of (address_in labels.now) text.now) }
{
    if text.is_empty() {
        return Ok(Some(Vec::new(alloc)));
    }
    let parts = between_commas(alloc, text)?;
    each_operand(alloc, labels, parts.as_slice())
}
