//! Reads the statement of a line.
ghost use Rattle.std.specs.Prelude.{◌≡◌, option_map};
ghost use Rattle.guest_asm.specs.Statements as spec;
ghost use Rattle.guest_asm.specs.Sites.{address_in, Answers};

use crate::characters::{are_visible, is_word};
use crate::fault::{AsmCause, LineFault};
use crate::fields::{Fields, fields_of};
use crate::labels::Labels;
use crate::lines::{mnemonic_of, operand_text, statement_of};
use crate::mnemonics::{Operation, row_of};
use crate::operand::{Operand, operands_of};
use std::alloc::Global;

/// A statement: what its mnemonic stands for, and what its operands name.
#[derive(Clone, Copy, Debug, PartialEq, Eq)]
pub struct Statement {
    pub operation: Operation,
    pub fields: Fields,
}

/// The statement of a mnemonic and operands that are well formed.
fn with_operands(mnemonic: &[u8], operands: &[Operand]) -> Result<Option<Statement>, AsmCause>
    ensures { result ≡ spec.with_operands mnemonic.now (Some operands.now) }
{
    if !is_word(mnemonic) {
        return Err(AsmCause::Syntax);
    }
    let Some((form, operation)) = row_of(mnemonic) else {
        return Err(AsmCause::Mnemonic);
    };
    match fields_of(form, operands) {
        Some(fields) => Ok(Some(Statement { operation, fields })),
        None => Err(AsmCause::Operands),
    }
}

/// The statement that a text is; an empty text is none.
fn read_statement(
    alloc: Global,
    labels: &Labels,
    text: &[u8],
) -> Result<Option<Statement>, LineFault>
    ensures { Answers (spec.read_statement (address_in labels.now) text.now) result }
{
    if text.is_empty() {
        return Ok(None);
    }
    let Some(operands) = operands_of(alloc, labels, operand_text(text))? else {
        return Err(LineFault::Cause(AsmCause::Syntax));
    };
    match with_operands(mnemonic_of(text), operands.as_slice()) {
        Ok(statement) => Ok(statement),
        Err(cause) => Err(LineFault::Cause(cause)),
    }
}

/// The statement of a line, if it has one. A refusal is the first that holds of `Syntax`, `Mnemonic` and `Operands`, or want of memory.
#[tactic(auto, unfolding(crate::specs::Statements::statement_on))]
pub fn statement_on(
    alloc: Global,
    labels: &Labels,
    line: &[u8],
) -> Result<Option<Statement>, LineFault>
    ensures { Answers (spec.statement_on (address_in labels.now) line.now) result }
{
    if !are_visible(line) {
        return Err(LineFault::Cause(AsmCause::Syntax));
    }
    read_statement(alloc, labels, statement_of(line))
}
