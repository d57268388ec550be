//! What a statement's operands name: registers and a number.
ghost use Rattle.std.specs.Prelude.{◌≡◌};
ghost use Rattle.guest_asm.specs.Statements as spec;

use crate::mnemonics::Form;
use crate::number::Number;
use crate::operand::Operand;
use mips_isa::Register;

/// How a number is read.
#[derive(Clone, Copy, Debug, PartialEq, Eq)]
pub enum Reading {
    /// There is none.
    Nothing,
    /// From 0 to 31.
    Amount,
    /// 16 bits whose sign is extended.
    Signed,
    /// 16 bits that are extended by zeros.
    Unsigned,
    /// The low 16 bits of an address.
    LowHalf,
    /// The high 16 bits of an address.
    HighHalf,
    /// Where a branch leads.
    Branch,
    /// Where a jump leads.
    Jump,
    /// A word, modulo 2^32.
    Word,
}

/// Where a number comes from: it is written, or it is what a label stands for. None where it is out of the range of numbers, or where no line
/// has the label.
#[derive(Clone, Copy, Debug, PartialEq, Eq)]
pub enum Source {
    Number(Option<Number>),
    Name(Option<u32>),
}

/// A number that an operand gives, and how it is read.
#[derive(Clone, Copy, Debug, PartialEq, Eq)]
pub struct Given {
    pub reading: Reading,
    pub source: Source,
}

/// The registers and the number that a statement's operands name. What no operand names is 0.
#[derive(Clone, Copy, Debug, PartialEq, Eq)]
pub struct Fields {
    pub rs: Register,
    pub rt: Register,
    pub rd: Register,
    pub given: Given,
}

fn register(operand: &Operand) -> Option<Register>
    ensures { result ≡ spec.as_register operand.now }
{
    match *operand {
        Operand::Register(number) => Some(number),
        _ => None,
    }
}

fn base(operand: &Operand) -> Option<Register>
    ensures { result ≡ spec.as_base operand.now }
{
    match *operand {
        Operand::Based(_, register) => Some(register),
        _ => None,
    }
}

fn read_as(reading: Reading, source: Source) -> Option<Given>
    ensures { result ≡ spec.read_as reading source }
{
    Some(Given { reading, source })
}

fn number(reading: Reading, operand: &Operand) -> Option<Given>
    ensures { result ≡ spec.as_number reading operand.now }
{
    match *operand {
        Operand::Number(number) => read_as(reading, Source::Number(number)),
        _ => None,
    }
}

fn target(reading: Reading, operand: &Operand) -> Option<Given>
    ensures { result ≡ spec.as_target reading operand.now }
{
    match *operand {
        Operand::Number(number) => read_as(reading, Source::Number(number)),
        Operand::Name(address) => read_as(reading, Source::Name(address)),
        _ => None,
    }
}

fn low(operand: &Operand) -> Option<Given>
    ensures { result ≡ spec.as_low operand.now }
{
    match *operand {
        Operand::Number(number) => read_as(Reading::Unsigned, Source::Number(number)),
        Operand::Low(address) => read_as(Reading::LowHalf, Source::Name(address)),
        _ => None,
    }
}

fn high(operand: &Operand) -> Option<Given>
    ensures { result ≡ spec.as_high operand.now }
{
    match *operand {
        Operand::Number(number) => read_as(Reading::Unsigned, Source::Number(number)),
        Operand::High(address) => read_as(Reading::HighHalf, Source::Name(address)),
        _ => None,
    }
}

fn offset(operand: &Operand) -> Option<Given>
    ensures { result ≡ spec.as_offset operand.now }
{
    match *operand {
        Operand::Based(number, _) => read_as(Reading::Signed, Source::Number(number)),
        _ => None,
    }
}

fn zero() -> Option<Register>
    ensures { result ≡ spec.no_register }
{
    Some(Register::new(0))
}

fn nothing() -> Option<Given>
    ensures { result ≡ spec.no_number }
{
    read_as(Reading::Nothing, Source::Name(Some(0)))
}

/// The fields, where each of them is there.
fn where_all(
    rs: Option<Register>,
    rt: Option<Register>,
    rd: Option<Register>,
    given: Option<Given>,
) -> Option<Fields>
    ensures { result ≡ spec.where_all rs rt rd given }
{
    Some(Fields {
        rs: rs?,
        rt: rt?,
        rd: rd?,
        given: given?,
    })
}

fn of_none(form: Form) -> Option<Fields>
    ensures { result ≡ spec.of_none form }
{
    match form {
        Form::Nothing => where_all(zero(), zero(), zero(), nothing()),
        _ => None,
    }
}

fn of_one(form: Form, a: &Operand) -> Option<Fields>
    ensures { result ≡ spec.of_one form a.now }
{
    match form {
        Form::Destination => where_all(zero(), zero(), register(a), nothing()),
        Form::Source => where_all(register(a), zero(), zero(), nothing()),
        Form::Target => where_all(zero(), zero(), zero(), target(Reading::Jump, a)),
        Form::Number => where_all(zero(), zero(), zero(), number(Reading::Word, a)),
        Form::Word => where_all(zero(), zero(), zero(), target(Reading::Word, a)),
        _ => None,
    }
}

fn of_two(form: Form, a: &Operand, b: &Operand) -> Option<Fields>
    ensures { result ≡ spec.of_two form a.now b.now }
{
    match form {
        Form::DestinationSource => where_all(register(b), zero(), register(a), nothing()),
        Form::Sources => where_all(register(a), register(b), zero(), nothing()),
        Form::SourceNumber => where_all(register(a), zero(), zero(), number(Reading::Signed, b)),
        Form::SourceTarget => where_all(register(a), zero(), zero(), target(Reading::Branch, b)),
        Form::HighHalf => where_all(zero(), register(a), zero(), high(b)),
        Form::Memory => where_all(base(b), register(a), zero(), offset(b)),
        Form::Coprocessor => where_all(zero(), register(a), register(b), nothing()),
        _ => None,
    }
}

fn of_three(form: Form, a: &Operand, b: &Operand, c: &Operand) -> Option<Fields>
    ensures { result ≡ spec.of_three form a.now b.now c.now }
{
    match form {
        Form::DestinationSources => where_all(register(b), register(c), register(a), nothing()),
        Form::ShiftByRegister => where_all(register(c), register(b), register(a), nothing()),
        Form::ShiftByAmount => {
            where_all(zero(), register(b), register(a), number(Reading::Amount, c))
        }
        Form::SourcesTarget => {
            where_all(register(a), register(b), zero(), target(Reading::Branch, c))
        }
        Form::SignedNumber => {
            where_all(register(b), register(a), zero(), number(Reading::Signed, c))
        }
        Form::UnsignedNumber => {
            where_all(
                register(b),
                register(a),
                zero(),
                number(Reading::Unsigned, c),
            )
        }
        Form::LowHalf => where_all(register(b), register(a), zero(), low(c)),
        _ => None,
    }
}

/// The fields that operands name, where they are as many and of the kinds that a mnemonic takes.
pub fn fields_of(form: Form, operands: &[Operand]) -> Option<Fields>
    ensures { result ≡ spec.fields_of form operands.now }
{
    match operands {
        [] => of_none(form),
        [a] => of_one(form, a),
        [a, b] => of_two(form, a, b),
        [a, b, c] => of_three(form, a, b, c),
        _ => None,
    }
}
