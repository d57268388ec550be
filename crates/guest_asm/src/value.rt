//! The value of a statement's number.
ghost use Rattle.std.specs.Prelude.{◌≡◌, ◌+◌, ◌<◌, ◌^◌};
ghost use Rattle.guest_asm.specs.Values as spec;

use crate::fields::{Given, Reading, Source};
use crate::number::Number;

/// A value, where it is in range.
fn where_in(range: bool, value: u32) -> Option<u32>
    ensures { result ≡ spec.where_in range value }
{
    if range { Some(value) } else { None }
}

fn amount(number: Number) -> Option<u32>
    ensures { result ≡ spec.amount number }
{
    where_in(!number.negative && number.magnitude < 32, number.magnitude)
}

fn unsigned(number: Number) -> Option<u32>
    ensures { result ≡ spec.unsigned number }
{
    where_in(
        !number.negative && number.magnitude < 0x1_0000,
        number.magnitude,
    )
}

/// 16 bits of a number below zero.
fn below_zero(magnitude: u32) -> Option<u32>
    ensures { result ≡ spec.below_zero magnitude }
{
    if magnitude > 0x8000 {
        return None;
    }
    Some((0x1_0000 - magnitude) % 0x1_0000)
}

/// 16 bits of a number from zero on.
fn from_zero(magnitude: u32) -> Option<u32>
    ensures { result ≡ spec.from_zero magnitude }
{
    where_in(magnitude < 0x8000, magnitude)
}

fn half(number: Number) -> Option<u32>
    ensures { result ≡ spec.half number }
{
    if number.negative {
        below_zero(number.magnitude)
    } else {
        from_zero(number.magnitude)
    }
}

/// How many words a target is away from the address behind a branch.
fn distance(behind: u32, to: u32) -> Option<u32>
    ensures { result ≡ spec.distance behind to }
{
    if behind <= to {
        from_zero((to - behind) / 4)
    } else {
        below_zero((behind - to) / 4)
    }
}

fn branch(address: u32, to: u32) -> Option<u32>
    requires { address + 4 < 2 ^ 32 }
    ensures { result ≡ spec.branch address to }
{
    if to % 4 == 0 {
        distance(address + 4, to)
    } else {
        None
    }
}

fn jump(address: u32, to: u32) -> Option<u32>
    requires { address + 4 < 2 ^ 32 }
    ensures { result ≡ spec.jump address to }
{
    let same_region = to / 0x1000_0000 == (address + 4) / 0x1000_0000;
    where_in(to % 4 == 0 && same_region, to / 4 % 0x400_0000)
}

/// The value of a number at an address, where it is in the range of the way in which it is read.
fn number_value(reading: Reading, address: u32, number: Number) -> Option<u32>
    requires { address + 4 < 2 ^ 32 }
    ensures { result ≡ spec.number_value reading address number }
{
    match reading {
        Reading::Nothing => Some(0),
        Reading::Amount => amount(number),
        Reading::Signed => half(number),
        Reading::Unsigned => unsigned(number),
        Reading::LowHalf => Some(number.word() % 0x1_0000),
        Reading::HighHalf => Some(number.word() / 0x1_0000),
        Reading::Branch => branch(address, number.word()),
        Reading::Jump => jump(address, number.word()),
        Reading::Word => Some(number.word()),
    }
}

/// What a label stands for, as a number.
fn at_label(address: u32) -> Number
    ensures { result ≡ spec.at_label address }
{
    Number {
        negative: false,
        magnitude: address,
    }
}

/// The number that a source is.
fn number_in(source: Source) -> Option<Number>
    ensures { result ≡ spec.number_in source }
{
    match source {
        Source::Number(number) => number,
        Source::Name(Some(label)) => Some(at_label(label)),
        Source::Name(None) => None,
    }
}

/// The value of what is given, in a statement at an address; None where it is out of range, or where no line has the label.
#[tactic(auto, unfolding(crate::specs::Values::value_of))]
pub fn value_of(given: Given, address: u32) -> Option<u32>
    requires { address + 4 < 2 ^ 32 }
    ensures { result ≡ spec.value_of given address }
{
    number_value(given.reading, address, number_in(given.source)?)
}

/// Whether a name is used that is no label.
pub fn is_unlabelled(source: Source) -> bool
    ensures { result ≡ spec.is_unlabelled source }
{
    match source {
        Source::Number(_) => false,
        Source::Name(address) => address.is_none(),
    }
}
