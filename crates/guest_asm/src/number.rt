//! Numbers and registers, as a line writes them.
ghost use Rattle.std.specs.Prelude.{◌≡◌, ◌≤◌, ◌^◌, ◌*◌, ◌+◌, ◌<◌, option_map, IfSome, true};
ghost use Rattle.std.specs.List.{list_all};
ghost use Rattle.std.specs.Char.{is_ascii_digit, is_ascii_hexdigit};
ghost use Rattle.guest_asm.specs.Numbers as spec;

use mips_isa::Register;

/// The greatest magnitude of a number below zero, as far as a word goes.
const MOST_BELOW_ZERO: u32 = 0x8000_0000;

/// A number from -2147483648 to 4294967295: its magnitude, and whether it is below zero.
#[derive(Clone, Copy, Debug, PartialEq, Eq)]
pub struct Number {
    pub negative: bool,
    pub magnitude: u32,
}

impl Number {
    /// The number as a word: modulo 2^32.
    pub fn word(self) -> u32
        ensures { result ≡ spec.word_of self }
    {
        if self.negative {
            0u32.wrapping_sub(self.magnitude)
        } else {
            self.magnitude
        }
    }
}

/// What a digit counts.
fn digit_value(byte: u8) -> u32
    requires { is_ascii_hexdigit byte ≡ true }
    ensures value { result ≡ spec.digit_value byte }
    ensures small { result < 16 }
{
    if byte.is_ascii_digit() {
        u32::from(byte - b'0')
    } else if byte >= b'a' {
        u32::from(byte - b'a' + 10)
    } else {
        u32::from(byte - b'A' + 10)
    }
}

fn are_decimal(digits: &[u8]) -> bool
    ensures { result ≡ list_all is_ascii_digit digits.now }
{
    digits.iter().all(|byte| byte.is_ascii_digit())
}

fn are_hexadecimal(digits: &[u8]) -> bool
    ensures { result ≡ list_all is_ascii_hexdigit digits.now }
{
    digits.iter().all(|byte| byte.is_ascii_hexdigit())
}

/// A number with one more digit, where a word holds it.
fn with_digit(number: Option<u32>, radix: u32, digit: u32) -> Option<u32>
    ensures { result ≡ spec.more number radix digit }
{
    number?.checked_mul(radix)?.checked_add(digit)
}

/// The number that digits write, where a word holds it.
fn digits_value(radix: u32, digits: &[u8]) -> Option<u32>
    requires radix { (10 ≤ radix) × (radix ≤ 16) }
    requires digits { list_all is_ascii_hexdigit digits.now ≡ true }
    ensures { result ≡ spec.held (spec.digits_value radix digits.now) }
{
    let mut number = Some(0);
    for byte in digits {
        number = with_digit(number, radix, digit_value(*byte));
    }
    number
}

/// The number of a sign and a magnitude, where it is in the range of numbers.
fn signed(negative: bool, magnitude: Option<u32>) -> Option<Number>
    ensures { result ≡ spec.signed_held negative magnitude }
{
    let magnitude = magnitude?;
    if negative && magnitude > MOST_BELOW_ZERO {
        return None;
    }
    Some(Number {
        negative: negative && magnitude != 0,
        magnitude,
    })
}

/// The number of decimal digits, of which there is at least one; `Some(None)` where it is out of the range of numbers.
fn decimal(negative: bool, digits: &[u8]) -> Option<Option<Number>>
    ensures { result ≡ spec.decimal negative digits.now }
{
    if digits.is_empty() || !are_decimal(digits) {
        return None;
    }
    Some(signed(negative, digits_value(10, digits)))
}

/// The number of 1 to 8 hexadecimal digits.
fn hexadecimal(digits: &[u8]) -> Option<Option<Number>>
    ensures { result ≡ spec.hexadecimal digits.now }
{
    if digits.is_empty() || digits.len() > 8 || !are_hexadecimal(digits) {
        return None;
    }
    Some(signed(false, digits_value(16, digits)))
}

/// The number that a text writes, if it writes one; `Some(None)` where it is out of the range of numbers.
#[tactic(auto, unfolding(crate::specs::Numbers::number_of))]
pub fn number_of(text: &[u8]) -> Option<Option<Number>>
    ensures { result ≡ spec.number_of text.now }
{
    if let Some(digits) = text.strip_prefix(b"0x") {
        hexadecimal(digits)
    } else if let Some(digits) = text.strip_prefix(b"-") {
        decimal(true, digits)
    } else {
        decimal(false, text)
    }
}

fn one_digit(ones: u8) -> Option<u32>
    ensures value { result ≡ spec.one_digit ones }
    ensures small { IfSome result (λ n. n < 32) }
{
    if ones.is_ascii_digit() {
        Some(u32::from(ones - b'0'))
    } else {
        None
    }
}

fn two_digits(tens: u8, ones: u8) -> Option<u32>
    ensures value { result ≡ spec.two_digits tens ones }
    ensures small { IfSome result (λ n. n < 32) }
{
    if !tens.is_ascii_digit() || !ones.is_ascii_digit() || tens == b'0' {
        return None;
    }
    let number = u32::from(tens - b'0') * 10 + u32::from(ones - b'0');
    if number < 32 { Some(number) } else { None }
}

/// The number of a register: one or two digits, without a zero in front.
fn register_number(digits: &[u8]) -> Option<u32>
    ensures value { result ≡ spec.register_number digits.now }
    ensures small { IfSome result (λ n. n < 32) }
{
    match digits {
        [ones] => one_digit(*ones),
        [tens, ones] => two_digits(*tens, *ones),
        _ => None,
    }
}

/// The register that a text names, as `$31`.
#[tactic(auto, unfolding(crate::specs::Numbers::register_of))]
pub fn register_of(text: &[u8]) -> Option<Register>
    ensures { result ≡ spec.register_of text.now }
{
    let number = register_number(text.strip_prefix(b"$")?)?;
    Some(Register::new(number))
}
