//! The command line's words.
ghost use Rattle.std.specs.Prelude.{◌≡◌, ◌<◌, ◌≤◌, ◌^◌, IfOk, IfSome, false, option_map};
ghost use Rattle.clap.specs.Words.{app_of, rule_of, found_of, rows_of};
ghost use Rattle.admission.specs.Chain.{known_form};
ghost use Rattle.admission.specs.Numbers.{number_of as number_in};
ghost use Rattle.admission.specs.Stages.{Gives, seen};
ghost use Rattle.admission.specs.Words.{command as disco, option as option_rule, texts, form_of, given_by, form_given, form_seen, given_seen, most_seed, IsFew};

use crate::{Fault, Refusal};
use clap::error::ErrorKind;
use clap::{Arg, ArgMatches, Command};
use std::alloc::{AllocError, Global};

/// What is to be done.
#[derive(Clone, Copy, Debug, PartialEq, Eq)]
pub enum Form<'a> {
    /// A guest from a raw file, for so many steps.
    Raw(&'a str, u64),
    /// What a description says, under the monitor.
    Machine(&'a str),
    /// What a description says, each guest alone.
    Private(&'a str),
    /// What is made from a number is printed.
    Make(u32),
    /// What is made from a number runs, under the monitor.
    Load(u32),
    /// What a litmus file says.
    Litmus(&'a str),
    /// What the text of a program is assembled to.
    Asm(&'a str),
    /// A guest from such a text, for so many steps.
    AsmSteps(&'a str, u64),
}

/// The values of the options.
#[derive(Clone, Copy)]
struct Given<'a> {
    raw: Option<&'a str>,
    steps: Option<&'a str>,
    machine: Option<&'a str>,
    private: Option<&'a str>,
    make: Option<&'a str>,
    load: Option<&'a str>,
    litmus: Option<&'a str>,
    asm: Option<&'a str>,
}

/// The most steps of a run.
const MOST_STEPS: u64 = 16_000_000;

/// The greatest number from which something is made.
const MOST_SEED: u64 = 4_294_967_295;

/// The number that 1 to 10 decimal digits spell, no more than the most.
fn number_of(text: &str, most: u64) -> Option<u64>
    requires { most < 2 ^ 32 }
    ensures number { result ≡ number_in most text.now }
    ensures few { IfSome result (λ number. number ≤ most) }
{
    let digits = text.as_bytes();
    if digits.is_empty() || digits.len() > 10 {
        return None;
    }
    let mut number = 0u64;
    for digit in digits {
        if !digit.is_ascii_digit() {
            return None;
        }
        number = number * 10 + u64::from(*digit - b'0');
        if number > most {
            return None;
        }
    }
    Some(number)
}

/// The number from which something is made.
fn seed_of(text: &str) -> Option<u32>
    ensures { result ≡ number_in most_seed text.now }
{
    match number_of(text, MOST_SEED) {
        Some(seed) => Some(seed as u32),
        None => None,
    }
}

/// An option that takes one value.
fn option<'a>(alloc: Global, name: &'a str) -> Arg<'a>
    ensures rule { rule_of result ≡ option_rule name.now }
    ensures local { result.global ≡ false }
{
    Arg::new(alloc, name).long(name)
}

/// The command that reads the words.
fn command<'a>(alloc: Global) -> Result<Command<'a>, AllocError>
    ensures { IfOk result (λ c. app_of c ≡ disco) }
{
    Command::new(alloc, "disco")
        .no_binary_name(true)
        .disable_help_flag(true)
        .disable_version_flag(true)
        .arg(option(alloc, "raw"))?
        .arg(option(alloc, "steps"))?
        .arg(option(alloc, "machine"))?
        .arg(option(alloc, "private"))?
        .arg(option(alloc, "make"))?
        .arg(option(alloc, "load"))?
        .arg(option(alloc, "litmus"))?
        .arg(option(alloc, "asm"))
}

/// The form of the options that are present, where they are one of the sets and the number is in range.
fn choose<'a>(given: &Given<'a>) -> Option<Form<'a>>
    ensures form { option_map form_seen result ≡ form_given (given_seen given.now) }
    ensures few { IfSome result IsFew }
{
    match (
        given.raw,
        given.steps,
        given.machine,
        given.private,
        given.make,
        given.load,
        given.litmus,
        given.asm,
    ) {
        (Some(file), Some(steps), None, None, None, None, None, None) => {
            Some(Form::Raw(file, number_of(steps, MOST_STEPS)?))
        }
        (None, None, Some(file), None, None, None, None, None) => Some(Form::Machine(file)),
        (None, None, None, Some(file), None, None, None, None) => Some(Form::Private(file)),
        (None, None, None, None, Some(seed), None, None, None) => Some(Form::Make(seed_of(seed)?)),
        (None, None, None, None, None, Some(seed), None, None) => Some(Form::Load(seed_of(seed)?)),
        (None, None, None, None, None, None, Some(file), None) => Some(Form::Litmus(file)),
        (None, None, None, None, None, None, None, Some(file)) => Some(Form::Asm(file)),
        (None, Some(steps), None, None, None, None, None, Some(file)) => {
            Some(Form::AsmSteps(file, number_of(steps, MOST_STEPS)?))
        }
        _ => None,
    }
}

/// The values that the matches have of the options.
fn given_in<'a>(matches: &ArgMatches<'a>) -> Given<'a>
    ensures { given_seen result ≡ given_by (rows_of (found_of matches.now)) }
{
    Given {
        raw: matches.get_str("raw"),
        steps: matches.get_str("steps"),
        machine: matches.get_str("machine"),
        private: matches.get_str("private"),
        make: matches.get_str("make"),
        load: matches.get_str("load"),
        litmus: matches.get_str("litmus"),
        asm: matches.get_str("asm"),
    }
}

/// The form that the words are.
pub fn read_form<'a>(alloc: Global, words: &'a [String]) -> Result<Form<'a>, Refusal>
    ensures form { Gives (seen form_seen result) (known_form (form_of (texts words.now))) }
    ensures few { IfOk result IsFew }
{
    let Ok(command) = command(alloc) else {
        return Err(Refusal::Memory);
    };
    match command.try_get_matches_from(words) {
        Ok(matches) => match choose(&given_in(&matches)) {
            Some(form) => Ok(form),
            None => Err(Refusal::Fault(Fault::Words)),
        },
        Err(error) => match error.kind() {
            ErrorKind::OutOfMemory => Err(Refusal::Memory),
            _ => Err(Refusal::Fault(Fault::Words)),
        },
    }
}
