// The words of a call as a command of `clap`.

ghost use Rattle.std.specs.Prelude.{◌≡◌, IfOk, false, map};
ghost use Rattle.std.specs.String.{string_bytes};
ghost use Rattle.clap.specs.Words.{app_of, rule_of};
ghost use Rattle.command_line.specs.Line.{option as option_rule, flag as flag_rule, command_word as command_rule};
ghost use Rattle.command_line.specs.Line.{file_words as file_rule, options, flags, bare_line as bare, line as whole, with_rules};
ghost use Rattle.command_line.specs.Answers.{Finds};

use crate::choice::Usage;
use clap::error::ErrorKind;
use clap::{Arg, ArgAction, ArgMatches, Command};
use std::alloc::{AllocError, Global};
use vg_base::Fault;

// An option with a value.
fn option<'a>(alloc: Global, name: &'a str) -> Arg<'a>
    ensures rule { rule_of result ≡ option_rule name.entry.now }
    ensures local { result.global ≡ false }
{
    Arg::new(alloc, name).long(name).action(ArgAction::Set)
}

// An option that takes no value.
fn flag<'a>(alloc: Global, name: &'a str) -> Arg<'a>
    ensures rule { rule_of result ≡ flag_rule name.entry.now }
    ensures local { result.global ≡ false }
{
    Arg::new(alloc, name).long(name).action(ArgAction::SetTrue)
}

// The first word that stands by its place.
fn command_word<'a>(alloc: Global) -> Arg<'a>
    ensures rule { rule_of result ≡ command_rule }
    ensures local { result.global ≡ false }
{
    Arg::new(alloc, "command")
        .action(ArgAction::Set)
        .required(true)
}

// The words behind it that stand by their places.
fn file_words<'a>(alloc: Global) -> Arg<'a>
    ensures rule { rule_of result ≡ file_rule }
    ensures local { result.global ≡ false }
{
    Arg::new(alloc, "files")
        .action(ArgAction::Append)
        .required(true)
}

// The words begin behind the program's own name, and `--help` is no option.
fn bare_line<'a>(alloc: Global) -> Command<'a>
    ensures { app_of result ≡ bare }
{
    Command::new(alloc, "vala2c")
        .no_binary_name(true)
        .disable_help_flag(true)
}

fn with_options<'a>(alloc: Global, line: Command<'a>) -> Result<Command<'a>, AllocError>
    ensures { IfOk result (λ c. app_of c ≡ with_rules (app_of line.entry) options) }
{
    line.arg(option(alloc, "name"))?
        .arg(option(alloc, "input"))?
        .arg(option(alloc, "steps"))
}

fn with_flags<'a>(alloc: Global, line: Command<'a>) -> Result<Command<'a>, AllocError>
    ensures { IfOk result (λ c. app_of c ≡ with_rules (app_of line.entry) flags) }
{
    line.arg(flag(alloc, "strict-null"))?
        .arg(flag(alloc, "trace"))?
        .arg(flag(alloc, "live"))
}

fn line<'a>(alloc: Global) -> Result<Command<'a>, AllocError>
    ensures { IfOk result (λ c. app_of c ≡ whole) }
{
    let options = with_options(alloc, bare_line(alloc))?;
    with_flags(alloc, options)?
        .arg(command_word(alloc))?
        .arg(file_words(alloc))
}

/// What `clap` finds in the words.
pub(crate) fn find<'a>(alloc: Global, words: &'a [String]) -> Result<ArgMatches<'a>, Fault<Usage>>
    ensures { Finds (map string_bytes words.entry.now) result }
{
    let Ok(line) = line(alloc) else {
        return Err(Fault::Memory);
    };
    match line.try_get_matches_from(words) {
        Ok(matches) => Ok(matches),
        Err(error) => {
            if error.kind() == ErrorKind::OutOfMemory {
                Err(Fault::Memory)
            } else {
                Err(Fault::Refused(Usage {}))
            }
        }
    }
}
