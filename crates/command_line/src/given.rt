// What the words give: the command, the files and the options.

ghost use Rattle.std.specs.Prelude.{◌≡◌, map, IfOk, option_map, option_and_then, codes};
ghost use Rattle.std.specs.String.{string_bytes};
ghost use Rattle.clap.specs.Words.{found_of, rows_of};
ghost use Rattle.command_line.specs.Given.{gift_of, given_by, value_at as value_in, values_at, is_true, command_of as command_named};

use crate::choice::{Command, command_of};
use clap::ArgMatches;
use std::alloc::{AllocError, Global};

/// What some words give.
#[derive(Drop)]
pub struct Given<'a> {
    pub(crate) command: Option<Command>,
    pub(crate) files: Vec<String>,
    pub(crate) name: Option<&'a str>,
    pub(crate) input: Option<&'a str>,
    pub(crate) steps: Option<&'a str>,
    pub(crate) strict_null: bool,
    pub(crate) trace: bool,
    pub(crate) live: bool,
}

fn value_at<'a>(matches: &ArgMatches<'a>, id: &str) -> Option<&'a str>
    ensures { option_map (λ t. t.now) result ≡ value_in (rows_of (found_of matches.now)) id.now }
{
    matches.get_str(id)
}

// Whether an option without a value is given.
fn is_given(matches: &ArgMatches<'_>, id: &str) -> bool
    ensures { result ≡ is_true (value_in (rows_of (found_of matches.now)) id.now) }
{
    match value_at(matches, id) {
        Some(text) => text == "true",
        None => false,
    }
}

fn copy_all(alloc: Global, words: &[&str]) -> Result<Vec<String>, AllocError>
    ensures { IfOk result (λ copies. map string_bytes copies.items ≡ map (λ t. t.now) words.now) }
{
    let mut copies = Vec::new(alloc);
    for word in words {
        copies.push(String::from_str(alloc, word)?)?;
    }
    Ok(copies)
}

fn files_in(alloc: Global, matches: &ArgMatches<'_>) -> Result<Vec<String>, AllocError>
    ensures { IfOk result (λ files. map string_bytes files.items ≡ values_at (rows_of (found_of matches.now)) (codes "files")) }
{
    match matches.get_raw("files") {
        Some(words) => copy_all(alloc, words),
        None => Ok(Vec::new(alloc)),
    }
}

// The command whose word is given.
fn command_in(matches: &ArgMatches<'_>) -> Option<Command>
    ensures { result ≡ option_and_then command_named (value_in (rows_of (found_of matches.now)) (codes "command")) }
{
    match value_at(matches, "command") {
        Some(word) => command_of(word),
        None => None,
    }
}

/// What `clap` found.
pub(crate) fn given_in<'a>(alloc: Global, matches: &ArgMatches<'a>) -> Result<Given<'a>, AllocError>
    ensures { IfOk result (λ given. gift_of given ≡ given_by (rows_of (found_of matches.now))) }
{
    Ok(Given {
        command: command_in(matches),
        files: files_in(alloc, matches)?,
        name: value_at(matches, "name"),
        input: value_at(matches, "input"),
        steps: value_at(matches, "steps"),
        strict_null: is_given(matches, "strict-null"),
        trace: is_given(matches, "trace"),
        live: is_given(matches, "live"),
    })
}
