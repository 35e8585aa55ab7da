// What the words of a call ask for.

ghost use Rattle.std.specs.Prelude.{◌≡◌, Option, Some, None, map, IfOk, length};
ghost use Rattle.std.specs.List.{list_all};
ghost use Rattle.std.specs.Option.{option_map};
ghost use Rattle.std.specs.String.{string_bytes};
ghost use Rattle.vg_base.specs.World.{is_digit, is_word_byte as is_byte_of_word};
ghost use Rattle.command_line.specs.Given.{gift_of};
ghost use Rattle.command_line.specs.Meaning.{asked_by, asked_in, asked_of, checked_name as name_with};
ghost use Rattle.command_line.specs.Meaning.{fits as fits_command, has_bytes, is_file_count as is_count_of_files};
ghost use Rattle.command_line.specs.Meaning.{is_input as is_an_input, is_name as is_a_name, keeps_files as keeps_its_files};
ghost use Rattle.command_line.specs.Meaning.{name_by, steps_by, takes_no_run as takes_no_run_of};
ghost use Rattle.command_line.specs.Meaning.{takes_options as takes_options_of, writes as writes_file};
ghost use Rattle.command_line.specs.Answers.{Means, Names};

use crate::choice::{Command, Usage};
use crate::given::{Given, given_in};
use crate::line::find;
use crate::name::{c_file_of, first_word, is_none_of, name_in};
use std::alloc::{AllocError, Global};
use vg_base::Fault;

/// The steps of a run where none are given.
const USUAL_STEPS: u64 = 10_000_000;

/// The most steps of a run.
const MOST_STEPS: u64 = 100_000_000_000_000_000;

/// What the words of a call ask for.
#[derive(Drop)]
pub struct Asked {
    pub command: Command,
    pub files: Vec<String>,
    pub name: String,
    pub input: Option<String>,
    pub steps: u64,
    pub strict_null: bool,
    pub trace: bool,
    pub live: bool,
}

fn is_file_count(command: Command, count: usize) -> bool
    ensures { result ≡ is_count_of_files command count }
{
    match command {
        Command::Exec => 1 <= count && count <= 1,
        _ => 1 <= count && count <= 64,
    }
}

// Whether no option of a run is given.
fn takes_no_run(given: &Given<'_>) -> bool
    ensures { result ≡ takes_no_run_of (gift_of given.now) }
{
    given.input.is_none() && given.steps.is_none() && !given.trace && !given.live
}

// Whether a command has all the options that are given.
fn takes_options(command: Command, given: &Given<'_>) -> bool
    ensures { result ≡ takes_options_of command (gift_of given.now) }
{
    match command {
        Command::Check => given.name.is_none() && takes_no_run(given),
        Command::Emit => takes_no_run(given),
        Command::Run => true,
        Command::Exec => !given.strict_null,
    }
}

fn is_input(input: Option<&str>) -> bool
    ensures { result ≡ is_an_input (option_map (λ t. t.now) input.entry) }
{
    match input {
        Some(text) => !text.is_empty(),
        None => true,
    }
}

fn are_words(files: &[String]) -> bool
    ensures { result ≡ list_all has_bytes (map string_bytes files.now) }
{
    files.iter().all(|file| !file.is_empty())
}

// Whether the files and the options are the command's own.
fn fits(command: Command, given: &Given<'_>) -> bool
    ensures { result ≡ fits_command command (gift_of given.now) }
{
    is_file_count(command, given.files.len())
        && are_words(given.files.as_slice())
        && takes_options(command, given)
        && is_input(given.input)
}

fn is_word_byte(b: u8) -> bool
    ensures { result ≡ is_byte_of_word b }
{
    b.is_ascii_alphanumeric() || b == b'_'
}

fn are_word_bytes(bytes: &[u8]) -> bool
    ensures { result ≡ list_all is_byte_of_word bytes.now }
{
    bytes.iter().all(|b| is_word_byte(*b))
}

fn is_name(name: &str) -> bool
    ensures { result ≡ is_a_name name.now }
{
    match name.as_bytes() {
        [] => false,
        [first, others @ ..] => {
            first.is_ascii_alphabetic() && are_word_bytes(others) && others.len() <= 99
        }
    }
}

fn are_digits(bytes: &[u8]) -> bool
    ensures { result ≡ list_all is_digit bytes.now }
{
    bytes.iter().all(|b| b.is_ascii_digit())
}

// The number that a text writes, where it is a number of steps.
fn steps_in(text: &str) -> Option<u64>
    ensures { result ≡ steps_by (Some text.now) }
{
    if text.len() < 1 || text.len() > 18 || !are_digits(text.as_bytes()) {
        return None;
    }
    match text.parse::<u64>() {
        Ok(value) => {
            if value <= MOST_STEPS {
                Some(value)
            } else {
                None
            }
        }
        Err(_) => None,
    }
}

fn copy_of(alloc: Global, text: Option<&str>) -> Result<Option<String>, AllocError>
    ensures { IfOk result (λ copy. option_map string_bytes copy ≡ option_map (λ t. t.now) text.entry) }
{
    match text {
        Some(text) => Ok(Some(String::from_str(alloc, text)?)),
        None => Ok(None),
    }
}

// The name that is given, or else the one that is made of the first file's word.
fn name_of(alloc: Global, given: &Given<'_>) -> Result<String, Fault<Usage>>
    ensures { Names (name_by (gift_of given.now).name (gift_of given.now).files) result }
{
    let name = match given.name {
        Some(name) if is_name(name) => String::from_str(alloc, name),
        Some(_) => return Err(Fault::Refused(Usage {})),
        None => name_in(alloc, first_word(given.files.as_slice())),
    };
    match name {
        Ok(name) => Ok(name),
        Err(_) => Err(Fault::Memory),
    }
}

fn writes(command: Command) -> bool
    ensures { result ≡ writes_file command }
{
    match command {
        Command::Emit | Command::Run => true,
        Command::Check | Command::Exec => false,
    }
}

// Whether no file is the C file that would be written.
fn keeps_files(
    alloc: Global,
    command: Command,
    name: &str,
    files: &[String],
) -> Result<bool, AllocError>
    ensures { IfOk result (λ keeps. keeps ≡ keeps_its_files command name.now (map string_bytes files.now)) }
{
    let c_file = c_file_of(alloc, name)?;
    Ok(!writes(command) || is_none_of(files, c_file.as_str()))
}

// The name of the program, where it is in the grammar and no file would be written over.
fn checked_name(alloc: Global, command: Command, given: &Given<'_>) -> Result<String, Fault<Usage>>
    ensures { Names (name_with command (gift_of given.now)) result }
{
    let name = name_of(alloc, given)?;
    match keeps_files(alloc, command, name.as_str(), given.files.as_slice()) {
        Ok(true) => Ok(name),
        Ok(false) => Err(Fault::Refused(Usage {})),
        Err(_) => Err(Fault::Memory),
    }
}

fn steps_of(steps: Option<&str>) -> Option<u64>
    ensures { result ≡ steps_by (option_map (λ t. t.now) steps.entry) }
{
    match steps {
        Some(text) => steps_in(text),
        None => Some(USUAL_STEPS),
    }
}

// What is asked of a command.
fn ask<'a>(alloc: Global, command: Command, given: Given<'a>) -> Result<Asked, Fault<Usage>>
    ensures { Means (asked_by command (gift_of given.entry)) result }
{
    if !fits(command, &given) {
        return Err(Fault::Refused(Usage {}));
    }
    let name = checked_name(alloc, command, &given)?;
    let Some(steps) = steps_of(given.steps) else {
        return Err(Fault::Refused(Usage {}));
    };
    let Ok(input) = copy_of(alloc, given.input) else {
        return Err(Fault::Memory);
    };
    Ok(Asked {
        command,
        files: given.files,
        name,
        input,
        steps,
        strict_null: given.strict_null,
        trace: given.trace,
        live: given.live,
    })
}

// What is asked for by what is given.
fn ask_given<'a>(alloc: Global, given: Given<'a>) -> Result<Asked, Fault<Usage>>
    ensures { Means (asked_in (gift_of given.entry)) result }
{
    match given.command {
        Some(command) => ask(alloc, command, given),
        None => Err(Fault::Refused(Usage {})),
    }
}

/// What the words behind the program's name ask for. They are refused exactly where they are
/// outside the grammar.
pub fn read_words(alloc: Global, words: &[String]) -> Result<Asked, Fault<Usage>>
    ensures { Means (asked_of (map string_bytes words.now)) result }
{
    let matches = find(alloc, words)?;
    match given_in(alloc, &matches) {
        Ok(given) => ask_given(alloc, given),
        Err(_) => Err(Fault::Memory),
    }
}
