// The commands, and the words that name them.

ghost use Rattle.std.specs.Prelude.{◌≡◌};
ghost use Rattle.command_line.specs.Given.{command_of as command_named};

/// What is done with the files.
#[derive(Clone, Copy, Debug, PartialEq)]
pub enum Command {
    Check,
    Emit,
    Run,
    Exec,
}

/// The words are outside the grammar.
#[derive(Clone, Copy, Debug)]
pub struct Usage {}

/// The command that a word names.
pub(crate) fn command_of(word: &str) -> Option<Command>
    ensures { result ≡ command_named word.now }
{
    if word == "check" {
        Some(Command::Check)
    } else if word == "emit" {
        Some(Command::Emit)
    } else if word == "run" {
        Some(Command::Run)
    } else if word == "exec" {
        Some(Command::Exec)
    } else {
        None
    }
}
