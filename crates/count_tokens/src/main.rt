// Counts the tokens of a Vala file, some number of times: a measure of how fast the lexer is.
#![tactic(auto)]

ghost use Rattle.std.specs.Prelude.{◌<◌, ◌^◌, length};

use std::rt::{Env, Files};
use std::{env, fs, io};
use vala_lexer::Lexer;

// How many tokens stand in front of the end, or of the first broken rule.
fn count(bytes: &[u8]) -> u64
    requires { length bytes.now < 2 ^ 32 }
{
    let mut lexer = Lexer::new(bytes, 0);
    let mut tokens: u64 = 0;
    for _ in 0..bytes.len() {
        match lexer.next() {
            Ok(Some(_)) => tokens = tokens.saturating_add(1),
            _ => break,
        }
    }
    tokens
}

// The words are a file and a number of times.
fn run<R: Env + Files + AllocGlobal + Print>(rt: &R) -> io::Result<()> {
    let mut words = env::args(rt)?.skip(1);
    let (Some(file), Some(times)) = (words.next(), words.next()) else {
        return println!(rt; "count_tokens FILE TIMES");
    };
    let bytes = fs::read(rt, file.as_str())?;
    let times = times.parse::<u32>().unwrap_or(1);
    let mut tokens = 0;
    if bytes.len() < 1 << 32 {
        for _ in 0..times {
            tokens = count(&bytes);
        }
    }
    println!(rt; "{tokens} tokens")
}

fn main(rt: HostRuntime) -> io::Result<()> {
    run(&rt)
}
