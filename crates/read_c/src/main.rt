// Reads a C file, some number of times, and says what its text answers: its number of items, or its first refusal.
#![tactic(auto)]

use c_text_reader::read;
use c_tree::{Cause, Refusal, Unit};
use std::alloc::Global;
use std::rt::{Env, Files};
use std::{env, fs, io};
use vg_base::Fault;

// The number of a cause, as the table of refusals has it.
fn number(cause: Cause) -> u32 {
    match cause {
        Cause::Token => 1,
        Cause::Syntax => 2,
        Cause::Undeclared => 3,
        Cause::Misfit => 4,
        Cause::Twice => 5,
        Cause::Large => 6,
    }
}

fn say<R: Print>(rt: &R, answer: Result<Unit, Fault<Refusal>>) -> io::Result<()> {
    match answer {
        Ok(unit) => println!(rt; "{} items", unit.items.len()),
        Err(Fault::Refused(refusal)) => {
            println!(rt; "byte {}: C{}", refusal.at, number(refusal.cause))
        }
        Err(Fault::Memory) => println!(rt; "out of memory"),
    }
}

fn read_again(alloc: Global, bytes: &[u8], times: u32) {
    for _ in 1..times {
        let _answer = read(alloc, bytes, u64::MAX);
    }
}

// The words are a file and a number of times.
fn run<R: Env + Files + AllocGlobal + Print>(rt: &R) -> io::Result<()> {
    let mut words = env::args(rt)?.skip(1);
    let (Some(file), Some(times)) = (words.next(), words.next()) else {
        return println!(rt; "read_c FILE TIMES");
    };
    let bytes = fs::read(rt, file.as_str())?;
    let times = times.parse::<u32>().unwrap_or(1);
    read_again(rt.alloc(), &bytes, times);
    say(rt, read(rt.alloc(), &bytes, u64::MAX))
}

fn main(rt: HostRuntime) -> io::Result<()> {
    run(&rt)
}
