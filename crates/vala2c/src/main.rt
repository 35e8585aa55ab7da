// The program vala2c: it checks Vala, compiles it to C and runs the C that it wrote.
#![tactic(auto)]

mod call;
mod finish;
mod real;
mod running;
mod sources;
mod status;
#[cfg(test)]
mod tests;
mod texts;

use call::vala2c;
use real::{RealFolder, RealSink};
use std::alloc::AllocError;
use std::process::ExitCode;
use std::rt::Env;
use std::{env, io};

// The words behind the program's own name. Words that are not all UTF-8 are none of the grammar.
fn given_words<R: Env + AllocGlobal>(rt: &R) -> Result<Vec<String>, AllocError> {
    let mut words = Vec::new(rt.alloc());
    match env::args(rt) {
        Ok(all) => {
            for word in all.skip(1) {
                words.push(word)?;
            }
            Ok(words)
        }
        Err(error) if error.kind() == io::ErrorKind::OutOfMemory => Err(AllocError),
        Err(_) => Ok(words),
    }
}

fn main(rt: HostRuntime) -> ExitCode {
    let Ok(words) = given_words(&rt) else {
        return ExitCode::from(30);
    };
    let mut folder = RealFolder::new(&rt);
    let mut out = RealSink::new(rt.stdout());
    let mut err = RealSink::new(rt.stderr());
    let status = vala2c(rt.alloc(), &words, &mut folder, &mut out, &mut err);
    ExitCode::from(status.exit_code())
}
