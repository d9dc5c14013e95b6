//! The program: it gives the words of its command line, files and the standard streams to the tools.
#![tactic(auto)]

mod stack;

ghost use Rattle.std.specs.Prelude.{◌≡◌, ◌≢◌, IsTrue, map, string_bytes};
ghost use Rattle.std.specs.declared.io.ErrorKind.TheVariants.{OutOfMemory};
ghost use Rattle.pd_answers.specs.Words.{asked};
ghost use Rattle.pd_answers.specs.Terms.{is_possible};
ghost use Rattle.pd_answers.specs.Promises.{terms_of};

use crate::stack::take_stack;
use pd_files::{FileDevice, OpenFiles, StdSink, StdSource};
use pd_tools::run_tool;
use std::io::ErrorKind;
use std::process::ExitCode;
use std::{env, io};

/// Runs the tool that the words ask for. Its status is the exit code.
///
/// The numbers of the standard streams are taken first. If they can't be, nothing tells where the output goes, so nothing is done.
fn main(rt: HostRuntime) -> ExitCode {
    let status = match OpenFiles::new(&rt) {
        Ok(files) => run_words(&rt, &files),
        Err(_) => 6,
    };
    ExitCode::from(status)
}

/// Takes the words and the stack, and runs the tool.
fn run_words(rt: &HostRuntime, files: &OpenFiles<HostRuntime>) -> u8 {
    match begin(rt) {
        Ok(words) => run(rt, files, words.as_slice()),
        Err(error) => unready_status(error.kind()),
    }
}

/// Takes the words and the stack.
fn begin(rt: &HostRuntime) -> io::Result<Vec<String>> {
    let words = tool_words(rt)?;
    take_stack(rt, words.len())?;
    Ok(words)
}

/// The words without the first one, which is the program's own name.
fn tool_words(rt: &HostRuntime) -> io::Result<Vec<String>> {
    let words = env::args(rt)?.skip(1).collect(rt.alloc())?;
    Ok(words)
}

/// Runs the tool over real files and the standard streams. What it takes of the stack it takes when it is called, so it is
/// no part of its caller.
#[inline(never)]
fn run(rt: &HostRuntime, files: &OpenFiles<HostRuntime>, words: &[String]) -> u8
    ensures { IsTrue (is_possible (terms_of (asked (map string_bytes words.now))) result) }
{
    run_tool(
        rt.alloc(),
        words,
        &mut StdSource::new(files),
        &mut StdSink::out(files),
        &mut StdSink::err(files),
        &mut FileDevice::new(files),
        &mut FileDevice::new(files),
        &mut FileDevice::new(files),
    )
}

/// The status where the words or the stack couldn't be taken: 7 for want of memory, and 2 for another cause, as a
/// word that isn't UTF-8.
fn unready_status(cause: ErrorKind) -> u8
    ensures memory { cause ≡ OutOfMemory → result ≡ 7 }
    ensures other { cause ≢ OutOfMemory → result ≡ 2 }
{
    if cause == ErrorKind::OutOfMemory {
        7
    } else {
        2
    }
}
