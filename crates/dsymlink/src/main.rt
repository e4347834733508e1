//! `dsymlink EXE`: links the debugging information of a program into its dSYM bundle.
//!
//! Layer: top. The program reads its words, hands the system's files and standard output to [`link_main`] and ends with
//! the code of the status.
#![tactic(auto)]

ghost use Rattle.std.specs.Prelude.{◌≡◌, ◌≢◌, [], map, IfOk, drop};
ghost use Rattle.std.specs.Process.{exit_status};
ghost use Rattle.std.specs.String.{string_bytes};
ghost use Rattle.std.specs.Vec.Iter.{into_iter_items};
ghost use Rattle.dsymlink.specs.Runs.{Answers, IsUnasked};
ghost use Rattle.link_cli.specs.Answer.{Links};
ghost use Rattle.link_cli.specs.Endings.{said};
ghost use Rattle.link_program.specs.Files.{world};
ghost use Rattle.link_status.specs.Codes.{code_of};

use ds_files::{Files, HostFiles, HostSink, OpenGate, Sink};
use link_cli::link_main;
use link_status::{Status, code};
use std::alloc::{AllocError, Global};
use std::io::ErrorKind;
use std::process::ExitCode;
use std::rt::Env;
use std::thread::Threads;
use std::{env, rt};

fn main(rt: HostRuntime) -> ExitCode {
    ended(&run(&rt))
}

/// The code with which the process ends after a link of this status.
fn ended(status: &Status) -> ExitCode
    ensures { exit_status result ≡ code_of status.now }
{
    ExitCode::from(code(status))
}

/// Links the program that the process's arguments name, by the system's files and standard output.
fn run<R: Env + rt::Files + Print + AllocGlobal + Threads + Sync>(rt: &R) -> Status
where
    R::File: Send,
    R::Dir: Send,
{
    let alloc = rt.alloc();
    let mut files = HostFiles::new(rt);
    let mut messages = HostSink::new(rt);
    match env::args(rt) {
        Ok(args) => link_args(rt, alloc, args, &mut files, &mut messages),
        Err(error) => link_nothing(rt, alloc, error.kind(), &mut files, &mut messages),
    }
}

/// What the linker answers of the arguments: of all but the first, which is the program's own name.
fn link_args<R: Threads + Sync, F: Files + Sync, S: Sink>(
    rt: &R,
    alloc: Global,
    args: env::Args,
    files: &mut F,
    messages: &mut S,
) -> Status
    ensures { Answers (map string_bytes (drop 1 (into_iter_items args))) (world (F.files files.old) (F.counts files.old)) (world (F.files files.new) (F.counts files.new)) (said (S.text messages.old) (S.faults messages.old) (S.calls messages.old)) (said (S.text messages.new) (S.faults messages.new) (S.calls messages.new)) result }
{
    match words_of(alloc, args) {
        Ok(words) => link_main(
            rt,
            alloc,
            words.as_slice(),
            files,
            messages,
            &OpenGate::new(),
        ),
        Err(_) => Status::NoMemory,
    }
}

/// What is answered where the arguments are not read: there are no words, unless memory ran out.
fn link_nothing<R: Threads + Sync, F: Files + Sync, S: Sink>(
    rt: &R,
    alloc: Global,
    kind: ErrorKind,
    files: &mut F,
    messages: &mut S,
) -> Status
    ensures memory { kind ≡ ErrorKind.OutOfMemory → IsUnasked (world (F.files files.old) (F.counts files.old)) (world (F.files files.new) (F.counts files.new)) (said (S.text messages.old) (S.faults messages.old) (S.calls messages.old)) (said (S.text messages.new) (S.faults messages.new) (S.calls messages.new)) result }
    ensures words { kind ≢ ErrorKind.OutOfMemory → Links [] (world (F.files files.old) (F.counts files.old)) (world (F.files files.new) (F.counts files.new)) (said (S.text messages.old) (S.faults messages.old) (S.calls messages.old)) (said (S.text messages.new) (S.faults messages.new) (S.calls messages.new)) result }
{
    if kind == ErrorKind::OutOfMemory {
        return Status::NoMemory;
    }
    link_main(rt, alloc, &[], files, messages, &OpenGate::new())
}

/// The words of the command: all arguments but the first, which is the program's own name.
fn words_of(alloc: Global, args: env::Args) -> Result<Vec<String>, AllocError>
    ensures { IfOk result (λ words. words.items ≡ drop 1 (into_iter_items args)) }
{
    let mut rest = args;
    let _name = rest.next();
    let mut words = Vec::new(alloc);
    for word in rest {
        words.push(word)?;
    }
    Ok(words)
}
