//! The program: the top call over the real files and streams.
#![tactic(auto)]

ghost use Rattle.std.specs.Prelude.{◌≡◌, ◌↔◌, ◌≤◌, map, string_bytes, None};
ghost use Rattle.cl_base.specs.declared.limits.TheConstants.{SOURCE_BYTES};
ghost use Rattle.cl_words.specs.Words.{asked};

mod arguments;
mod fitted;
mod large_stack;

use arguments::{ArgumentStop, words};
use cl_base::host::{HostFiles, HostSink, Streams};
use cl_base::limits::SOURCE_BYTES;
use cl_job::commands::closure;
use cl_job::job::Job;
use cl_job::status::Status;
use cl_words::words::read_words;
use fitted::{Fitted, SMALL_ROOM, stack_bytes};
use large_stack::on_large_stack;
use std::alloc::Global;
use std::fs;
use std::process::ExitCode;
use std::rt::Files;
use std::thread::Threads;

/// How long a source the stack is to have room for: as long as the file that the words ask for. Of a pipe nothing is
/// known before it is read.
fn room_for(rt: &impl Files, words: &[String]) -> usize
    ensures { result ≤ SOURCE_BYTES }
{
    let Some(command) = read_words(words) else {
        return SMALL_ROOM;
    };
    match fs::metadata(rt, command.source()) {
        Ok(file) if file.is_file() => {
            let length = file.len().min(SOURCE_BYTES as u64) as usize;
            length.max(SMALL_ROOM)
        }
        Ok(_) => SOURCE_BYTES,
        Err(_) => SMALL_ROOM,
    }
}

/// Carries out the command over the files and the streams of the system, on a stack with room for a source of so many
/// bytes.
fn answer(rt: &(impl Files + Streams + Alloc<A = Global>), words: &[String], room: usize) -> Status
    ensures usage { (result ≡ Status.Usage) ↔ (asked (map string_bytes words.now) ≡ None) }
{
    let mut job = Job {
        alloc: rt.alloc(),
        files: Fitted::new(HostFiles::new(rt), room),
        out: HostSink::out(rt),
        err: HostSink::err(rt),
    };
    closure(&mut job, words)
}

/// As `answer`, with the stack that the source needs, or the one that is there.
fn answer_deep(threads: &impl Threads, rt: HostRuntime, words: &'static [String]) -> Status
    ensures usage { (result ≡ Status.Usage) ↔ (asked (map string_bytes words.now) ≡ None) }
{
    let room = room_for(&rt, words);
    on_large_stack(
        threads,
        stack_bytes(room),
        move || answer(&rt, words, room),
        move || answer(&rt, words, SMALL_ROOM),
    )
}

fn main(rt: HostRuntime) -> ExitCode {
    let words = match words(&rt) {
        Ok(words) => words,
        // A word that is no text has no reading, as no words at all have none.
        Err(ArgumentStop::NotText) => Vec::new(rt.alloc()),
        Err(ArgumentStop::NoMemory) => return ExitCode::from(Status::NoMemory.code()),
    };
    ExitCode::from(answer_deep(&rt, rt, words.leak()).code())
}
