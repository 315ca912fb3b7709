//! Reads the files that the words name and writes how many microseconds each pass of the front end takes: what
//! `bench/front` shows.
#![tactic(auto)]

ghost use Rattle.std.specs.Prelude.{◌≤◌, length, vec_len};

use cl_base::host::HostFiles;
use cl_base::limits::SOURCE_BYTES;
use cl_base::outside::Files;
use cl_forbidden::stmts::look_program as look_for_tokens;
use cl_front::accept::accept;
use cl_front::stop::FrontStop;
use cl_large::items::look_program as look_for_sizes;
use cl_lex::lex::lex;
use cl_mean::checked::Typed;
use cl_parse::reader::parse;
use cl_scope::stop::Stop;
use cl_sema::ends::look_program as look_for_ends;
use cl_sema::resolve::resolve;
use cl_sema::stop::SemaStop;
use cl_tree::tree::Program;
use cl_twice::items::look_program as look_for_second;
use cl_typing::sought::Sought;
use cl_unknown::items::look_program as look_for_unknown;
use cl_wrong::items::look_program as look_for_types;
use cle_defs::labels::labels;
use cle_defs::stop::CleStop;
use std::thread::{Builder, Promise, Threads};
use std::time::Instant;
use std::{env, io};

/// Bytes of stack, for the deepest source; what isn't used costs no memory.
const STACK_BYTES: usize = 1 << 30;

/// Writes the time since a pass began.
fn told(rt: &HostRuntime, pass: &str, start: Instant) -> io::Result<()> {
    let micros = start.elapsed(rt)?.as_micros();
    print!(rt; " {pass} {micros}")
}

/// Writes the time of the search for the first place of a rule, and that place.
fn looked(rt: &HostRuntime, rule: &str, start: Instant, found: Result<(), Stop>) -> io::Result<()> {
    told(rt, rule, start)?;
    match found {
        Ok(()) => Ok(()),
        Err(Stop::At(line)) => print!(rt; " (line {line})"),
        Err(Stop::NoMemory) => print!(rt; " (out of memory)"),
    }
}

/// Times each rule by itself, on the whole program.
fn rules(rt: &HostRuntime, program: &Program) -> io::Result<()> {
    let alloc = rt.alloc();
    let start = Instant::now(rt)?;
    looked(rt, "E08", start, look_for_tokens(Sought::Pointers, program))?;
    let start = Instant::now(rt)?;
    looked(rt, "E09", start, look_for_tokens(Sought::Reals, program))?;
    let start = Instant::now(rt)?;
    looked(rt, "E19", start, look_for_second(alloc, program))?;
    let start = Instant::now(rt)?;
    looked(rt, "E18", start, look_for_unknown(alloc, program))?;
    let start = Instant::now(rt)?;
    looked(rt, "E20", start, look_for_types(alloc, program))?;
    let start = Instant::now(rt)?;
    looked(rt, "E21", start, look_for_sizes(alloc, program))?;
    let start = Instant::now(rt)?;
    looked(rt, "E22", start, look_for_ends(program))
}

/// Times the rules of labels together, with the table.
fn labelled(rt: &HostRuntime, typed: &Typed) -> io::Result<()> {
    let start = Instant::now(rt)?;
    let answer = labels(rt.alloc(), typed);
    told(rt, "labels", start)?;
    match answer {
        Ok(_) => println!(rt; ": labelled"),
        Err(CleStop::Rule { rule, line }) => println!(rt; ": rule {rule} fails at line {line}"),
        Err(CleStop::NoMemory) => println!(rt; ": out of memory"),
    }
}

/// Times all rules of names, types and sizes together, with the facts, and then those of labels.
fn whole(rt: &HostRuntime, program: Program) -> io::Result<()> {
    let start = Instant::now(rt)?;
    let answer = resolve(rt.alloc(), program);
    told(rt, "resolve", start)?;
    match answer {
        Ok(typed) => labelled(rt, &typed),
        Err(SemaStop::Rule { rule, line }) => println!(rt; ": rule {rule} fails at line {line}"),
        Err(SemaStop::NoMemory) => println!(rt; ": out of memory"),
    }
}

/// Times the whole front end.
fn checked(rt: &HostRuntime, source: &[u8]) -> io::Result<()>
    requires { length source.now ≤ 1048576 }
{
    let start = Instant::now(rt)?;
    let answer = accept(rt.alloc(), source);
    told(rt, "check", start)?;
    match answer {
        Ok(_) => print!(rt; " (accepted)"),
        Err(FrontStop::Refused { rule, line }) => print!(rt; " (rule {rule} fails at line {line})"),
        Err(FrontStop::NoMemory) => print!(rt; " (out of memory)"),
    }
}

fn measured(rt: &HostRuntime, source: &[u8]) -> io::Result<()>
    requires { length source.now ≤ 1048576 }
{
    checked(rt, source)?;
    let start = Instant::now(rt)?;
    let Ok(tokens) = lex(rt.alloc(), source) else {
        told(rt, "lexer", start)?;
        return println!(rt; ": no tokens");
    };
    told(rt, "lexer", start)?;
    let start = Instant::now(rt)?;
    let Ok(program) = parse(rt.alloc(), tokens.as_slice()) else {
        told(rt, "reader", start)?;
        return println!(rt; ": no program");
    };
    told(rt, "reader", start)?;
    rules(rt, &program)?;
    whole(rt, program)
}

/// Nothing is promised of what a thread finds.
#[derive(Clone, Copy)]
struct Any;

impl Promise<bool> for Any {
    ghost kept_by = { λ _ _. Unit {0} };
}

/// Measures on a thread with a large stack, or on the caller's own where none can be started. False where the times
/// could not be written.
fn measured_apart(threads: &impl Threads, rt: HostRuntime, source: Vec<u8>) -> bool
    requires { vec_len source ≤ 1048576 }
{
    let builder = Builder::new().stack_size(STACK_BYTES);
    let run = move || measured(&rt, source.as_slice()).is_ok();
    match builder.spawn_with(threads, Any, run) {
        Ok(thread) => thread.join(threads),
        Err(refused) => (refused.value)(),
    }
}

fn report(threads: &impl Threads, rt: HostRuntime, path: &str) -> io::Result<()> {
    let mut files = HostFiles::new(&rt);
    let Ok(source) = files.read(rt.alloc(), path, SOURCE_BYTES) else {
        return println!(rt; "{path}: not read");
    };
    print!(rt; "{path}:")?;
    if !measured_apart(threads, rt, source) {
        println!(rt; " not measured")?;
    }
    Ok(())
}

fn main(rt: HostRuntime) -> io::Result<()> {
    for path in env::args(&rt)?.skip(1) {
        report(&rt, rt, path.as_str())?;
    }
    Ok(())
}
