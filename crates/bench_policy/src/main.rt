//! Reads the policies that the words name and writes how many microseconds each reading takes: what `bench/policy` shows.
#![tactic(auto)]

use cl_base::host::HostFiles;
use cl_base::outside::Files;
use cl_mean::checked::Checked;
use guard_rules::policy::{PolicyStop, read_policy};
use policy_source::wide::checked;
use std::time::Instant;
use std::{env, io};

/// Bytes of a policy: one more than the most, so that a longer one is seen to be refused.
const MOST_BYTES: usize = 1_048_577;

/// Reads a policy, and writes the time and the number of its rules, or why it has no law.
fn measured(rt: &HostRuntime, checked: &Checked, bytes: &[u8]) -> io::Result<()> {
    let start = Instant::now(rt)?;
    let answer = read_policy(rt.alloc(), bytes, checked);
    let micros = start.elapsed(rt)?.as_micros();
    match answer {
        Ok(law) => {
            let rules = law.rules.as_slice().len();
            println!(rt; "{rules} rules in {micros} microseconds")
        }
        Err(PolicyStop::Rule { rule, at }) => {
            println!(rt; "P{rule} at {at} in {micros} microseconds")
        }
        Err(PolicyStop::NoMemory) => println!(rt; "out of memory"),
    }
}

fn report(rt: &HostRuntime, checked: &Checked, path: &str) -> io::Result<()> {
    let mut files = HostFiles::new(rt);
    let Ok(bytes) = files.read(rt.alloc(), path, MOST_BYTES) else {
        return println!(rt; "{path}: not read");
    };
    print!(rt; "{path}: ")?;
    measured(rt, checked, bytes.as_slice())
}

fn reports(rt: &HostRuntime, checked: &Checked) -> io::Result<()> {
    for path in env::args(rt)?.skip(1) {
        report(rt, checked, path.as_str())?;
    }
    Ok(())
}

fn main(rt: HostRuntime) -> io::Result<()> {
    match checked(rt.alloc()) {
        Ok(checked) => reports(&rt, &checked),
        Err(_) => println!(rt; "out of memory"),
    }
}
