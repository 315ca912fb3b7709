//! The commands other than `run`, by the call that serves them alone.

use super::words::USAGE;
use super::{Case, PLAIN, difference, job, split};
use cl_job::commands::still;
use cl_job::status::Status;
use std::alloc::Global;
use std::test::Fail;

/// Words, what is told of them, and how they end.
const STILL: [(&str, &str, Status); 6] = [
    ("run a.c", USAGE, Status::Usage),
    ("run --journal=j a.c", USAGE, Status::Usage),
    ("run nofile", USAGE, Status::Usage),
    ("check", USAGE, Status::Usage),
    ("", USAGE, Status::Usage),
    (
        "check nofile",
        "closure: cannot read nofile\n",
        Status::ReadFault,
    ),
];

/// Carries a command out, and says what comes of it in another way than it is to.
fn carry_out(alloc: Global, case: &Case<'_>) -> Result<Option<&'static str>, Fail> {
    let words = split(alloc, case.line)?;
    let mut job = job(alloc, case)?;
    let status = still(&mut job, words.as_slice());
    Ok(difference(&mut job, status, case))
}

/// It runs nothing: words of `run` are usage to it.
#[test]
fn other_commands_are_served_alone(rt: HostRuntime) -> Result<(), Fail> {
    for row in &STILL {
        let (line, err, status) = *row;
        let case = Case {
            line,
            err,
            status,
            ..PLAIN
        };
        let difference = carry_out(rt.alloc(), &case)?;
        assert_eq!(rt; difference, None, "{line}");
    }
    Ok(())
}
