//! A machine over an image that is proved never stuck: it writes `!`, asks with the next byte of its input, and leaves
//! the number of the reply. A request costs the whole frame budget.

ghost use Rattle.std.specs.Prelude.{◌≡◌, IfOk};
ghost use Rattle.en_machine.specs.declared.phase.Phase.TheVariants.{Rests, Runs, Awaits};
ghost use Rattle.machine_tests.specs.Asking.{asking};

use cl_base::name::NoMemory;
use cl_mean::outcome::Trap;
use cl_tree::kinds::IntKind::I32;
use cl_tree::kinds::TrapCause;
use en_image::image::{Entrance, Image, Payload};
use en_image::instr::Instr::*;
use en_machine::machine::Machine;
use en_machine::stopped::Stopped;
use sqlite_items::Items;
use std::alloc::{AllocError, Global};
use std::process::Abort;
use std::test::Fail;

/// One function, which is `main` and serves the only row; the row has an array of one `int`.
fn asking(alloc: Global) -> Result<Image, AllocError>
    ensures { IfOk result (λ i. i ≡ asking) }
{
    let mut payloads = Items::new(alloc);
    payloads.push(Payload {
        request: Items::from_slice(alloc, &[I32])?,
        reply: Items::from_slice(alloc, &[I32])?,
        request_length: 8_388_554,
        reply_length: 4,
        arrays: Items::from_slice(alloc, &[0])?,
    })?;
    let first = Entrance {
        at: 0,
        cells: 2,
        line: 1,
        params: 0,
        locals: 0,
    };
    let code = [
        Byte { value: 33, line: 2 },
        Get,
        Ask { row: 0, line: 4 },
        Return(1),
    ];
    Ok(Image {
        code: Items::from_slice(alloc, &code)?,
        functions: Items::from_slice(alloc, &[Some(first)])?,
        statics: Items::new(alloc),
        rows: Items::from_slice(alloc, &[Some(0)])?,
        main: Some(0),
        payloads,
    })
}

/// A machine at rest over the input `A`.
fn opened(alloc: Global) -> Result<Machine, NoMemory>
    ensures image { IfOk result (λ m. m.image ≡ asking) }
    ensures rests { IfOk result (λ m. m.phase ≡ Rests) }
{
    let input = Vec::from_slice(alloc, b"A")?;
    Machine::open(alloc, asking(alloc)?, input, 10)
}

#[tactic(auto, using(crate::proofs::Asking::safe))]
fn spends(rt: &impl Abort, machine: &mut Machine)
    requires image { machine.old.image ≡ asking }
    requires runs { machine.old.phase ≡ Runs }
    ensures image { machine.new.image ≡ asking }
    ensures runs { machine.new.phase ≡ Runs }
{
    let Stopped::Spent = machine.run_for(1) else {
        panic!(rt; "an instruction went on");
    };
    assert_eq!(rt; machine.output(), b"!".as_slice());
}

#[tactic(auto, using(crate::proofs::Asking::safe))]
fn asks(rt: &impl Abort, machine: &mut Machine)
    requires image { machine.old.image ≡ asking }
    requires runs { machine.old.phase ≡ Runs }
    ensures image { machine.new.image ≡ asking }
    ensures awaits { machine.new.phase ≡ Awaits 0 }
{
    let Stopped::Asks(0) = machine.run_for(9) else {
        panic!(rt; "the machine asked");
    };
    assert_eq!(rt; machine.asked(), [65].as_slice());
}

#[tactic(auto, using(crate::proofs::Asking::safe))]
fn ends(rt: &impl Abort, machine: &mut Machine, results: &[i128])
    requires image { machine.old.image ≡ asking }
    requires runs { machine.old.phase ≡ Runs }
    ensures image { machine.new.image ≡ asking }
    ensures rests { machine.new.phase ≡ Rests }
{
    let Stopped::Ended = machine.run_for(9) else {
        panic!(rt; "the machine ended");
    };
    assert_eq!(rt; machine.results(), results);
}

// The second request passes the frame budget.
#[tactic(auto, using(crate::proofs::Asking::safe))]
fn traps(rt: &impl Abort, machine: &mut Machine)
    requires image { machine.old.image ≡ asking }
    requires runs { machine.old.phase ≡ Runs }
{
    let Stopped::Trapped(trap) = machine.run_for(9) else {
        panic!(rt; "the machine trapped");
    };
    let told = Trap {
        cause: TrapCause::Frames,
        line: 4,
    };
    assert_eq!(rt; trap, told);
}

#[test]
fn a_machine_goes_on_with_a_reply(rt: HostRuntime) -> Result<(), Fail> {
    let mut machine = opened(rt.alloc())?;
    machine.start();
    spends(&rt, &mut machine);
    asks(&rt, &mut machine);
    machine.resume(&[30]);
    ends(&rt, &mut machine, &[30]);
    machine.start();
    traps(&rt, &mut machine);
    assert_eq!(rt; machine.output(), b"!!".as_slice());
    assert_eq!(rt; machine.image().main, Some(0));
    Ok(())
}

#[test]
fn a_machine_serves_and_goes_on_after_a_blocked_call(rt: HostRuntime) -> Result<(), Fail> {
    let mut machine = opened(rt.alloc())?;
    machine.serve(0, &[9]);
    asks(&rt, &mut machine);
    machine.resume_blocked();
    ends(&rt, &mut machine, &[65]);
    Ok(())
}
