//! Runs a loop of as many steps as each word says, and prints the sum that it makes: what `bench/machine` times.
#![tactic(auto)]

use cl_base::name::NoMemory;
use cl_tree::kinds::{BinOp, IntKind};
use en_fused::reading::entries;
use en_image::image::{Entrance, Image};
use en_image::instr::Instr::{self, *};
use en_machine::engine::Engine;
use en_machine::stopped::Stopped;
use sqlite_items::Items;
use std::alloc::{AllocError, Global};
use std::{env, io};

const LESS: Instr = Two {
    op: BinOp::Less,
    kind: IntKind::I32,
    line: 1,
};

const NEXT: Instr = Two {
    op: BinOp::Add,
    kind: IntKind::I32,
    line: 1,
};

const SUM: Instr = Two {
    op: BinOp::Add,
    kind: IntKind::LLong,
    line: 1,
};

/// `for (i = 0; i < count; i++) sum = sum + i;`
fn looping(alloc: Global, count: u32) -> Result<Image, AllocError> {
    let code = [
        Step(1),
        Local(0),
        Fetch(1),
        Push(count as i128),
        LESS,
        Zero(20),
        Local(1),
        Local(1),
        Fetch(1),
        Local(0),
        Fetch(1),
        SUM,
        Store(1),
        Local(0),
        Local(0),
        Fetch(1),
        Push(1),
        NEXT,
        Store(1),
        Jump(0),
        Local(1),
        Fetch(1),
        Return(1),
    ];
    let main = Entrance {
        at: 0,
        cells: 8,
        line: 1,
        params: 0,
        locals: 2,
    };
    Ok(Image {
        code: Items::from_slice(alloc, &code)?,
        functions: Items::from_slice(alloc, &[Some(main)])?,
        statics: Items::new(alloc),
        rows: Items::new(alloc),
        main: Some(0),
        payloads: Items::new(alloc),
    })
}

/// The sum, where the loop comes to its end.
fn sum_of(alloc: Global, count: u32) -> Result<Option<i128>, NoMemory> {
    let image = looping(alloc, count)?;
    let mut engine = Engine::open(alloc, &image, u64::MAX)?;
    engine.begin(&image, image.entrance(image.main), &[]);
    let entries = entries(alloc, image.code.as_slice())?;
    match engine.run_fused(&image, b"", entries.as_slice(), u32::MAX) {
        Some(Stopped::Ended) => Ok(engine.values().first().copied()),
        _ => Ok(None),
    }
}

fn report<R: Print + AllocGlobal>(rt: &R, word: &str) -> io::Result<()> {
    let Ok(count) = word.parse::<u32>() else {
        return println!(rt; "{word}: no number");
    };
    match sum_of(rt.alloc(), count) {
        Ok(Some(sum)) => println!(rt; "{sum}"),
        Ok(None) => println!(rt; "{word}: no end"),
        Err(NoMemory) => println!(rt; "{word}: out of memory"),
    }
}

fn main(rt: HostRuntime) -> io::Result<()> {
    for word in env::args(&rt)?.skip(1) {
        report(&rt, word.as_str())?;
    }
    Ok(())
}
