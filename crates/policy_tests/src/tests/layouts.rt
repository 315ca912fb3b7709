use cl_base::name::NoMemory;
use cl_mean::checked::Checked;
use policy_source::source::checked;
use rpc_codec::layout::Layout;
use std::alloc::Global;
use std::test::Fail;

/// A row, whether it is its reply, and the bytes and the integers of that payload. `draw` has two points of 1 and 4 bytes, `h`
/// of 2 and three elements of 4; on its reply the result stands in the place of `s`. `kinds` has twice 1, 2 and 4 bytes and four
/// times 8; its reply has nothing.
struct LaidOut {
    row: u32,
    reply: bool,
    length: usize,
    count: usize,
}

const PAYLOADS: [LaidOut; 4] = [
    LaidOut {
        row: 0,
        reply: false,
        length: 24,
        count: 8,
    },
    LaidOut {
        row: 0,
        reply: true,
        length: 24,
        count: 8,
    },
    LaidOut {
        row: 1,
        reply: false,
        length: 46,
        count: 10,
    },
    LaidOut {
        row: 1,
        reply: true,
        length: 0,
        count: 0,
    },
];

/// The bytes and the integers of a payload, if there is such a row.
fn size_of(
    alloc: Global,
    checked: &Checked,
    row: u32,
    reply: bool,
) -> Result<Option<(usize, usize)>, NoMemory> {
    if row as usize >= checked.gedl.rows.len() {
        return Ok(None);
    }
    let layout = Layout::of(alloc, checked, row, reply)?;
    Ok(Some((layout.length(), layout.count())))
}

fn size(alloc: Global, row: u32, reply: bool) -> Result<Option<(usize, usize)>, NoMemory> {
    let checked = checked(alloc)?;
    size_of(alloc, &checked, row, reply)
}

fn is_laid_out(alloc: Global, case: &LaidOut) -> Result<bool, NoMemory> {
    Ok(size(alloc, case.row, case.reply)? == Some((case.length, case.count)))
}

#[test]
fn payloads_are_laid_out(rt: HostRuntime) -> Result<(), Fail> {
    for case in &PAYLOADS {
        assert!(rt; is_laid_out(rt.alloc(), case)?);
    }
    Ok(())
}
