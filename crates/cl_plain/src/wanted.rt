//! The terminals that a tree wants.

ghost use Rattle.std.specs.Prelude.{◌≡◌, ◌++◌, [], ◌∷◌, OnOk, IfOk};
ghost use Rattle.cl_tree.specs.Spelling.{put_on, put, put_at, mark_on, mark_at, put_mark, key_on, put_key, put_size};
ghost use Rattle.cl_plain.specs.Wanting.{written};

use cl_base::name::{Name, NoMemory};
use cl_tree::grammar::{Keyword, Sign};
use cl_tree::token::Mark;
use sqlite_items::Items;
use std::alloc::Global;

/// What is wanted of a terminal.
#[derive(Drop)]
pub enum Want {
    /// The terminal itself.
    Is(Sign),
    /// An integer literal of this value, of any kind: the size of an array.
    Size(u64),
}

/// A terminal that a tree wants, with the lines that the tree keeps of it: the terminal stands on each of
/// them.
#[derive(Drop)]
pub struct Wanted {
    pub what: Want,
    pub lines: Items<u32>,
}

/// Writes a terminal, which stands on these lines.
#[tactic(auto, unfolding(crate::specs::Wanting::written))]
pub(crate) fn write_on(
    out: &mut Items<Wanted>,
    lines: Items<u32>,
    what: Sign,
) -> Result<(), NoMemory>
    ensures { OnOk result (written out.new ≡ written out.old ++ put_on lines what []) }
{
    out.push(Wanted {
        what: Want::Is(what),
        lines,
    })?;
    Ok(())
}

/// Writes the size of an array.
#[tactic(auto, unfolding(crate::specs::Wanting::written))]
pub(crate) fn write_size(alloc: Global, out: &mut Items<Wanted>, size: u64) -> Result<(), NoMemory>
    ensures { OnOk result (written out.new ≡ written out.old ++ put_size size []) }
{
    let lines = Items::new(alloc);
    out.push(Wanted {
        what: Want::Size(size),
        lines,
    })?;
    Ok(())
}

/// One line.
pub(crate) fn one_line(alloc: Global, line: u32) -> Result<Items<u32>, NoMemory>
    ensures { IfOk result (λ lines. lines ≡ line ∷ []) }
{
    let mut lines = Items::new(alloc);
    lines.push(line)?;
    Ok(lines)
}

/// The two lines of a node.
pub(crate) fn two_lines(alloc: Global, line: u32, second: u32) -> Result<Items<u32>, NoMemory>
    ensures { IfOk result (λ lines. lines ≡ line ∷ second ∷ []) }
{
    let mut lines = one_line(alloc, line)?;
    lines.push(second)?;
    Ok(lines)
}

/// Writes a terminal of which no line is kept.
pub(crate) fn write(alloc: Global, out: &mut Items<Wanted>, what: Sign) -> Result<(), NoMemory>
    ensures { OnOk result (written out.new ≡ written out.old ++ put what []) }
{
    write_on(out, Items::new(alloc), what)
}

/// Writes a terminal, which stands on this line.
fn write_at(alloc: Global, out: &mut Items<Wanted>, line: u32, what: Sign) -> Result<(), NoMemory>
    ensures { OnOk result (written out.new ≡ written out.old ++ put_at line what []) }
{
    let lines = one_line(alloc, line)?;
    write_on(out, lines, what)
}

/// Writes a mark of which no line is kept.
pub(crate) fn write_mark(alloc: Global, out: &mut Items<Wanted>, mark: Mark) -> Result<(), NoMemory>
    ensures { OnOk result (written out.new ≡ written out.old ++ put_mark mark []) }
{
    write(alloc, out, Sign::Mark(mark))
}

/// Writes a mark, which stands on this line.
pub(crate) fn write_mark_at(
    alloc: Global,
    out: &mut Items<Wanted>,
    line: u32,
    mark: Mark,
) -> Result<(), NoMemory>
    ensures { OnOk result (written out.new ≡ written out.old ++ mark_at line mark []) }
{
    write_at(alloc, out, line, Sign::Mark(mark))
}

/// Writes a keyword of which no line is kept.
pub(crate) fn write_key(
    alloc: Global,
    out: &mut Items<Wanted>,
    key: Keyword,
) -> Result<(), NoMemory>
    ensures { OnOk result (written out.new ≡ written out.old ++ put_key key []) }
{
    write(alloc, out, Sign::Key(key))
}

/// Writes a name of which no line is kept.
pub(crate) fn write_name(
    alloc: Global,
    out: &mut Items<Wanted>,
    name: &Name,
) -> Result<(), NoMemory>
    ensures { OnOk result (written out.new ≡ written out.old ++ put (Sign.Name name.now) []) }
{
    let name = name.copy(alloc)?;
    write(alloc, out, Sign::Name(name))
}

/// Writes a name, which stands on this line.
pub(crate) fn write_name_at(
    alloc: Global,
    out: &mut Items<Wanted>,
    line: u32,
    name: &Name,
) -> Result<(), NoMemory>
    ensures { OnOk result (written out.new ≡ written out.old ++ put_at line (Sign.Name name.now) []) }
{
    let name = name.copy(alloc)?;
    write_at(alloc, out, line, Sign::Name(name))
}
