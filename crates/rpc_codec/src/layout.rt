//! The layout of a payload.

ghost use Rattle.std.specs.Prelude.{◌≡◌, ◌<◌, length, map, IfOk};
ghost use Rattle.cl_mean.specs.Journal.{kinds_at};
ghost use Rattle.cl_mean.specs.Shape.{total_size};
ghost use Rattle.cl_mean.specs.Source.{source_of};

use crate::leaves::Leaf;
use crate::signature::leaves_of;
use crate::sizes::total_size;
use cl_base::name::NoMemory;
use cl_mean::checked::Checked;
use cl_tree::kinds::IntKind;
use std::alloc::Global;
use std::marker::Model;

/// Which integers a payload has. Contracts see the list of their kinds in declared order.
#[derive(Drop)]
pub struct Layout {
    kinds: Vec<IntKind>,
    /// Bytes of a payload.
    length: usize,
}

impl Model for Layout {
    ghost use Rattle.std.specs.Prelude.{◌≡◌, List};
    ghost use Rattle.cl_tree.specs.declared.kinds.IntKind.{IntKind};
    ghost use Rattle.cl_mean.specs.Shape.{total_size};

    ghost Value = { List IntKind };

    ghost view = { λ l. l.kinds.items };

    ghost invariant = { λ l. l.length ≡ total_size l.kinds.items };
}

fn kinds_in(alloc: Global, leaves: &[Leaf]) -> Result<Vec<IntKind>, NoMemory>
    ensures { IfOk result (λ kinds. kinds.items ≡ map (λ l. l.kind) leaves.now) }
{
    let kinds = leaves.iter().map(|leaf| leaf.kind).collect(alloc)?;
    Ok(kinds)
}

impl Layout {
    /// The layout of a row's request, or of its reply: the integers of the parameters, or of the result and then of the
    /// array parameters, structs by members and arrays by elements.
    pub fn of(alloc: Global, checked: &Checked, row: u32, reply: bool) -> Result<Layout, NoMemory>
        requires { row < length checked.now.gedl.rows }
        ensures { IfOk result (λ layout. layout ≡ kinds_at (source_of checked.now) checked.now.gedl.rows row reply) }
    {
        let function = checked.gedl.rows.as_slice()[row as usize].function;
        let leaves = leaves_of(alloc, checked, function, reply, &[])?;
        let kinds = kinds_in(alloc, &leaves)?;
        Layout::from_kinds(kinds)
    }

    /// The layout of integers of these kinds. A payload of more bytes than there are addresses is want of memory.
    pub fn from_kinds(kinds: Vec<IntKind>) -> Result<Layout, NoMemory>
        ensures { IfOk result (λ layout. layout ≡ kinds.items) }
    {
        let length = total_size(&kinds).ok_or(NoMemory)?;
        Ok(Layout { kinds, length })
    }

    /// Bytes of a payload.
    pub fn length(&self) -> usize
        ensures { result ≡ total_size self.now }
    {
        self.length
    }

    /// How many integers a payload has.
    pub fn count(&self) -> usize
        ensures { result ≡ length self.now }
    {
        self.kinds.len()
    }

    /// The kinds of the integers in declared order.
    pub fn kinds(&self) -> &[IntKind]
        ensures { result.now ≡ self.now }
    {
        self.kinds.as_slice()
    }
}
