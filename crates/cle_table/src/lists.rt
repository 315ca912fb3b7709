//! The labels of a node in a list.

ghost use Rattle.std.specs.Prelude.{◌≡◌, ◌≤◌, ◌<◌, ◌+◌, ◌/◌, ◌^◌, ◌++◌, ℕ, [], ◌∷◌, true, false, length, OnOk, IfOk};
ghost use Rattle.cle_table.specs.Lists.{IsListed, IsList, AreLists};

use cl_base::name::NoMemory;
use cl_mean::checked::Carried;
use cl_mean::labels::Mention;
use cl_reach::propagate::Carried as Bits;
use sqlite_items::Items;
use std::alloc::Global;

/// Adds a label if it is one of a node.
fn add_if(there: bool, m: Mention, labels: &mut Vec<Mention>) -> Result<(), NoMemory>
    ensures there { OnOk result (there ≡ true → labels.new.items ≡ labels.old.items ++ m ∷ []) }
    ensures none { OnOk result (there ≡ false → labels.new.items ≡ labels.old.items) }
{
    if there {
        labels.push(m)?;
    }
    Ok(())
}

/// Adds the labels of a node, those of levels not.
fn add_labels(
    bits: &Bits,
    node: usize,
    count: usize,
    labels: &mut Vec<Mention>,
) -> Result<(), NoMemory>
    requires few { count ≤ 2 ^ 33 }
    requires empty { labels.old.items ≡ [] }
    ensures { OnOk result (IsListed bits.now node ((count + 1) / 2) 0 labels.new.items) }
{
    for k in 0..(count + 1) / 2 {
        add_if(bits.has(node, k * 2), Mention::Label(k as u32), labels)?;
    }
    Ok(())
}

/// Adds the labels of levels of a node.
fn add_levels(
    bits: &Bits,
    node: usize,
    count: usize,
    labels: &mut Vec<Mention>,
) -> Result<(), NoMemory>
    requires few { count ≤ 2 ^ 33 }
    requires labels { IsListed bits.now node ((count + 1) / 2) 0 labels.old.items }
    ensures { OnOk result (IsList bits.now count node labels.new.items) }
{
    for k in 0..count / 2 {
        add_if(bits.has(node, k * 2 + 1), Mention::Level(k as u32), labels)?;
    }
    Ok(())
}

/// The labels of a node, sorted.
fn list(alloc: Global, bits: &Bits, node: usize, count: usize) -> Result<Carried, NoMemory>
    requires { count ≤ 2 ^ 33 }
    ensures { IfOk result (λ c. IsList bits.now count node c.labels) }
{
    let mut labels = Vec::new(alloc);
    add_labels(bits, node, count, &mut labels)?;
    add_levels(bits, node, count, &mut labels)?;
    Ok(Carried {
        labels: Items::from_vec(labels),
    })
}

/// The lists of so many nodes.
pub fn lists(
    alloc: Global,
    bits: &Bits,
    nodes: usize,
    count: usize,
) -> Result<Items<Carried>, NoMemory>
    requires { count ≤ 2 ^ 33 }
    ensures { IfOk result (λ all. AreLists bits.now count nodes all) }
{
    let mut all = Items::new(alloc);
    for node in 0..nodes {
        all.push(list(alloc, bits, node, count)?)?;
    }
    Ok(all)
}
