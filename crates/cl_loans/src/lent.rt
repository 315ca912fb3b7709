//! What a call lends: the variables at the roots of its array arguments.

ghost use Rattle.std.specs.Prelude.{◌≡◌, ◌++◌, None, IfOk, OnOk, slice_index_or};
ghost use Rattle.cl_tree.specs.declared.tree.CType.{out-CType};
ghost use Rattle.cl_levels.specs.Crossings as crossing;
ghost use Rattle.cl_loans.specs.Loans.{lent_if};

use cl_base::name::NoMemory;
use cl_levels::uses::Variable;
use cl_tree::tree::{CType, Declarator};
use std::alloc::Global;

fn is_array(t: &CType) -> bool
    ensures { result ≡ crossing.is_array (out-CType t.now) }
{
    match t {
        CType::Array(_, _) => true,
        CType::Void | CType::Integer(_) | CType::Struct(_) => false,
        CType::Pointer(_) | CType::Floating => false,
    }
}

/// The root of an argument; none of one that isn't there.
fn root_at(roots: &[Option<Variable>], i: usize) -> Option<Variable>
    ensures { result ≡ slice_index_or roots.now i None }
{
    match roots.get(i) {
        Some(root) => *root,
        None => None,
    }
}

/// Adds the root of an argument for an array, if it has one.
fn add(lent: &mut Vec<Variable>, array: bool, root: Option<Variable>) -> Result<(), NoMemory>
    ensures { OnOk result (lent.new.items ≡ lent.old.items ++ lent_if array root) }
{
    match root {
        Some(variable) => {
            if array {
                lent.push(variable)?;
            }
            Ok(())
        }
        None => Ok(()),
    }
}

/// The variables at the roots of the arguments for these parameters that are arrays.
pub fn lent(
    alloc: Global,
    params: &[Declarator],
    roots: &[Option<Variable>],
) -> Result<Vec<Variable>, NoMemory>
    ensures { IfOk result (λ vs. vs.items ≡ crossing.array_roots params.now roots.now) }
{
    let mut lent = Vec::new(alloc);
    for (i, param) in params.iter().enumerate() {
        add(&mut lent, is_array(&param.ctype), root_at(roots, i))?;
    }
    Ok(lent)
}
