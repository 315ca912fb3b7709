//! The lines of functions.

ghost use Rattle.std.specs.Prelude.{◌≡◌, map, IfOk};
ghost use Rattle.cl_groups.specs.Foreign as foreign;

use cl_base::name::NoMemory;
use cl_mean::checked::FnFact;
use cl_regions::roles::item_line;
use cl_tree::tree::Item;
use std::alloc::Global;

/// The line of the first token of a function's definition.
fn function_line(items: &[Item], function: &FnFact) -> u32
    ensures { result ≡ foreign.function_line items.now function.now }
{
    match items.get(function.item as usize) {
        Some(item) => item_line(item),
        None => 0,
    }
}

pub fn function_lines(
    alloc: Global,
    items: &[Item],
    functions: &[FnFact],
) -> Result<Vec<u32>, NoMemory>
    ensures { IfOk result (λ lines. lines.items ≡ foreign.function_lines items.now functions.now) }
{
    let mut lines = Vec::new(alloc);
    for function in functions {
        lines.push(function_line(items, function))?;
    }
    Ok(lines)
}
