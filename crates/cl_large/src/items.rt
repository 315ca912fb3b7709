//! What items add to the counts.

ghost use Rattle.std.specs.Prelude.{◌≡◌, [], OnOk};
ghost use Rattle.cl_typing.specs.Sizes as sized;
ghost use Rattle.cl_scope.specs.Finds.{Finds};
ghost use Rattle.cl_large.specs.Counts.{after_all};

use crate::counts::{count_body, count_objects, count_pragma, count_struct};
use crate::sizes::Sizes;
use cl_scope::stop::Stop;
use cl_tree::tree::{Item, Program};
use cl_typing::totals::Totals;
use std::alloc::Global;

#[tactic(auto, unfolding(cl_typing::specs::Sizes::in_item, cl_typing::specs::Sizes::over, crate::specs::Counts::after_all), using(crate::proofs::Overs::finds_alone))]
fn count_item(totals: &mut Totals, sizes: &Sizes<'_>, item: &Item) -> Result<(), Stop>
    ensures places { Finds result (sized.over totals.old (sized.in_item sizes.now item.now)) }
    ensures totals { OnOk result (totals.new ≡ after_all totals.old (sized.in_item sizes.now item.now)) }
{
    match item {
        Item::Struct {
            name: _,
            members: _,
            line,
        } => count_struct(totals, *line),
        Item::Variables(d) => count_objects(totals, sizes, d.names.as_slice()),
        Item::Function {
            is_static: _,
            result: _,
            name: _,
            void_word: _,
            params,
            body,
            line,
            second: _,
        } => { count_body(totals, sizes, params.as_slice(), body, *line) }
        Item::Cle(pragma, line) => count_pragma(totals, pragma, *line),
    }
}

/// The size of the struct that an item declares becomes known.
#[tactic(auto, unfolding(cl_typing::specs::Sizes::sizes_after))]
fn bind_size<'a>(sizes: &mut Sizes<'a>, item: &'a Item) -> Result<(), Stop>
    ensures none { Finds result [] }
    ensures sizes { OnOk result (sizes.new ≡ sized.sizes_after sizes.old item.now) }
{
    match item {
        Item::Struct {
            name,
            members,
            line: _,
        } => {
            sizes.bind(name, members)?;
            Ok(())
        }
        _ => Ok(()),
    }
}

#[tactic(auto, unfolding(cl_typing::specs::Sizes::in_items, cl_typing::specs::Sizes::over))]
fn count_items<'a>(
    totals: &mut Totals,
    sizes: &mut Sizes<'a>,
    items: &'a [Item],
) -> Result<(), Stop>
    ensures { Finds result (sized.over totals.old (sized.in_items sizes.old items.now)) }
{
    for item in items {
        count_item(totals, sizes, item)?;
        bind_size(sizes, item)?;
    }
    Ok(())
}

/// The first item, declaration or definition of a label that goes over a limit.
#[tactic(auto, unfolding(cl_typing::specs::Sizes::too_large))]
pub fn look_program(alloc: Global, program: &Program) -> Result<(), Stop>
    ensures { Finds result (sized.too_large program.now) }
{
    let mut totals = Totals {
        structs: 0,
        definitions: 0,
        functions: 0,
        objects: 0,
        integers: 0,
    };
    let mut sizes = Sizes::new(alloc);
    count_items(&mut totals, &mut sizes, program.items.as_slice())
}
