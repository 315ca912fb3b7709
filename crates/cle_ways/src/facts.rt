//! What is known of the functions and variables of a program.

ghost use Rattle.std.specs.Prelude.{◌≡◌, Some, None, option_map, slice_get, slice_index_or, IfOk};
ghost use Rattle.std.specs.Option.{option_copied};
ghost use Rattle.cl_mean.specs.Source as source;
ghost use Rattle.cl_tree.specs.declared.tree.CType.{out-CType};
ghost use Rattle.cl_levels.specs.Uses.{number_among};
ghost use Rattle.cl_labelling.specs.Fits.{defined_by};
ghost use Rattle.cl_levels.specs.Levels.{no_fact};
ghost use Rattle.cl_levels.specs.Crossings as crossing;
ghost use Rattle.cle_ways.specs.Ways as ways;
ghost use Rattle.cle_ways.specs.Programs.{levelled};

use cl_base::name::{Name, NoMemory};
use cl_levels::uses::Variable;
use cl_mean::checked::{FnFact, Levels, Typed};
use cl_mean::labels::{LabelFact, LabelTable, Mention, Taints};
use cl_tree::tree::{CType, Declarator, Item};
use cl_uses::functions::Functions;
use sqlite_items::at;
use std::alloc::Global;
use std::marker::Model;

/// A typed program with its labels and levels, and its functions by their names. Contracts see the first three.
#[derive(Drop)]
pub struct Program<'a> {
    typed: &'a Typed,
    labels: &'a LabelTable,
    levels: &'a Levels,
    functions: Functions<'a>,
}

impl<'a> Model for Program<'a> {
    ghost use Rattle.std.specs.Prelude.{◌≡◌};
    ghost use Rattle.std.specs.Coded.{codes};
    ghost use Rattle.cl_levels.specs.Crossings.{Levelled};
    ghost use Rattle.cl_mean.specs.contracts.checked.Typed as t;
    ghost use Rattle.cl_mean.specs.contracts.checked.Levels as v;
    ghost use Rattle.cl_mean.specs.contracts.labels.LabelTable as b;
    ghost use Rattle.cle_ways.specs.Programs.{levelled};

    ghost Value = { Levelled };

    ghost coded = { Prim.hlevel (codes, t.the_row.coded, b.the_row.coded, v.the_row.coded) };

    ghost view = { λ s. levelled s.typed.now s.labels.now s.levels.now };

    ghost invariant = { λ s. s.functions ≡ s.typed.now.functions };
}

/// The label of a number.
fn label_at(labels: &[LabelFact], k: u32) -> Option<&LabelFact>
    ensures { option_copied result ≡ source.label_at labels.now (Some k) }
{
    at(labels, k as usize)
}

/// The label of the symbol of a number; none of one that isn't there.
fn label_on(on: &[Option<u32>], k: usize) -> Option<u32>
    ensures { result ≡ slice_index_or on.now k None }
{
    match on.get(k) {
        Some(label) => *label,
        None => None,
    }
}

/// The level of the symbol of a number; 0 of one that isn't there.
fn level_on(on: &[u32], k: usize) -> u32
    ensures { result ≡ slice_index_or on.now k 0 }
{
    match on.get(k) {
        Some(level) => *level,
        None => 0,
    }
}

fn taints_of(label: &LabelFact) -> Option<&Taints>
    ensures { option_copied result ≡ label.now.taints }
{
    match &label.taints {
        Some(taints) => Some(taints),
        None => None,
    }
}

/// The taints of a label.
fn taints_on(labels: &[LabelFact], on: Option<u32>) -> Option<&Taints>
    ensures { option_copied result ≡ source.taints_of (source.label_at labels.now on) }
{
    match on {
        Some(k) => match label_at(labels, k) {
            Some(label) => taints_of(label),
            None => None,
        },
        None => None,
    }
}

/// The parameters of the function that an item defines.
fn params_in(item: &Item) -> &[Declarator]
    ensures { result.now ≡ crossing.params_of (defined_by item.now) }
{
    match item {
        Item::Function {
            is_static: _,
            result: _,
            name: _,
            void_word: _,
            params,
            body: Some(_),
            line: _,
            second: _,
        } => params.as_slice(),
        _ => &[],
    }
}

/// The index of the item of a function.
fn item_of(functions: &[FnFact], f: usize) -> usize
    ensures { result ≡ (slice_index_or functions.now f no_fact).item }
{
    match functions.get(f) {
        Some(fact) => fact.item as usize,
        None => 0,
    }
}

/// The parameters of the item of a number.
fn params_from(items: &[Item], at: usize) -> &[Declarator]
    ensures { result.now ≡ crossing.params_of (defined_by (slice_index_or items.now at source.no_item)) }
{
    match items.get(at) {
        Some(item) => params_in(item),
        None => &[],
    }
}

fn is_array(ctype: &CType) -> bool
    ensures { result ≡ crossing.is_array (out-CType ctype.now) }
{
    match ctype {
        CType::Array(_, _) => true,
        CType::Void | CType::Integer(_) | CType::Struct(_) | CType::Pointer(_) | CType::Floating =>
            false,
    }
}

/// Whether the declarator of a number is an array.
fn array_in(params: &[Declarator], k: usize) -> Option<bool>
    ensures { result ≡ option_map (λ d. crossing.is_array (out-CType d.ctype)) (slice_get params.now k) }
{
    match params.get(k) {
        Some(d) => Some(is_array(&d.ctype)),
        None => None,
    }
}

fn is_main(functions: &[FnFact], f: usize) -> bool
    ensures { result ≡ ways.is_main_in functions.now f }
{
    match functions.get(f) {
        Some(fact) => {
            let text = fact.name.text();
            text == "main"
        }
        None => false,
    }
}

impl<'a> Program<'a> {
    pub fn of(
        alloc: Global,
        typed: &'a Typed,
        labels: &'a LabelTable,
        levels: &'a Levels,
    ) -> Result<Program<'a>, NoMemory>
        ensures { IfOk result (λ program. program ≡ levelled typed.now labels.now levels.now) }
    {
        let functions = Functions::of(alloc, typed.functions.as_slice())?;
        Ok(Program {
            typed,
            labels,
            levels,
            functions,
        })
    }

    /// The number of the function of a name.
    pub fn number(&self, name: &Name) -> Option<usize>
        ensures { result ≡ number_among self.now.annotated.typed.functions name.now }
    {
        self.functions.number(name)
    }

    /// The taints of a function.
    pub fn taints(&self, f: usize) -> Option<&Taints>
        ensures { option_copied result ≡ ways.taints_at self.now f }
    {
        let on = label_on(self.labels.on_functions.as_slice(), f);
        taints_on(self.labels.labels.as_slice(), on)
    }

    pub fn is_annotated(&self, f: usize) -> bool
        ensures { result ≡ ways.is_annotated self.now f }
    {
        self.taints(f).is_some()
    }

    /// The parameters of a function.
    pub fn params(&self, f: usize) -> &[Declarator]
        ensures { result.now ≡ ways.params_at self.now f }
    {
        let at = item_of(self.typed.functions.as_slice(), f);
        params_from(self.typed.program.items.as_slice(), at)
    }

    pub fn array_at(&self, f: usize, k: usize) -> Option<bool>
        ensures { result ≡ ways.array_at self.now f k }
    {
        array_in(self.params(f), k)
    }

    /// The level of a function.
    pub fn level(&self, f: usize) -> u32
        ensures { result ≡ crossing.level_of self.now f }
    {
        level_on(self.levels.of_functions.as_slice(), f)
    }

    pub fn is_main(&self, f: usize) -> bool
        ensures { result ≡ ways.is_main self.now f }
    {
        is_main(self.typed.functions.as_slice(), f)
    }

    /// The label of an object.
    pub fn object_label(&self, k: usize) -> Option<u32>
        ensures { result ≡ ways.object_label self.now k }
    {
        label_on(self.labels.on_objects.as_slice(), k)
    }

    /// The level of an object.
    pub fn object_level(&self, k: usize) -> u32
        ensures { result ≡ ways.level_at self.now k }
    {
        level_on(self.levels.of_objects.as_slice(), k)
    }

    /// The level of a label, if it is one.
    pub fn mention_level(&self, m: Mention) -> Option<u32>
        ensures { result ≡ source.level_of self.now.annotated.labels.labels m }
    {
        match m {
            Mention::Level(level) => Some(level),
            Mention::Label(k) => match label_at(self.labels.labels.as_slice(), k) {
                Some(label) => Some(label.level),
                None => None,
            },
        }
    }

    /// Whether a variable that the body of a function sees is a parameter of an annotated function.
    pub fn is_closed(&self, f: usize, variable: Variable) -> bool
        ensures { result ≡ ways.is_closed self.now f variable }
    {
        match variable {
            Variable::Static(_) => false,
            Variable::Local(k) => self.is_annotated(f) && k < self.params(f).len(),
        }
    }

    /// Whether a store adds nothing to a variable.
    pub fn keeps(&self, f: usize, variable: Variable) -> bool
        ensures { result ≡ ways.keeps self.now f variable }
    {
        match variable {
            Variable::Static(k) => self.is_annotated(f) && self.object_label(k).is_some(),
            Variable::Local(_) => self.is_closed(f, variable),
        }
    }
}
