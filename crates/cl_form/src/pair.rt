//! Sources of two levels.

ghost use Rattle.std.specs.Prelude.{◌≡◌, [], ◌∷◌, map, not, IfOk};
ghost use Rattle.std.specs.List.{list_all};
ghost use Rattle.cl_tree.specs.Words.{is_cle_word, listed};
ghost use Rattle.cl_form.specs.Form.{distinct, reserved, pair_labels, pair_names, are_levels, is_pair, pair_checked};
ghost use Rattle.cl_form.specs.Reading.{Gives, variable_of, label_at, function_name, names_of, is_bound, bound, functions_of, pair_of, read_pair};

use crate::checked::{both_levels, no_flow, pair_gedl, pair_levels, pair_typed, unlabelled};
use crate::head::{function_text, is_headed, level_text, pair_head};
use crate::names::{Found, Pair};
use crate::part::{def_at, function_of, is_def, is_next, level_def, variable_of};
use crate::shape::{any_calls, is_main, is_other};
use crate::stop::FormStop;
use crate::text::is_level;
use cl_base::name::{Name, NoMemory};
use cl_mean::checked::Checked;
use cl_tree::token::is_cle_word;
use cl_tree::tree::{Item, Program};
use cl_tree::words::listed;
use std::alloc::Global;

/// The functions whose names the other function can't have.
const RESERVED: [&[u8]; 4] = [b"main", b"printf", b"putchar", b"getchar"];

/// Do no two of the words agree?
#[tactic(auto, unfolding(crate::specs::Form::distinct))]
fn is_distinct(mut words: &[&[u8]]) -> bool
    ensures { result ≡ distinct (map (λ w. w.now) words.entry.now) }
{
    while let [first, rest @ ..] = words {
        if listed(rest, first) {
            return false;
        }
        words = rest;
    }
    true
}

/// Can each stand behind `#pragma cle`?
fn are_labels(mut words: &[&[u8]]) -> bool
    ensures { result ≡ list_all (λ w. not (is_cle_word w)) (map (λ w. w.now) words.entry.now) }
{
    while let [first, rest @ ..] = words {
        if is_cle_word(first) {
            return false;
        }
        words = rest;
    }
    true
}

/// Can it be the name of a variable or of a function?
fn is_unreserved(word: &[u8]) -> bool
    ensures { result ≡ not (listed reserved word.now) }
{
    !listed(&RESERVED, word)
}

fn are_names(p: &Pair) -> bool
    ensures { result ≡ list_all (λ w. not (listed reserved w)) (p.now.variable_name ∷ p.now.function_name ∷ []) }
{
    is_unreserved(p.variable_name.as_bytes()) && is_unreserved(p.function_name.as_bytes())
}

fn are_levels(p: &Pair) -> bool
    ensures { result ≡ are_levels p.now }
{
    is_level(p.near.as_bytes()) && is_level(p.far.as_bytes()) && p.near != p.far
}

fn all_distinct(p: &Pair) -> bool
    ensures { result ≡ distinct (pair_names p.now) }
{
    is_distinct(&[
        p.near_label.as_bytes(),
        p.variable_label.as_bytes(),
        p.result_label.as_bytes(),
        p.function_label.as_bytes(),
        p.variable_name.as_bytes(),
        p.function_name.as_bytes(),
    ])
}

fn all_labels(p: &Pair) -> bool
    ensures { result ≡ list_all (λ w. not (is_cle_word w)) (pair_labels p.now) }
{
    are_labels(&[
        p.near_label.as_bytes(),
        p.variable_label.as_bytes(),
        p.result_label.as_bytes(),
        p.function_label.as_bytes(),
    ])
}

/// Can a source of two levels have these names?
#[tactic(auto, unfolding(crate::specs::Form::is_pair))]
fn is_pair(p: &Pair) -> bool
    ensures { result ≡ is_pair p.now }
{
    are_levels(p) && all_distinct(p) && all_labels(p) && are_names(p)
}

fn label_at(alloc: Global, line: u32, item: &Item) -> Result<Name, FormStop>
    ensures { Gives (λ n. n) result (label_at line item.now) }
{
    match def_at(line, item) {
        Some((name, _)) => Ok(name.copy(alloc)?),
        None => Err(FormStop::NoReading),
    }
}

fn variable_name(alloc: Global, item: &Item) -> Result<Name, FormStop>
    ensures { Gives (λ n. n) result (variable_of item.now) }
{
    match variable_of(item) {
        Some(name) => Ok(name.copy(alloc)?),
        None => Err(FormStop::NoReading),
    }
}

fn function_name(alloc: Global, item: &Item) -> Result<Name, FormStop>
    ensures { Gives (λ n. n) result (function_name item.now) }
{
    match function_of(item) {
        Some((name, _, _)) => Ok(name.copy(alloc)?),
        None => Err(FormStop::NoReading),
    }
}

/// The labels, the levels and the names that the items hold.
#[tactic(auto, unfolding(crate::specs::Reading::names_of))]
fn names_of(
    alloc: Global,
    near_line: &Item,
    variable_line: &Item,
    result_line: &Item,
    function_line: &Item,
    variable: &Item,
    function: &Item,
) -> Result<Pair, FormStop>
    ensures { Gives (λ p. p) result (names_of near_line.now variable_line.now result_line.now function_line.now variable.now function.now) }
{
    let (near_label, near) = level_def(alloc, 1, near_line)?;
    let (variable_label, far) = level_def(alloc, 2, variable_line)?;
    let result_label = label_at(alloc, 3, result_line)?;
    let function_label = label_at(alloc, 4, function_line)?;
    let variable_name = variable_name(alloc, variable)?;
    let function_name = function_name(alloc, function)?;
    Ok(Pair {
        near,
        far,
        near_label,
        variable_label,
        result_label,
        function_label,
        variable_name,
        function_name,
    })
}

/// Do these lines say what the names want?
#[tactic(auto, unfolding(crate::specs::Reading::is_bound))]
fn is_bound(
    alloc: Global,
    p: &Pair,
    result_line: &Item,
    function_line: &Item,
    next_variable: &Item,
    next_function: &Item,
) -> Result<bool, NoMemory>
    ensures { IfOk result (λ b. b ≡ is_bound p.now result_line.now function_line.now next_variable.now next_function.now) }
{
    let near_text = level_text(alloc, &p.near)?;
    let text = function_text(alloc, p)?;
    Ok(
        is_def(3, &p.result_label, near_text.as_slice(), result_line)
            && is_def(4, &p.function_label, text.as_slice(), function_line)
            && is_next(5, &p.variable_label, next_variable)
            && is_next(7, &p.function_label, next_function),
    )
}

/// The names, if a source of two levels can have them and these lines say what they want.
#[tactic(auto, unfolding(crate::specs::Reading::bound))]
fn bound(
    alloc: Global,
    names: Pair,
    result_line: &Item,
    function_line: &Item,
    next_variable: &Item,
    next_function: &Item,
) -> Result<Pair, FormStop>
    ensures { Gives (λ p. p) result (bound names result_line.now function_line.now next_variable.now next_function.now) }
{
    if is_pair(&names)
        && is_bound(
            alloc,
            &names,
            result_line,
            function_line,
            next_variable,
            next_function,
        )?
    {
        Ok(names)
    } else {
        Err(FormStop::NoReading)
    }
}

/// The two functions of a program with these names.
#[tactic(auto, unfolding(crate::specs::Reading::functions_of))]
fn functions_of(names: Pair, function: &Item, main: &Item) -> Result<Found, FormStop>
    ensures { Gives (λ x. x) result (functions_of names function.now main.now) }
{
    let Some((_, line, body)) = function_of(function) else {
        return Err(FormStop::NoReading);
    };
    let Some((name, main_line, main_body)) = function_of(main) else {
        return Err(FormStop::NoReading);
    };
    if is_other(&names.variable_name, body)
        && is_main(Some(&names.function_name), name, main_body)
    {
        let crosses = any_calls(main_body);
        Ok(Found {
            names,
            line,
            main_line,
            crosses,
        })
    } else {
        Err(FormStop::NoReading)
    }
}

/// What a program of two levels leaves open.
#[tactic(auto, unfolding(crate::specs::Reading::pair_of))]
fn pair_of(alloc: Global, items: &[Item]) -> Result<Found, FormStop>
    ensures { Gives (λ x. x) result (pair_of items.now) }
{
    let [
        near_line,
        variable_line,
        result_line,
        function_line,
        next_variable,
        variable,
        next_function,
        function,
        main,
    ] = items
    else {
        return Err(FormStop::NoReading);
    };
    let names = names_of(
        alloc,
        near_line,
        variable_line,
        result_line,
        function_line,
        variable,
        function,
    )?;
    let names = bound(
        alloc,
        names,
        result_line,
        function_line,
        next_variable,
        next_function,
    )?;
    functions_of(names, function, main)
}

/// The checked program of two levels.
fn pair_checked(alloc: Global, program: Program, found: &Found) -> Result<Checked, NoMemory>
    ensures { IfOk result (λ c. c ≡ pair_checked program found.now.names found.now.line found.now.main_line found.now.crosses) }
{
    Ok(Checked {
        typed: pair_typed(alloc, program, found)?,
        labels: unlabelled(
            alloc,
            both_levels(alloc, &found.names.near, &found.names.far)?,
        ),
        levels: pair_levels(alloc)?,
        flow: no_flow(alloc),
        gedl: pair_gedl(alloc, &found.names, found.crosses)?,
    })
}

/// Reads the program of a source as one of two levels.
#[tactic(auto, unfolding(crate::specs::Reading::read_pair))]
pub fn read_pair(alloc: Global, source: &[u8], program: Program) -> Result<Checked, FormStop>
    ensures { Gives (λ c. c) result (read_pair source.now program) }
{
    let found = pair_of(alloc, program.items.as_slice())?;
    let head = pair_head(alloc, &found.names)?;
    if is_headed(head.as_slice(), source) {
        Ok(pair_checked(alloc, program, &found)?)
    } else {
        Err(FormStop::NoReading)
    }
}
