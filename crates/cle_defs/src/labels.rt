//! The table of labels.

ghost use Rattle.std.specs.Prelude.{◌≡◌, ◌⊎◌, ◌≤◌, ℕ, length, IfOk, IfErr, MatchResult};
ghost use Rattle.cl_mean.specs.declared.checked.Typed.{Typed as TypedValue};
ghost use Rattle.cl_mean.specs.declared.labels.LabelTable.{LabelTable as LabelTableValue};
ghost use Rattle.cl_labelling.specs.Items.{label_names};
ghost use Rattle.cl_labelling.specs.Labelling.{label_rules, IsLabelled, LabellingFails};
ghost use Rattle.cl_labelling.specs.Names as naming;
ghost use Rattle.cl_labelling.specs.Names.{levels_of};
ghost use Rattle.cl_labelling.specs.Pragmas as listed;
ghost use Rattle.cle_defs.specs.Answer.{IsFailure, TableAnswer, HasTable, HasFailure};

use crate::rules::{
    bearers_of, function_labels, items, kinds, labels as label_names, levels, mentions,
    object_labels, regions, shared, taints, texts,
};
use crate::stop::CleStop;
use cl_base::name::{Name, NoMemory};
use cl_mean::checked::Typed;
use cl_mean::labels::{LabelFact, LabelTable};
use cl_tree::tree::Program;
use cle_names::known::Known;
use cle_names::labels::Labels;
use cle_names::seen::Seen;
use cle_names::tables::labels_of;
use cle_names::walk::pragmas_of;
use sqlite_items::Items;
use std::alloc::Global;

/// The facts of all labels. Labels have numbers of 32 bits; more of them are want of memory.
#[tactic(auto, unfolding(cl_labelling::specs::Names::named_in, cl_labelling::specs::Names::labels_of, cl_labelling::specs::Pragmas::definitions_of, cle_names::specs::Names::labels_in))]
fn facts(
    alloc: Global,
    program: &Program,
    levels: &[Name],
    names: &Labels<'_>,
    all: &[Seen<'_>],
) -> Result<Items<LabelFact>, NoMemory>
    requires seen { all.now ≡ listed.pragmas_of program.now }
    requires levels { levels.now ≡ levels_of program.now }
    requires few { length levels.now ≤ 32 }
    requires labels { names.now ≡ label_names program.now }
    ensures { IfOk result (λ facts. facts ≡ naming.labels_of program.now) }
{
    if names.len() > u32::MAX as usize {
        return Err(NoMemory);
    }
    let known = Known {
        levels,
        labels: names,
    };
    labels_of(alloc, &known, all)
}

/// The table of a program, or the first rule that fails.
fn label_program(alloc: Global, typed: &Typed) -> Result<LabelTable, CleStop>
    ensures { TableAnswer typed.now result }
{
    let program = &typed.program;
    let all = pragmas_of(alloc, program)?;
    texts(program, &all)?;
    let levels = levels(alloc, program, &all)?;
    let names = label_names(alloc, program, &all)?;
    let known = Known {
        levels: levels.as_slice(),
        labels: &names,
    };
    mentions(program, &known, &all)?;
    regions(alloc, program)?;
    let items = items(alloc, program, &names)?;
    let labels = facts(alloc, program, levels.as_slice(), &names, &all)?;
    kinds(program, labels.as_slice(), &items)?;
    let bearings = bearers_of(alloc, program, &items)?;
    taints(alloc, program, labels.as_slice(), &bearings)?;
    shared(alloc, program, labels.as_slice(), &bearings)?;
    let functions = function_labels(alloc, typed, &items)?;
    let objects = object_labels(alloc, program, &items)?;
    Ok(LabelTable {
        levels,
        labels,
        on_functions: functions,
        on_objects: objects,
    })
}

/// Looks at the rules E10 to E17 and E35 of a typed program in this order, and gives its table of labels.
///
/// # Errors
///
/// The first rule that fails, with the line of its first place; or want of memory, with which a program of 2^32 definitions
/// of labels ends too, since labels have numbers of 32 bits.
pub fn labels(alloc: Global, typed: &Typed) -> Result<LabelTable, CleStop>
    // What is answered is the table of labels, and no rule fails.
    ensures found { IfOk result (λ t. IsLabelled typed.now t) }
    // What has a table is answered with it, unless memory runs out.
    ensures only { (t : LabelTableValue) → IsLabelled typed.now t → MatchResult result (λ x. x ≡ t)
        (λ e. e ≡ CleStop.NoMemory) }
    // A refusal names the first rule that fails, and its first place.
    ensures fails { IfErr result (λ e. IsFailure (label_rules typed.now.program) e) }
    // Where a rule fails, the refusal names the first one and its first place.
    ensures rule { (rule line : ℕ) → LabellingFails typed.now rule line
        → MatchResult result (λ _. ⊥) (λ e. (e ≡ CleStop.Rule rule line) ⊎ (e ≡ CleStop.NoMemory)) }
{
    label_program(alloc, typed)
}

/// A law: a typed program has a table of labels or a rule that fails first, and not both; it has no two tables, and it
/// fails in no two ways.
pub fn one_answer()
    ensures some { (typed : TypedValue) → HasTable typed ⊎ HasFailure typed }
    ensures not_both { (typed : TypedValue) → HasTable typed → HasFailure typed → ⊥ }
    ensures one_table { (typed : TypedValue) (x t : LabelTableValue) → IsLabelled typed x → IsLabelled typed t → x ≡ t }
    ensures one_failure { (typed : TypedValue) (rule line r l : ℕ) → LabellingFails typed rule line
        → LabellingFails typed r l → (rule ≡ r) × (line ≡ l) }
{}
