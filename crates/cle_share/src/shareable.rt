//! Whether labels are shareable with levels.

ghost use Rattle.std.specs.Prelude.{◌≡◌, ◌||◌, ◌&&◌, ◌==◌, MatchOption, Some, None};
ghost use Rattle.std.specs.List.{list_all, list_any};
ghost use Rattle.cl_mean.specs.Source as source;
ghost use Rattle.cl_labelling.specs.Shareable as share;
ghost use Rattle.cl_tree.specs.declared.tree.CType.{out-CType};

use cl_mean::labels::{Direction, Entry, LabelFact, Mention, Mentions, Operation, Taints};
use cl_tree::tree::CType;
use sqlite_items::at;

fn lets_out(direction: Direction) -> bool
    ensures { result ≡ share.lets_out direction }
{
    match direction {
        Direction::Egress | Direction::Bidirectional => true,
        Direction::Ingress => false,
    }
}

fn lets_pass(operation: Operation) -> bool
    ensures { result ≡ share.lets_pass operation }
{
    match operation {
        Operation::Allow | Operation::Redact => true,
        Operation::Block => false,
    }
}

/// Whether an entry opens its label to a level.
#[tactic(auto, unfolding(cl_labelling::specs::Shareable::opens_to))]
fn opens_to(level: u32, entry: &Entry) -> bool
    ensures { result ≡ share.opens_to level entry.now }
{
    entry.remote == level && lets_out(entry.direction) && lets_pass(entry.operation)
}

fn any_opens(level: u32, entries: &[Entry]) -> bool
    ensures { result ≡ list_any (share.opens_to level) entries.now }
{
    entries.iter().any(|entry| opens_to(level, entry))
}

/// Whether a label is shareable with a level: its own, or one to which an entry opens it.
fn is_open(label: &LabelFact, level: u32) -> bool
    ensures { result ≡ ((label.now.level == level) || list_any (share.opens_to level) label.now.entries) }
{
    label.level == level || any_opens(level, label.entries.as_slice())
}

/// The label of a number.
pub fn label_at(labels: &[LabelFact], k: u32) -> Option<&LabelFact>
    ensures { MatchOption result (source.label_at labels.now (Some k) ≡ None) (λ l. source.label_at labels.now (Some k) ≡ Some l.now) }
{
    at(labels, k as usize)
}

/// Whether a label of a list of taints, among all labels, is shareable with a level.
#[tactic(auto, unfolding(cl_labelling::specs::Shareable::is_shareable))]
pub fn is_shareable(labels: &[LabelFact], level: u32, mention: Mention) -> bool
    ensures { result ≡ share.is_shareable labels.now level mention }
{
    match mention {
        Mention::Level(own) => own == level,
        Mention::Label(k) => match label_at(labels, k) {
            Some(label) => is_open(label, level),
            None => false,
        },
    }
}

fn all_shareable(labels: &[LabelFact], level: u32, mentions: &[Mention]) -> bool
    ensures { result ≡ share.all_shareable labels.now level mentions.now }
{
    mentions
        .iter()
        .all(|mention| is_shareable(labels, level, *mention))
}

/// Whether labels are shareable with each level for which a label has an entry.
pub fn shareable_back(labels: &[LabelFact], label: &LabelFact, mentions: &[Mention]) -> bool
    ensures { result ≡ share.shareable_back labels.now label.now mentions.now }
{
    label
        .entries
        .as_slice()
        .iter()
        .all(|entry| all_shareable(labels, entry.remote, mentions))
}

pub fn is_array(ctype: &CType) -> bool
    ensures { result ≡ share.is_array (out-CType ctype.now) }
{
    match ctype {
        CType::Array(_, _) => true,
        _ => false,
    }
}

fn args_shareable(labels: &[LabelFact], level: u32, args: &[Mentions]) -> bool
    ensures { result ≡ list_all (λ m. share.all_shareable labels.now level m.all) args.now }
{
    args.iter()
        .all(|arg| all_shareable(labels, level, arg.all.as_slice()))
}

/// Whether the taints of a label are shareable with its level, and those of the result with each level that it has an entry for.
pub fn are_shareable(labels: &[LabelFact], label: &LabelFact, taints: &Taints) -> bool
    ensures { result ≡ (list_all (λ m. share.all_shareable labels.now label.now.level m.all) taints.now.args && (share.all_shareable labels.now label.now.level taints.now.code && share.shareable_back labels.now label.now taints.now.result)) }
{
    args_shareable(labels, label.level, taints.args.as_slice())
        && all_shareable(labels, label.level, taints.code.as_slice())
        && shareable_back(labels, label, taints.result.as_slice())
}
