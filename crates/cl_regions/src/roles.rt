//! What the parts of a file or of a block are to the pragmas beside them.

ghost use Rattle.std.specs.Prelude.{◌≡◌, length};
ghost use Rattle.cl_labelling.specs.Regions as regions;
ghost use Rattle.cl_regions.specs.Roles.{role_of};

use cl_base::name::Name;
use cl_tree::token::Pragma;
use cl_tree::tree::{Act, Declaration, Item, Stmt};

/// What has labels: so many objects of static duration that one declaration declares, or a
/// declaration of a function.
#[derive(Clone, Copy, Drop)]
pub enum Subject<'a> {
    Objects(usize),
    Function(&'a Name),
}

/// A part: a pragma, an item, what the next item may stand behind, or what it may not.
#[derive(Clone, Copy, Drop)]
pub enum Role<'a> {
    Says(&'a Pragma),
    Item(Subject<'a>),
    PassedOver,
    Bars,
}

/// The role of a declaration in a block, where only objects of static duration are items.
fn declaration_role<'a>(d: &'a Declaration) -> Role<'a>
    ensures { role_of result ≡ regions.if_static d.now.is_static (length d.now.names) }
{
    if d.is_static {
        return Role::Item(Subject::Objects(d.names.as_slice().len()));
    }
    Role::Bars
}

/// The role of a statement in its block.
#[tactic(auto, unfolding(cl_labelling::specs::Regions::stmt_part))]
pub fn stmt_role<'a>(s: &'a Stmt) -> Role<'a>
    ensures role { role_of result ≡ (regions.stmt_part s.now).role }
    ensures line { (regions.stmt_part s.now).line ≡ s.now.line }
{
    match &s.node {
        Act::Declare(d) => declaration_role(d),
        Act::Cle(pragma) => Role::Says(pragma),
        _ => Role::Bars,
    }
}

/// The role of an item at file level.
#[tactic(auto, unfolding(cl_labelling::specs::Regions::item_part))]
pub fn item_role<'a>(item: &'a Item) -> Role<'a>
    ensures { role_of result ≡ (regions.item_part item.now).role }
{
    match item {
        Item::Struct {
            name: _,
            members: _,
            line: _,
        } => Role::PassedOver,
        Item::Variables(d) => Role::Item(Subject::Objects(d.names.as_slice().len())),
        Item::Function {
            is_static: _,
            result: _,
            name,
            void_word: _,
            params: _,
            body: _,
            line: _,
            second: _,
        } => Role::Item(Subject::Function(name)),
        Item::Cle(pragma, _) => Role::Says(pragma),
    }
}

/// The line of an item's first token.
#[tactic(auto, unfolding(cl_labelling::specs::Regions::item_part))]
pub fn item_line(item: &Item) -> u32
    ensures { result ≡ (regions.item_part item.now).line }
{
    match item {
        Item::Struct {
            name: _,
            members: _,
            line,
        } => *line,
        Item::Variables(d) => match d.names.as_slice().first() {
            Some(first) => first.second,
            None => 0,
        },
        Item::Function {
            is_static: _,
            result: _,
            name: _,
            void_word: _,
            params: _,
            body: _,
            line,
            second: _,
        } => *line,
        Item::Cle(_, line) => *line,
    }
}
