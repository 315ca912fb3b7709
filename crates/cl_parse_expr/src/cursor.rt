//! The first terminals.

ghost use Rattle.std.specs.Prelude.{◌≡◌};
ghost use Rattle.cl_parse_expr.specs.Cursor.{Gives, Finds, is_fixed, after, line_of, name_at, start_of, link_of, pull, link_at};

use crate::stop::Stop;
use cl_base::name::Name;
use cl_terminals::operators::binds;
use cl_tree::grammar::{Keyword, Sign, Terminal};
use cl_tree::kinds::{BinOp, UnOp};
use cl_tree::token::Mark;

/// A terminal that has one spelling.
#[derive(Clone, Copy, PartialEq, Eq)]
pub enum Fixed {
    Mark(Mark),
    Key(Keyword),
}

#[tactic(auto, unfolding(crate::specs::Cursor::same_mark, crate::specs::Cursor::same_key))]
fn is_fixed(fixed: Fixed, what: &Sign) -> bool
    ensures { result ≡ is_fixed fixed what.now }
{
    match (fixed, what) {
        (Fixed::Mark(mark), Sign::Mark(m)) => *m == mark,
        (Fixed::Key(key), Sign::Key(k)) => *k == key,
        _ => false,
    }
}

/// What follows a terminal, with its line.
#[tactic(auto, unfolding(crate::specs::Cursor::after))]
pub fn after(fixed: Fixed, terminals: &[Terminal]) -> Option<(u32, &[Terminal])>
    ensures { Finds (λ x. (x.0, x.1.now)) result (after fixed terminals.now) }
{
    match terminals {
        [first, rest @ ..] => {
            if is_fixed(fixed, &first.what) {
                Some((first.line, rest))
            } else {
                None
            }
        }
        [] => None,
    }
}

/// The same, where nothing else may stand.
pub fn wanted(fixed: Fixed, terminals: &[Terminal]) -> Result<(u32, &[Terminal]), Stop>
    ensures { Gives (λ x. (x.0, x.1.now)) result (after fixed terminals.now) }
{
    match after(fixed, terminals) {
        Some(found) => Ok(found),
        None => Err(Stop::Unread),
    }
}

/// The line of the first terminal; 0 where there is none.
pub fn line_of(terminals: &[Terminal]) -> u32
    ensures { result ≡ line_of terminals.now }
{
    match terminals {
        [first, ..] => first.line,
        [] => 0,
    }
}

/// A name, its line, and what follows.
#[tactic(auto, unfolding(crate::specs::Cursor::name_at))]
pub fn name_at(terminals: &[Terminal]) -> Option<(&Name, u32, &[Terminal])>
    ensures { Finds (λ x. (x.0.now, x.1, x.2.now)) result (name_at terminals.now) }
{
    match terminals {
        [first, rest @ ..] => match &first.what {
            Sign::Name(name) => Some((name, first.line, rest)),
            _ => None,
        },
        [] => None,
    }
}

/// The same, where nothing else may stand.
pub fn wanted_name(terminals: &[Terminal]) -> Result<(&Name, u32, &[Terminal]), Stop>
    ensures { Gives (λ x. (x.0.now, x.1, x.2.now)) result (name_at terminals.now) }
{
    match name_at(terminals) {
        Some(found) => Ok(found),
        None => Err(Stop::Unread),
    }
}

/// What a punctuator begins.
#[derive(Clone, Copy, PartialEq, Eq)]
pub enum Start {
    Nothing,
    Group,
    Prefix(UnOp),
}

pub fn start_of(mark: Mark) -> Start
    ensures { result ≡ start_of mark }
{
    match mark {
        Mark::OpenParen => Start::Group,
        Mark::Minus => Start::Prefix(UnOp::Minus),
        Mark::Plus => Start::Prefix(UnOp::Plus),
        Mark::Tilde => Start::Prefix(UnOp::Flip),
        Mark::Bang => Start::Prefix(UnOp::Not),
        Mark::Star => Start::Prefix(UnOp::Star),
        Mark::Amp => Start::Prefix(UnOp::Amp),
        _ => Start::Nothing,
    }
}

/// What a terminal does to the expression before it.
#[derive(Clone, Copy, PartialEq, Eq)]
pub enum Link {
    Nothing,
    Choice,
    Binary(BinOp),
    Index,
    Member,
    Arrow,
}

fn link_of(what: &Sign) -> Link
    ensures { result ≡ link_of what.now }
{
    match what {
        Sign::Mark(Mark::Question) => Link::Choice,
        Sign::Mark(Mark::BarBar) => Link::Binary(BinOp::Or),
        Sign::Mark(Mark::AmpAmp) => Link::Binary(BinOp::And),
        Sign::Mark(Mark::Bar) => Link::Binary(BinOp::BitOr),
        Sign::Mark(Mark::Caret) => Link::Binary(BinOp::Xor),
        Sign::Mark(Mark::Amp) => Link::Binary(BinOp::BitAnd),
        Sign::Mark(Mark::Equal) => Link::Binary(BinOp::Equal),
        Sign::Mark(Mark::Unequal) => Link::Binary(BinOp::Unequal),
        Sign::Mark(Mark::Less) => Link::Binary(BinOp::Less),
        Sign::Mark(Mark::Greater) => Link::Binary(BinOp::Greater),
        Sign::Mark(Mark::AtMost) => Link::Binary(BinOp::AtMost),
        Sign::Mark(Mark::AtLeast) => Link::Binary(BinOp::AtLeast),
        Sign::Mark(Mark::LeftShift) => Link::Binary(BinOp::Left),
        Sign::Mark(Mark::RightShift) => Link::Binary(BinOp::Right),
        Sign::Mark(Mark::Plus) => Link::Binary(BinOp::Add),
        Sign::Mark(Mark::Minus) => Link::Binary(BinOp::Sub),
        Sign::Mark(Mark::Star) => Link::Binary(BinOp::Mul),
        Sign::Mark(Mark::Slash) => Link::Binary(BinOp::Div),
        Sign::Mark(Mark::Percent) => Link::Binary(BinOp::Rem),
        Sign::Mark(Mark::OpenBracket) => Link::Index,
        Sign::Mark(Mark::Dot) => Link::Member,
        Sign::Mark(Mark::Arrow) => Link::Arrow,
        _ => Link::Nothing,
    }
}

/// How tightly a terminal binds the expression before it.
fn pull(link: Link) -> u32
    ensures { result ≡ pull link }
{
    match link {
        Link::Nothing => 0,
        Link::Choice => 1,
        Link::Binary(op) => binds(op),
        Link::Index | Link::Member | Link::Arrow => 14,
    }
}

/// What the first terminal does to the expression before it, if it binds at this level.
#[tactic(auto, unfolding(crate::specs::Cursor::link_at))]
pub fn link_at(level: u32, terminals: &[Terminal]) -> Option<(Link, u32, &[Terminal])>
    ensures { Finds (λ x. (x.0, x.1, x.2.now)) result (link_at level terminals.now) }
{
    match terminals {
        [first, rest @ ..] => {
            let link = link_of(&first.what);
            if pull(link) < level {
                None
            } else {
                Some((link, first.line, rest))
            }
        }
        [] => None,
    }
}
