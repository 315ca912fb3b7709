//! Brackets that are open, and where items end.

ghost use Rattle.std.specs.Prelude.{◌≡◌, [], ◌∷◌, length, IfOk, OnOk, MatchOption};
ghost use Rattle.cl_tree.specs.Items as items;
ghost use Rattle.cl_tree.specs.Spelling.{is_empty};
ghost use Rattle.cl_parse.specs.Brackets.{bracket_of, effect_of};

use cl_base::name::NoMemory;
use cl_tree::grammar::{Sign, Terminal};
use cl_tree::token::Mark;
use std::alloc::{AllocError, Global};
use std::marker::Model;

/// A bracket. The `{` of a body follows a `)` directly.
#[derive(Clone, Copy, PartialEq, Eq)]
pub enum Bracket {
    Round,
    Square,
    Brace,
    Body,
}

/// What a terminal does to the brackets that are open.
#[derive(Clone, Copy, PartialEq, Eq)]
pub enum Effect {
    Opens(Bracket),
    Closes(Bracket),
    Semicolon,
    Pragma,
    Nothing,
}

fn brace_after(after: bool) -> Bracket
    ensures { bracket_of result ≡ items.brace_after after }
{
    if after { Bracket::Body } else { Bracket::Brace }
}

fn mark_effect(after: bool, mark: Mark) -> Effect
    ensures { effect_of result ≡ items.mark_effect after mark }
{
    match mark {
        Mark::OpenParen => Effect::Opens(Bracket::Round),
        Mark::OpenBracket => Effect::Opens(Bracket::Square),
        Mark::OpenBrace => Effect::Opens(brace_after(after)),
        Mark::CloseParen => Effect::Closes(Bracket::Round),
        Mark::CloseBracket => Effect::Closes(Bracket::Square),
        Mark::CloseBrace => Effect::Closes(Bracket::Brace),
        Mark::Semicolon => Effect::Semicolon,
        _ => Effect::Nothing,
    }
}

/// `after`: the terminal before is a `)`.
fn sign_effect(after: bool, what: &Sign) -> Effect
    ensures { effect_of result ≡ items.effect after what.now }
{
    match what {
        Sign::Mark(mark) => mark_effect(after, *mark),
        Sign::Cle(_) => Effect::Pragma,
        _ => Effect::Nothing,
    }
}

pub fn is_close(what: &Sign) -> bool
    ensures { result ≡ items.is_close what.now }
{
    match what {
        Sign::Mark(Mark::CloseParen) => true,
        _ => false,
    }
}

fn is_partner(begin: Bracket, end: Bracket) -> bool
    ensures { result ≡ items.is_partner (bracket_of begin) (bracket_of end) }
{
    match (begin, end) {
        (Bracket::Round, Bracket::Round) => true,
        (Bracket::Square, Bracket::Square) => true,
        (Bracket::Brace, Bracket::Brace) => true,
        (Bracket::Body, Bracket::Brace) => true,
        _ => false,
    }
}

fn is_body(bracket: Bracket) -> bool
    ensures { result ≡ items.is_body_bracket (bracket_of bracket) }
{
    match bracket {
        Bracket::Body => true,
        _ => false,
    }
}

fn begins_with_pragma(terminals: &[Terminal]) -> bool
    ensures { result ≡ items.is_pragma_first terminals.now }
{
    match terminals {
        [first, ..] => match &first.what {
            Sign::Cle(_) => true,
            _ => false,
        },
        [] => false,
    }
}

/// The brackets that are open, which contracts see as a list, the innermost first.
#[derive(Drop)]
pub struct OpenBrackets {
    stack: Vec<Bracket>,
}

impl Model for OpenBrackets {
    ghost use Rattle.std.specs.Prelude.{List};
    ghost use Rattle.cl_tree.specs.Items.{Bracket as BracketValue};
    ghost use Rattle.cl_parse.specs.Brackets.{from_top};

    ghost Value = { List BracketValue };

    ghost view = { λ o. from_top o.stack.items };
}

impl OpenBrackets {
    pub fn new(alloc: Global) -> OpenBrackets
        ensures { result ≡ [] }
    {
        OpenBrackets {
            stack: Vec::new(alloc),
        }
    }

    pub fn len(&self) -> usize
        ensures { result ≡ length self.now }
    {
        self.stack.len()
    }

    fn is_empty(&self) -> bool
        ensures { result ≡ is_empty self.now }
    {
        self.stack.is_empty()
    }

    #[tactic(auto, using(crate::proofs::Stack::top))]
    fn push(&mut self, bracket: Bracket) -> Result<(), AllocError>
        ensures { OnOk result (self.new ≡ bracket_of bracket ∷ self.old) }
    {
        self.stack.push(bracket)?;
        Ok(())
    }

    #[tactic(auto, using(crate::proofs::Stack::top))]
    fn pop(&mut self) -> Option<Bracket>
        ensures { MatchOption result ((self.old ≡ []) × (self.new ≡ [])) (λ b. self.old ≡ bracket_of b ∷ self.new) }
    {
        self.stack.pop()
    }

    fn clear(&mut self)
        ensures { self.new ≡ [] }
    {
        self.stack.clear();
    }

    /// Closes the innermost bracket, or all where it is no partner. Tells whether an item ends so.
    fn close(&mut self, bracket: Bracket) -> bool
        ensures ends { result ≡ items.ends_item self.old (items.closes (bracket_of bracket)) }
        ensures open { self.new ≡ items.open_after self.old (items.closes (bracket_of bracket)) }
    {
        match self.pop() {
            None => true,
            Some(begin) => {
                if is_partner(begin, bracket) {
                    is_body(begin) && self.is_empty()
                } else {
                    self.clear();
                    true
                }
            }
        }
    }

    fn take(&mut self, effect: Effect) -> Result<bool, NoMemory>
        ensures ends { IfOk result (λ ends. ends ≡ items.ends_item self.old (effect_of effect)) }
        ensures open { OnOk result (self.new ≡ items.open_after self.old (effect_of effect)) }
    {
        match effect {
            Effect::Opens(bracket) => {
                self.push(bracket)?;
                Ok(false)
            }
            Effect::Closes(bracket) => Ok(self.close(bracket)),
            Effect::Semicolon | Effect::Pragma => Ok(self.is_empty()),
            Effect::Nothing => Ok(false),
        }
    }

    /// Goes past a terminal, before `next`. Tells whether an item ends with it.
    pub fn pass(&mut self, after: bool, what: &Sign, next: &[Terminal]) -> Result<bool, NoMemory>
        ensures ends { IfOk result (λ ends. ends ≡ items.ends_here self.old (items.effect after what.now) next.now) }
        ensures open { OnOk result (self.new ≡ items.open_after self.old (items.effect after what.now)) }
    {
        let ends = self.take(sign_effect(after, what))?;
        Ok(ends || (self.is_empty() && begins_with_pragma(next)))
    }
}
