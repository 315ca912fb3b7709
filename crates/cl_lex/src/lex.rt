//! The tokens of a source.

ghost use Rattle.std.specs.Prelude.{◌≡◌, true, ℕ, ◌+◌, ◌-◌, ◌<◌, ◌≤◌, ◌^◌, List, [], ◌++◌, length, drop, take, nat_eq};
ghost use Rattle.std.specs.Prelude.{IfOk, IfErr, OnOk, MatchResult};
ghost use Rattle.std.specs.HashMap.{get};
ghost use Rattle.std.specs.Cmp.Lexicographic.{pointwise};
ghost use Rattle.std.specs.Map.{update};
ghost use Rattle.std.specs.Str.{bytes_eq};
ghost use Rattle.cl_base.specs.declared.limits.TheConstants.{SOURCE_BYTES};
ghost use Rattle.cl_tree.specs.Tokens.{Before, IsTaken, IsStuck, IsLexed, FailsAt, AreTokens, LexFails, HasAnswer};
ghost use Rattle.cl_tree.specs.Tokens.{HasOneAnswer, flaw, flaw_as, definition_flaw, meant, replaced, token_as};
ghost use Rattle.cl_tree.specs.Tokens.{definitions_after, number_of, place_at, unfinished, to_line_end};
ghost use Rattle.std.specs.List.{prefix_len};
ghost use Rattle.std.specs.Prelude.{not};
ghost use Rattle.cl_tree.specs.Letters.{is_newline};
ghost use Rattle.cl_lex.specs.Laws.{BringsOnly, AreInOrder};
ghost use Rattle.cl_lex.specs.Found.{before, IsPieceOf, IsHalt, AreLexed, IsFailure, IsFailureOf, IsStop};
ghost use Rattle.cl_tree.specs.declared.token.Token.{Token};
ghost use Rattle.cl_lex.specs.declared.lex.LexStop.TheVariants as stop;

use crate::meaning::{fresh_after, piece_meaning};
use crate::passes::join_strings;
use crate::pieces::{Halt, Piece};
use crate::scan::{closing, mark_len, opening, opening_len, run_len};
use crate::text::unjoin;
use cl_base::name::Name;
use cl_literals::directives::first_bad;
use cl_tree::letters::is_newline;
use cl_tree::pieces::{Closed, Literal, Opening, PieceMeaning, Place, Rule};
use cl_tree::token::{Lexeme, Token};
use std::alloc::{AllocError, Global};
use std::collections::HashMap;

/// Why a source has no tokens.
#[derive(Debug, Drop)]
pub enum LexStop {
    /// It breaks the lexical rule of this number: 2, 3, 4, 5 or 7.
    Rule { rule: u8, line: u32 },
    NoMemory,
}

impl From<AllocError> for LexStop {
    ghost use Rattle.std.specs.Prelude.{◌≡◌};
    ghost use Rattle.cl_lex.specs.declared.lex.LexStop.TheVariants.{NoMemory};

    ghost from_gives = { λ e s. s ≡ NoMemory };

    fn from(_error: AllocError) -> LexStop {
        LexStop::NoMemory
    }
}

/// How many bytes stand before the next newline.
fn line_len(text: &[u8]) -> usize
    ensures value { result ≡ prefix_len (λ b. not (is_newline b)) text.now }
    ensures within { result ≤ length text.now }
{
    text.iter().take_while(|b| !is_newline(**b)).count()
}

#[tactic(auto, unfolding(cl_tree::specs::Tokens::to_line_end))]
fn to_line_end(text: &[u8]) -> &[u8]
    ensures { result.now ≡ to_line_end text.now }
{
    &text[..line_len(text)]
}

/// Why a piece that has to be closed is not taken, and at which byte.
fn unfinished(kind: Closed, text: &[u8]) -> (Rule, usize)
    ensures { result ≡ unfinished kind text.now }
{
    match kind {
        Closed::Comment => (Rule::E04, 0),
        Closed::Quoted | Closed::Letter => match first_bad(to_line_end(text)) {
            None => (Rule::E04, 0),
            Some(i) => (Rule::E02, i),
        },
    }
}

/// How long the piece is that stands at the start of a text, else the rule that is broken there, and at which byte.
fn piece_len(fresh: bool, text: &[u8]) -> Result<usize, (Rule, usize)>
    requires { 0 < length text.now }
    ensures taken { IfOk result (λ n. IsTaken fresh (take n text.now) text.now) }
    ensures within { IfOk result (λ n. (0 < n) × (n ≤ length text.now)) }
    ensures stuck { IfErr result (λ e. IsStuck fresh text.now e.0 e.1) }
{
    match opening(fresh, text) {
        Opening::Runs(run) => Ok(run_len(run, text)),
        Opening::Closes(kind) => match closing(kind, text, opening_len(kind)) {
            Some(n) => Ok(n),
            None => Err(unfinished(kind, text)),
        },
        Opening::Space => Ok(1),
        Opening::Punct => {
            let n = mark_len(text);
            if n == 0 { Err((Rule::E03, 0)) } else { Ok(n) }
        }
        Opening::Other => Err((Rule::E02, 0)),
    }
}

fn definition_flaw(
    known: Option<Literal>,
    literal: Option<Literal>,
    at: usize,
) -> Option<(Rule, usize)>
    ensures { result ≡ definition_flaw known literal at }
{
    match (known, literal) {
        (Some(_), _) => Some((Rule::E05, 0)),
        (None, None) => Some((Rule::E07, at)),
        (None, Some(_)) => None,
    }
}

fn literal_of(defined: &HashMap<Name, Literal>, name: &Name) -> Option<Literal>
    ensures { result ≡ get (pointwise nat_eq) defined.now name.now }
{
    match defined.get(name) {
        Some(literal) => Some(*literal),
        None => None,
    }
}

/// The rule that a piece breaks, and at which byte of it.
fn flaw_of(defined: &HashMap<Name, Literal>, found: &PieceMeaning) -> Option<(Rule, usize)>
    ensures { result ≡ flaw_as (λ q. get (pointwise nat_eq) defined.now q) found.now }
{
    match found {
        PieceMeaning::Blank | PieceMeaning::Is(_) => None,
        PieceMeaning::Bad(rule, i) => Some((*rule, *i)),
        PieceMeaning::Defines { name, literal, at } => definition_flaw(
            literal_of(defined, name),
            *literal,
            *at,
        ),
    }
}

/// The piece at the start of a text.
#[tactic(auto, unfolding(cl_tree::specs::Tokens::flaw))]
fn piece(
    alloc: Global,
    fresh: bool,
    defined: &HashMap<Name, Literal>,
    text: &[u8],
) -> Result<Piece, Halt>
    requires some { 0 < length text.now }
    requires small { length text.now < 2 ^ 62 }
    ensures good { IfOk result (λ p.
        IsPieceOf (before fresh (λ q. get (pointwise nat_eq) defined.now q)) p.len p.fresh p.found text.now) }
    ensures halt { IfErr result (λ e. IsHalt (before fresh (λ q. get (pointwise nat_eq) defined.now q)) text.now e) }
{
    let len = match piece_len(fresh, text) {
        Ok(n) => n,
        Err((rule, i)) => return Err(Halt::Fault(rule, i)),
    };
    let front = &text[..len];
    let found = piece_meaning(alloc, fresh, front)?;
    if let Some((rule, i)) = flaw_of(defined, &found) {
        return Err(Halt::Fault(rule, i));
    }
    Ok(Piece {
        len,
        fresh: fresh_after(fresh, front),
        found,
    })
}

/// The piece of a text at a place.
fn piece_at(
    alloc: Global,
    fresh: bool,
    defined: &HashMap<Name, Literal>,
    text: &[u8],
    at: usize,
) -> Result<Piece, Halt>
    requires some { at < length text.now }
    requires small { length text.now < 2 ^ 62 }
    ensures good { IfOk result (λ p.
        IsPieceOf (before fresh (λ q. get (pointwise nat_eq) defined.now q)) p.len p.fresh p.found (drop at text.now)) }
    ensures halt { IfErr result (λ e.
        IsHalt (before fresh (λ q. get (pointwise nat_eq) defined.now q)) (drop at text.now) e) }
{
    piece(alloc, fresh, defined, &text[at..])
}

fn meant(found: Option<Literal>, name: Name) -> Lexeme
    ensures { result ≡ meant found name }
{
    match found {
        Some(Literal::Number { value, kind }) => Lexeme::Integer { value, kind },
        Some(Literal::Byte(b)) => Lexeme::Letter(b),
        None => Lexeme::Word(name),
    }
}

/// A defined name by its literal.
fn replaced(defined: &HashMap<Name, Literal>, what: Lexeme) -> Lexeme
    ensures { result ≡ replaced (λ q. get (pointwise nat_eq) defined.now q) what }
{
    match what {
        Lexeme::Word(name) => {
            let found = literal_of(defined, &name);
            meant(found, name)
        }
        other => other,
    }
}

fn define(
    defined: &mut HashMap<Name, Literal>,
    name: Name,
    literal: Literal,
) -> Result<(), AllocError>
    ensures { OnOk result ((q : List ℕ) →
        get (pointwise nat_eq) defined.new q ≡
        update bytes_eq (λ n. get (pointwise nat_eq) defined.old n) name (Some literal) q) }
{
    defined.insert(name, literal)?;
    Ok(())
}

/// Writes the token of a piece, if it is one, and what it defines.
fn add(
    out: &mut Vec<Token>,
    defined: &mut HashMap<Name, Literal>,
    places: &[Place],
    at: usize,
    len: usize,
    found: PieceMeaning,
) -> Result<(), AllocError>
    requires some { 0 < len }
    requires within { at + len ≤ length places.now }
    ensures tokens { OnOk result (out.new.items ≡
        out.old.items ++ token_as (λ q. get (pointwise nat_eq) defined.old q) found places.now at len) }
    ensures definitions { OnOk result ((q : List ℕ) →
        get (pointwise nat_eq) defined.new q ≡ definitions_after (λ n. get (pointwise nat_eq) defined.old n) found q) }
{
    match found {
        PieceMeaning::Is(what) => {
            let first = places[at];
            let last = places[at + len - 1];
            out.push(Token {
                line: first.line,
                start: first.start,
                end: last.end,
                what: replaced(defined, what),
            })?;
            Ok(())
        }
        PieceMeaning::Defines {
            name,
            literal,
            at: _,
        } => match literal {
            Some(literal) => define(defined, name, literal),
            None => Ok(()),
        },
        PieceMeaning::Blank | PieceMeaning::Bad(_, _) => Ok(()),
    }
}

fn number_of(rule: Rule) -> u8
    ensures { result ≡ number_of rule }
{
    match rule {
        Rule::E02 => 2,
        Rule::E03 => 3,
        Rule::E04 => 4,
        Rule::E05 => 5,
        Rule::E07 => 7,
    }
}

/// The line of the byte that stands i bytes behind a place.
fn line_at(places: &[Place], at: usize, i: usize) -> u32
    requires { at ≤ length places.now }
    ensures { result ≡ (place_at places.now (at + i)).line }
{
    match places[at..].get(i) {
        Some(place) => place.line,
        None => 0,
    }
}

/// The tokens of a text without joins, each string a token of its own.
fn lex_text(alloc: Global, text: &[u8], places: &[Place]) -> Result<Vec<Token>, LexStop>
    requires same { length text.now ≡ length places.now }
    requires small { length text.now < 2 ^ 62 }
    ensures found { IfOk result (λ v. (last : Before) × AreLexed text.now places.now v.items last []) }
    ensures fails { IfErr result (λ e. IsFailure text.now places.now e) }
{
    let mut out = Vec::new(alloc);
    let mut defined = HashMap::new(alloc);
    let mut at = 0;
    let mut fresh = true;
    while at < text.len() {
        match piece_at(alloc, fresh, &defined, text, at) {
            Ok(piece) => {
                add(&mut out, &mut defined, places, at, piece.len, piece.found)?;
                fresh = piece.fresh;
                at += piece.len;
            }
            Err(Halt::Memory) => return Err(LexStop::NoMemory),
            Err(Halt::Fault(rule, i)) => {
                return Err(LexStop::Rule {
                    rule: number_of(rule),
                    line: line_at(places, at, i),
                });
            }
        }
    }
    Ok(out)
}

/// The tokens of a text without joins.
fn lex_joined(alloc: Global, text: &[u8], places: &[Place]) -> Result<Vec<Token>, LexStop>
    requires same { length text.now ≡ length places.now }
    requires small { length text.now < 2 ^ 62 }
    ensures found { IfOk result (λ v. IsLexed text.now places.now v.items) }
    ensures fails { IfErr result (λ e. IsFailure text.now places.now e) }
{
    let tokens = lex_text(alloc, text, places)?;
    Ok(join_strings(alloc, tokens)?)
}

fn lex_source(alloc: Global, bytes: &[u8]) -> Result<Vec<Token>, LexStop>
    requires { length bytes.now ≤ SOURCE_BYTES }
    ensures found { IfOk result (λ v. AreTokens bytes.now v.items) }
    ensures fails { IfErr result (λ e. IsFailureOf bytes.now e) }
{
    let text = unjoin(alloc, bytes)?;
    lex_joined(alloc, text.bytes.as_slice(), text.places.as_slice())
}

/// The tokens of a source, or the lexical rule that its first failing place breaks, and the line of that place.
pub fn lex(alloc: Global, bytes: &[u8]) -> Result<Vec<Token>, LexStop>
    requires { length bytes.now ≤ SOURCE_BYTES }
    // What is answered is so.
    ensures found { IfOk result (λ v. AreTokens bytes.now v.items) }
    ensures fails { IfErr result (λ e. IsFailureOf bytes.now e) }
    // What is so is answered, unless memory runs out.
    ensures all_found { (ts : List Token) → AreTokens bytes.now ts →
        MatchResult result (λ v. v.items ≡ ts) (λ e. e ≡ stop.NoMemory) }
    ensures all_fails { (rule line : ℕ) → LexFails bytes.now rule line →
        MatchResult result (λ v. ⊥) (λ e. IsStop rule line e) }
    // The tokens stand as the source has them.
    ensures in_order { IfOk result (λ v. AreInOrder bytes.now v.items) }
{
    lex_source(alloc, bytes)
}

/// A law of the definitions: a source has at most one list of tokens, at most one failure, and not both.
pub fn one_answer()
    ensures { (source : List ℕ) → HasOneAnswer source }
{}

/// A law of the definitions: a source has a list of tokens or a failure.
pub fn an_answer()
    ensures { (source : List ℕ) → HasAnswer source }
{}

/// A law of the definitions: what the tokens of a source are made of is what the grammar's trees may hold.
pub fn brings_only()
    ensures { (source : List ℕ) → BringsOnly source }
{}
