//! Expressions and statements of the forms.

ghost use Rattle.std.specs.Prelude.{◌≡◌, Option, None, Some, map, option_map};
ghost use Rattle.std.specs.List.{list_all, list_any};
ghost use Rattle.std.specs.Option.{option_copied};
ghost use Rattle.cl_form.specs.Form.{is_int, is_sum_operator, is_it, is_sum, is_put, is_main_statement, is_variable, is_other_statement, is_return_act, ends_in_return, calls, put_calls, statement_calls};
ghost use Rattle.cl_form.specs.Reading.{is_main, is_other};
ghost use Rattle.cl_tree.specs.declared.tree.Node.{out-Node};
ghost use Rattle.cl_tree.specs.declared.tree.Act.{out-Act};

use cl_base::name::Name;
use cl_tree::kinds::{BinOp, IntKind};
use cl_tree::tree::{Act, Expr, Node, Stmt};
use cl_tree::words::same;

pub fn is_int(kind: IntKind) -> bool
    ensures { result ≡ is_int kind }
{
    kind == IntKind::I32
}

fn is_sum_operator(op: BinOp) -> bool
    ensures { result ≡ is_sum_operator op }
{
    match op {
        BinOp::Add | BinOp::Sub | BinOp::Mul => true,
        _ => false,
    }
}

/// Is this the name that may stand here?
fn is_it(it: Option<&Name>, name: &Name) -> bool
    ensures { result ≡ is_it (option_copied it.entry) name.now }
{
    match it {
        Some(it) => it == name,
        None => false,
    }
}

/// Is this a sum, difference or product of `int` literals, the variable and calls of the function?
#[tactic(auto, unfolding(crate::specs::Form::is_sum))]
fn is_sum(variable: Option<&Name>, function: Option<&Name>, e: &Expr) -> bool
    ensures { result ≡ is_sum (option_copied variable.entry) (option_copied function.entry) e.now }
{
    match &e.node {
        Node::Number { kind, .. } => is_int(*kind),
        Node::Variable(name) => is_it(variable, name),
        Node::Call(name, arguments) => match arguments.as_slice() {
            [] => is_it(function, name),
            _ => false,
        },
        Node::Binary(op, a, b) => {
            is_sum_operator(*op)
                && is_sum(variable, function, a.get())
                && is_sum(variable, function, b.get())
        }
        Node::Paren(inner) => is_sum(variable, function, inner.get()),
        _ => false,
    }
}

/// Does the expression call a function?
#[tactic(auto, unfolding(crate::specs::Form::calls))]
fn calls(e: &Expr) -> bool
    ensures { result ≡ calls e.now }
{
    match &e.node {
        Node::Call(_, _) => true,
        Node::Binary(_, a, b) => calls(a.get()) || calls(b.get()),
        Node::Paren(inner) => calls(inner.get()),
        _ => false,
    }
}

/// Is this `putchar(E)`?
fn is_put(function: Option<&Name>, e: &Expr) -> bool
    ensures { result ≡ is_put (option_copied function.entry) (out-Node e.now.node) }
{
    match &e.node {
        Node::Call(name, arguments) => match arguments.as_slice() {
            [e] => same(name.as_bytes(), b"putchar") && is_sum(None, function, e),
            _ => false,
        },
        _ => false,
    }
}

/// Is this a statement of `main`, which may call the function?
#[tactic(auto, unfolding(crate::specs::Form::is_main_statement))]
fn is_main_statement(function: Option<&Name>, s: &Stmt) -> bool
    ensures { result ≡ is_main_statement (option_copied function.entry) s.now }
{
    match &s.node {
        Act::Call(e) => is_put(function, e),
        Act::Return(Some(e)) => is_sum(None, function, e),
        _ => false,
    }
}

fn is_variable(a: &Name, e: &Expr) -> bool
    ensures { result ≡ is_variable a.now (out-Node e.now.node) }
{
    match &e.node {
        Node::Variable(name) => a == name,
        _ => false,
    }
}

/// Is this a statement of the other function, which may name the variable?
#[tactic(auto, unfolding(crate::specs::Form::is_other_statement))]
fn is_other_statement(a: &Name, s: &Stmt) -> bool
    ensures { result ≡ is_other_statement a.now s.now }
{
    match &s.node {
        Act::Set {
            op: None,
            place,
            value,
        } => is_variable(a, place) && is_sum(Some(a), None, value),
        Act::Return(Some(e)) => is_sum(Some(a), None, e),
        _ => false,
    }
}

fn is_return(s: &Stmt) -> bool
    ensures { result ≡ is_return_act (out-Act s.now.node) }
{
    match &s.node {
        Act::Return(_) => true,
        _ => false,
    }
}

/// Is the last statement a `return`?
#[tactic(auto, unfolding(crate::specs::Form::ends_in_return))]
fn ends_in_return(body: &[Stmt]) -> bool
    ensures { result ≡ ends_in_return body.now }
{
    match body.last() {
        Some(last) => is_return(last),
        None => false,
    }
}

fn put_calls(e: &Expr) -> bool
    ensures { result ≡ put_calls (out-Node e.now.node) }
{
    match &e.node {
        Node::Call(_, arguments) => match arguments.as_slice() {
            [e] => calls(e),
            _ => false,
        },
        _ => false,
    }
}

/// Does a statement of `main` call the other function?
#[tactic(auto, unfolding(crate::specs::Form::statement_calls))]
fn statement_calls(s: &Stmt) -> bool
    ensures { result ≡ statement_calls s.now }
{
    match &s.node {
        Act::Call(e) => put_calls(e),
        Act::Return(Some(e)) => calls(e),
        _ => false,
    }
}

/// Is each a statement of `main`?
fn are_main_statements(function: Option<&Name>, body: &[Stmt]) -> bool
    ensures { result ≡ list_all (is_main_statement (option_copied function.entry)) body.now }
{
    body.iter().all(|s| is_main_statement(function, s))
}

/// Is each a statement of the other function?
fn are_other_statements(a: &Name, body: &[Stmt]) -> bool
    ensures { result ≡ list_all (is_other_statement a.now) body.now }
{
    body.iter().all(|s| is_other_statement(a, s))
}

/// Is this `main`, which may call the function?
pub fn is_main(function: Option<&Name>, name: &Name, body: &[Stmt]) -> bool
    ensures { result ≡ is_main (option_copied function.entry) name.now body.now }
{
    same(name.as_bytes(), b"main") && are_main_statements(function, body)
}

/// Are these the statements of the other function, which names the variable?
pub fn is_other(a: &Name, body: &[Stmt]) -> bool
    ensures { result ≡ is_other a.now body.now }
{
    are_other_statements(a, body) && ends_in_return(body)
}

/// Does one of them call the other function?
pub fn any_calls(body: &[Stmt]) -> bool
    ensures { result ≡ list_any statement_calls body.now }
{
    body.iter().any(|s| statement_calls(s))
}
