// Expressions as text: each operator by its name, before its operands.

use cl_tree::kinds::IntKind;
use cl_tree::tree::{CType, Expr, Node};
use std::alloc::{AllocError, Global};

fn show_number(
    alloc: Global,
    out: &mut String,
    value: u64,
    kind: IntKind,
) -> Result<(), AllocError> {
    out.push_str(&format!(in alloc; "{value}")?)?;
    match kind {
        IntKind::I32 => Ok(()),
        _ => out.push_str(&format!(in alloc; ":{kind:?}")?),
    }
}

fn show_type(alloc: Global, out: &mut String, t: &CType) -> Result<(), AllocError> {
    match t {
        CType::Void => out.push_str("void"),
        CType::Integer(kind) => out.push_str(&format!(in alloc; "{kind:?}")?),
        CType::Struct(name) => out.push_str(name.text()),
        CType::Floating => out.push_str("floating"),
        CType::Pointer(inner) => {
            show_type(alloc, out, inner.get())?;
            out.push_str("*")
        }
        CType::Array(inner, _) => {
            show_type(alloc, out, inner.get())?;
            out.push_str("[]")
        }
    }
}

fn show_named(out: &mut String, name: &str) -> Result<(), AllocError> {
    out.push_str(", ")?;
    out.push_str(name)?;
    out.push_str(")")
}

#[cycle(show)]
fn show_behind(alloc: Global, out: &mut String, text: &str, e: &Expr) -> Result<(), AllocError> {
    out.push_str(text)?;
    show(alloc, out, e)
}

#[cycle(show)]
fn show_all(alloc: Global, out: &mut String, all: &[Expr]) -> Result<(), AllocError> {
    for e in all {
        show_behind(alloc, out, " ", e)?;
    }
    Ok(())
}

#[cycle(show)]
pub fn show(alloc: Global, out: &mut String, e: &Expr) -> Result<(), AllocError> {
    match &e.node {
        Node::Number { value, kind } => show_number(alloc, out, *value, *kind),
        Node::Real => out.push_str("Real"),
        Node::Letter(byte) => out.push_str(&format!(in alloc; "Letter {byte}")?),
        Node::Text(text) => {
            let bytes = text.as_slice();
            out.push_str(&format!(in alloc; "Text {bytes:?}")?)
        }
        Node::Variable(name) => out.push_str(name.text()),
        Node::Unary(op, a) => {
            show_behind(alloc, out, &format!(in alloc; "{op:?}(")?, a.get())?;
            out.push_str(")")
        }
        Node::Binary(op, a, b) => {
            show_behind(alloc, out, &format!(in alloc; "{op:?}(")?, a.get())?;
            show_behind(alloc, out, ", ", b.get())?;
            out.push_str(")")
        }
        Node::Choice(a, b, c) => {
            show_behind(alloc, out, "Choice(", a.get())?;
            show_behind(alloc, out, ", ", b.get())?;
            show_behind(alloc, out, ", ", c.get())?;
            out.push_str(")")
        }
        Node::Cast(t, a) => {
            out.push_str("Cast(")?;
            show_type(alloc, out, t)?;
            show_behind(alloc, out, ", ", a.get())?;
            out.push_str(")")
        }
        Node::Call(name, arguments) => {
            out.push_str("Call(")?;
            out.push_str(name.text())?;
            show_all(alloc, out, arguments.as_slice())?;
            out.push_str(")")
        }
        Node::Index(a, b) => {
            show_behind(alloc, out, "Index(", a.get())?;
            show_behind(alloc, out, ", ", b.get())?;
            out.push_str(")")
        }
        Node::Member(a, name) => {
            show_behind(alloc, out, "Member(", a.get())?;
            show_named(out, name.text())
        }
        Node::Arrow(a, name) => {
            show_behind(alloc, out, "Arrow(", a.get())?;
            show_named(out, name.text())
        }
        Node::Paren(a) => {
            show_behind(alloc, out, "Paren(", a.get())?;
            out.push_str(")")
        }
    }
}
