//! The syntax tree. `line` is the line of a node's first token. `second` is the line of one other
//! token of the same node, where two rules name two of them, and equals `line` where there is none.

use crate::bytes::Bytes;
use crate::kinds::{BinOp, IntKind, UnOp};
use crate::token::Pragma;
use cl_base::name::Name;
use sqlite_items::{Boxed, Items};

/// A type as it is written.
#[derive(Drop)]
pub enum CType {
    Void,
    Integer(IntKind),
    Struct(Name),
    Array(Boxed<CType>, u64),
    Pointer(Boxed<CType>),
    Floating,
}

/// An expression. `second` is the line of the operator of a binary operator, of the `[` of an index,
/// of the `->` of an arrow, and of the first `*` of a cast's type (else of a floating type in it).
#[cycle(expr)]
#[derive(Drop)]
pub struct Expr {
    pub line: u32,
    pub second: u32,
    pub node: Node,
}

#[cycle(expr)]
#[derive(Drop)]
pub enum Node {
    Number { value: u64, kind: IntKind },
    Real,
    Letter(u8),
    Text(Bytes),
    Variable(Name),
    Unary(UnOp, Boxed<Expr>),
    Binary(BinOp, Boxed<Expr>, Boxed<Expr>),
    Choice(Boxed<Expr>, Boxed<Expr>, Boxed<Expr>),
    Cast(CType, Boxed<Expr>),
    Call(Name, Items<Expr>),
    Index(Boxed<Expr>, Boxed<Expr>),
    Member(Boxed<Expr>, Name),
    Arrow(Boxed<Expr>, Name),
    Paren(Boxed<Expr>),
}

/// What stands behind the `=` of a declarator.
#[derive(Drop)]
pub enum Init {
    One(Expr),
    Many(Items<Init>),
}

/// One name of a declaration. `line` is the name's; `second` is that of the first `*` of its type,
/// else of a floating type, else of the first token of its item or innermost statement.
#[derive(Drop)]
pub struct Declarator {
    pub name: Name,
    pub ctype: CType,
    pub init: Option<Init>,
    pub line: u32,
    pub second: u32,
}

#[derive(Drop)]
pub struct Declaration {
    pub is_static: bool,
    pub names: Items<Declarator>,
}

/// A statement. `second` is the line of the operator of an assignment, `++` or `--`.
#[cycle(stmt)]
#[derive(Drop)]
pub struct Stmt {
    pub line: u32,
    pub second: u32,
    pub node: Act,
}

#[cycle(stmt)]
#[derive(Drop)]
pub enum Act {
    Empty,
    Block(Items<Stmt>),
    /// `place = value`, or with an operator `place op= value`.
    Set {
        op: Option<BinOp>,
        place: Expr,
        value: Expr,
    },
    /// `++` or `--`, before or behind the place.
    Bump {
        up: bool,
        prefix: bool,
        place: Expr,
    },
    /// A call as a statement.
    Call(Expr),
    If(Expr, Boxed<Stmt>, Option<Boxed<Stmt>>),
    While(Expr, Boxed<Stmt>),
    DoWhile(Boxed<Stmt>, Expr),
    For {
        first: Option<Boxed<Stmt>>,
        test: Option<Expr>,
        next: Option<Boxed<Stmt>>,
        body: Boxed<Stmt>,
    },
    Return(Option<Expr>),
    Break,
    Continue,
    Declare(Declaration),
    Cle(Pragma),
}

/// What stands at file level. `line` is that of its first token. A function's `second` is the line of
/// its name, or of the first `*` of its result's type, else of a floating type there.
#[derive(Drop)]
pub enum Item {
    Struct {
        name: Name,
        members: Items<Declaration>,
        line: u32,
    },
    Variables(Declaration),
    Function {
        is_static: bool,
        result: CType,
        name: Name,
        void_word: bool,
        params: Items<Declarator>,
        body: Option<Items<Stmt>>,
        line: u32,
        second: u32,
    },
    Cle(Pragma, u32),
}

/// A source, by its items in order.
#[derive(Drop)]
pub struct Program {
    pub items: Items<Item>,
}
