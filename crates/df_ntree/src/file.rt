//! Files: declarations and statements.

use crate::expr::{Expr, TreeType};
use crate::tree::Ident;
use df_base::Pos;

/// A source file: its declarations in order.
#[derive(Drop)]
pub struct File {
    pub declarations: Vec<Declaration>,
}

/// What a file declares.
#[derive(Drop)]
pub enum Declaration {
    Newtype(NewtypeDeclaration),
    Method(MethodDeclaration),
}

/// `newtype name = variable | predicate`, with or without `: int` and `witness`.
#[derive(Drop)]
pub struct NewtypeDeclaration {
    pub name: Ident,
    pub variable: Ident,
    /// Whether `: int` is written.
    pub is_typed: bool,
    pub predicate: Expr,
    pub witness: Option<Expr>,
}

/// `method name(parameters) returns (results)`, its contract and its body.
#[derive(Drop)]
pub struct MethodDeclaration {
    pub name: Ident,
    pub parameters: Vec<Parameter>,
    /// What stands after `returns`; `None` where that word is not written.
    pub results: Option<Vec<Parameter>>,
    pub clauses: Vec<Clause>,
    pub body: Block,
}

/// `name: ty`, a parameter or a result.
#[derive(Clone, Copy, PartialEq, Eq)]
pub struct Parameter {
    pub name: Ident,
    pub ty: TreeType,
}

/// What the condition of a clause says.
#[derive(Clone, Copy, PartialEq, Eq)]
pub enum ConditionKind {
    /// `requires`: what callers owe.
    Requires,
    /// `ensures`: what the method owes.
    Ensures,
    /// `invariant`: what holds before each turn of a loop.
    Invariant,
}

/// A clause of a contract or of a loop, its word at `pos`. Methods and loops may be written with
/// any clauses; which ones they may have is a rule of typing.
#[derive(Drop)]
pub enum Clause {
    Condition {
        kind: ConditionKind,
        pos: Pos,
        condition: Expr,
    },
    /// `decreases values`, at least one.
    Decreases {
        pos: Pos,
        values: Vec<Expr>,
    },
}

/// A local variable as it is declared, with its type or without.
#[derive(Clone, Copy, PartialEq, Eq)]
pub struct Local {
    pub name: Ident,
    pub ty: Option<TreeType>,
}

/// `{ statements }`; `pos` is where it opens.
#[cycle(statement)]
#[derive(Drop)]
pub struct Block {
    pub pos: Pos,
    pub statements: Vec<Statement>,
}

/// `if guard body`, the word `if` at `pos`.
#[cycle(statement)]
#[derive(Drop)]
pub struct Branch {
    pub pos: Pos,
    pub guard: Expr,
    pub body: Block,
}

/// A statement. Where it begins with a word, that stands at `pos`.
#[cycle(statement)]
#[derive(Drop)]
pub enum Statement {
    Block(Block),
    /// `var locals := values;`, or without `:=` where there are no values. There is at least one
    /// local.
    Var {
        pos: Pos,
        locals: Vec<Local>,
        values: Vec<Expr>,
    },
    /// `targets := values;`, at least one of each. Targets are primaries.
    Assign {
        targets: Vec<Expr>,
        values: Vec<Expr>,
    },
    /// `value;`, a primary for what it does, as a call.
    Expression(Expr),
    /// A branch, what `else if` adds, and `else otherwise`: the branches of a run are siblings.
    If {
        first: Branch,
        others: Vec<Branch>,
        otherwise: Option<Block>,
    },
    /// `while guard clauses body`.
    While {
        pos: Pos,
        guard: Expr,
        clauses: Vec<Clause>,
        body: Block,
    },
    /// `return values;`, or without values.
    Return {
        pos: Pos,
        values: Vec<Expr>,
    },
    /// `break;`
    Break {
        pos: Pos,
    },
    /// `assert condition;`
    Assert {
        pos: Pos,
        condition: Expr,
    },
    /// `print operands;`, at least one.
    Print {
        pos: Pos,
        operands: Vec<PrintOperand>,
    },
}

/// What is printed.
#[derive(Drop)]
pub enum PrintOperand {
    /// A string literal, as its characters.
    Text(Vec<u8>),
    Value(Expr),
}
