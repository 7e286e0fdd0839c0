//! Source files as trees, and their grammar as a relation between a tree and the tokens that spell it.
#![tactic(auto)]

ghost use Rattle.std.specs.Prelude.{◌≡◌, ℕ, List};
ghost use Rattle.df_tok.specs.Token as token;
ghost use Rattle.df_ntree.specs.Expr as pure_expr;
ghost use Rattle.df_ntree.specs.ExprSpelling.{IsExpressionAt};
ghost use Rattle.df_ntree.specs.File as pure_file;
ghost use Rattle.df_ntree.specs.FileSpelling.{SpellsFile};

mod expr;
mod file;
mod tree;

pub use expr::{BasicType, BinaryOperator, Expr, Group, Level, Operation, TreeType, UnaryOperator};
pub use file::{
    Block, Branch, Clause, ConditionKind, Declaration, File, Local, MethodDeclaration,
    NewtypeDeclaration, Parameter, PrintOperand, Statement,
};
pub use tree::{Ident, Literal};

/// From one token on, tokens spell at most one expression that ends before a token that cannot
/// continue it.
pub fn one_expression()
    ensures { (tokens : List token.Token) (start after other_after : ℕ) (e other : pure_expr.Expr) → IsExpressionAt tokens start e after → IsExpressionAt tokens start other other_after → (e ≡ other) × (after ≡ other_after) }
{}

/// Tokens spell at most one file.
pub fn one_file()
    ensures { (tokens : List token.Token) (file other : pure_file.File) → SpellsFile file tokens → SpellsFile other tokens → file ≡ other }
{}
