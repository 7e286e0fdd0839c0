//! The parser: one reader over the table of productions, and the parts of a source that it reads.
#![tactic(auto)]

ghost use Rattle.std.specs.Prelude.{◌≡◌, ℕ, map, IfOk, Err};
ghost use Rattle.df_base.specs.declared.refusal.Refusal.{Refusal};
ghost use Rattle.df_base.specs.declared.refusal.Code.TheVariants as codes;
ghost use Rattle.df_base.specs.declared.refusal.Detail.TheVariants as details;
ghost use Rattle.df_base.specs.declared.refusal.Stop.TheVariants.{Refused};
ghost use Rattle.df_tok.specs.Token.{view};
ghost use Rattle.df_tree.specs.Tree.{Tree};
ghost use Rattle.df_tree.specs.Ast.{ast_of};
ghost use Rattle.df_tree.specs.Grammar.{IsPartAt};
ghost use Rattle.df_tree.specs.Spelling.{IsAstAt};
ghost use Rattle.df_tree.specs.declared.table.TheConstants as rows;

mod building;
mod height;
mod lookup;
mod reader;
mod text;

use df_base::{Global, Stop};
use df_tok::Tokens;
use df_tree::{Ast, EXPRESSION, PATTERN, TYPE};
use text::part;
pub use text::whole;

/// The expression that the tokens spell from token `start` on, counted from 0, as one syntax tree, and the number of the
/// token after it. It ends before the first token that cannot continue it: so `a && b` does before `||`, and goes on with
/// `==>`. `Stop::Refused` comes exactly where no expression of height at most 200 is spelled there that ends so: the syntax
/// is refused, at the token where reading stopped. `Stop::Memory` says that memory was refused.
pub fn expression(alloc: Global, tokens: &Tokens, start: usize) -> Result<(Ast, usize), Stop>
    ensures expression { IfOk result (λ x. IsAstAt rows.EXPRESSION (map view tokens.now.all.items) start x.1 (ast_of x.0)) }
    ensures refused { (r : Refusal) → result ≡ Err (Refused r) → (after : ℕ) (t : Tree) → IsPartAt rows.EXPRESSION (map view tokens.now.all.items) start after t → ⊥ }
    ensures syntax { (r : Refusal) → result ≡ Err (Refused r) → (r.code ≡ codes.Syntax) × (r.detail ≡ details.Nothing) }
{
    part(alloc, tokens, start, EXPRESSION)
}

/// The type that the tokens spell from token `start` on, likewise.
pub fn ty(alloc: Global, tokens: &Tokens, start: usize) -> Result<(Ast, usize), Stop>
    ensures ty { IfOk result (λ x. IsAstAt rows.TYPE (map view tokens.now.all.items) start x.1 (ast_of x.0)) }
    ensures refused { (r : Refusal) → result ≡ Err (Refused r) → (after : ℕ) (t : Tree) → IsPartAt rows.TYPE (map view tokens.now.all.items) start after t → ⊥ }
    ensures syntax { (r : Refusal) → result ≡ Err (Refused r) → (r.code ≡ codes.Syntax) × (r.detail ≡ details.Nothing) }
{
    part(alloc, tokens, start, TYPE)
}

/// The pattern that the tokens spell from token `start` on, likewise.
pub fn pattern(alloc: Global, tokens: &Tokens, start: usize) -> Result<(Ast, usize), Stop>
    ensures pattern { IfOk result (λ x. IsAstAt rows.PATTERN (map view tokens.now.all.items) start x.1 (ast_of x.0)) }
    ensures refused { (r : Refusal) → result ≡ Err (Refused r) → (after : ℕ) (t : Tree) → IsPartAt rows.PATTERN (map view tokens.now.all.items) start after t → ⊥ }
    ensures syntax { (r : Refusal) → result ≡ Err (Refused r) → (r.code ≡ codes.Syntax) × (r.detail ≡ details.Nothing) }
{
    part(alloc, tokens, start, PATTERN)
}
