//! The parser of expressions and types, by recursive descent with lookahead: reads those that tokens spell.
#![tactic(auto)]

ghost use Rattle.std.specs.Prelude.{◌≡◌, ℕ, map, IfOk};
ghost use Rattle.df_base.specs.declared.refusal.Refusal.{Refusal};
ghost use Rattle.df_base.specs.declared.refusal.Code.TheVariants as codes;
ghost use Rattle.df_base.specs.declared.refusal.Detail.TheVariants as details;
ghost use Rattle.df_tok.specs.Token.{view};
ghost use Rattle.df_ntree.specs.Expr as pure;
ghost use Rattle.df_ntree.specs.Expr.{expr_of};
ghost use Rattle.df_ntree.specs.declared.expr.TreeType.{TreeType};
ghost use Rattle.df_ntree.specs.ExprSpelling.{IsExpressionAt, IsTypeAt};
ghost use Rattle.df_ntree.specs.mirror.ExprReading.{expression_at, expressions_at};
ghost use Rattle.df_npexpr.specs.Reads.{Reads};
ghost use Rattle.df_npexpr.specs.Rest.{rest_of};

mod cursor;
mod levels;
mod nodes;
mod operators;
mod part;
mod types;

pub use cursor::{Cursor, begins_with_word, syntax};
use df_base::{Global, Stop};
use df_ntree::{Expr, Level, TreeType};
use df_tok::Tokens;

/// How many statements, blocks, types and expressions may stand inside one another.
pub const HEIGHT_LIMIT: usize = 200;

impl Cursor<'_, '_> {
    /// Takes an expression of at most the height `room`, up to a token that does not continue it.
    #[tactic(auto, unfolding(df_ntree::specs::mirror::ExprReading::expression_at))]
    pub fn expression(&mut self, alloc: Global, room: usize) -> Result<Expr, Stop>
        ensures { Reads (λ x. (expr_of x, rest_of self.new)) result (expression_at room (rest_of self.old)) }
    {
        Ok(self.level(alloc, room, Level::Equivalence)?.tree)
    }

    /// Takes expressions of the level with commas between them, at least one, of at most the height
    /// `room`.
    #[tactic(auto, unfolding(df_ntree::specs::mirror::ExprReading::expressions_at))]
    pub fn expressions(
        &mut self,
        alloc: Global,
        room: usize,
        level: Level,
    ) -> Result<Vec<Expr>, Stop>
        ensures { Reads (λ x. (map expr_of x.items, rest_of self.new)) result (expressions_at room level (rest_of self.old)) }
    {
        Ok(self.parts(alloc, room, level)?.trees)
    }
}

/// The expression that the tokens spell from token `start` on, counted from 0, and the token after
/// it. Its height is how many expressions and types stand inside one another; operands of one level
/// and arguments are siblings, however many. It ends before the first token that cannot continue it:
/// so `a && b` does before `||`, and goes on with `==>`. `Stop::Refused` comes exactly where no
/// expression of height at most 200 is spelled there that ends so: the syntax is refused, at the
/// token where reading stopped. `Stop::Memory` says that memory was refused.
pub fn expression(alloc: Global, tokens: &Tokens, start: usize) -> Result<(Expr, usize), Stop>
    ensures expression { IfOk result (λ x. IsExpressionAt (map view tokens.now.all.items) start (expr_of x.0) x.1) }
    ensures refused { (r : Refusal) → result ≡ Err (Stop.Refused r) → (e : pure.Expr) (after : ℕ) → IsExpressionAt (map view tokens.now.all.items) start e after → ⊥ }
    ensures syntax { (r : Refusal) → result ≡ Err (Stop.Refused r) → (r.code ≡ codes.Syntax) × (r.detail ≡ details.Nothing) }
{
    let all = tokens.all.as_slice();
    let mut cursor = Cursor::new(all, start);
    let tree = cursor.expression(alloc, HEIGHT_LIMIT)?;
    Ok((tree, all.len() - cursor.len()))
}

/// The type that the tokens spell from token `start` on, counted from 0, and the token after it.
/// Where there is none, the syntax is refused, at the token where reading stopped.
pub fn ty(_alloc: Global, tokens: &Tokens, start: usize) -> Result<(TreeType, usize), Stop>
    ensures ty { IfOk result (λ x. IsTypeAt (map view tokens.now.all.items) start x.0 x.1) }
    ensures refused { (r : Refusal) → result ≡ Err (Stop.Refused r) → (ty : TreeType) (after : ℕ) → IsTypeAt (map view tokens.now.all.items) start ty after → ⊥ }
    ensures syntax { (r : Refusal) → result ≡ Err (Stop.Refused r) → (r.code ≡ codes.Syntax) × (r.detail ≡ details.Nothing) }
{
    let all = tokens.all.as_slice();
    let mut cursor = Cursor::new(all, start);
    let ty = cursor.ty()?;
    Ok((ty, all.len() - cursor.len()))
}
