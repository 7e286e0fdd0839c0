//! Typing of expressions: the type and the typed expression of a source expression, or the least rule that it
//! breaks.
#![tactic(auto)]

ghost use Rattle.std.specs.Prelude.{IfOk, IfErr};
ghost use Rattle.df_lang.specs.ExprView as typed;
ghost use Rattle.df_ntree.specs.Expr.{expr_of};
ghost use Rattle.df_ntyping.specs.Literals.{IsReadExpr};
ghost use Rattle.df_ntyping.specs.ExprNodes.{expr_nodes};
ghost use Rattle.df_ntyping.specs.Laws.{HasTypes};
ghost use Rattle.df_ntyping.specs.Least.{IsTold, BreaksNoneIn};
ghost use Rattle.df_ntyping.specs.Wanted.{IsWanted, wanted_nodes};
ghost use Rattle.df_base.specs.Refusing.{IfRefused};
ghost use Rattle.df_ntyping.specs.mirror.Wanting.{wanted_in};
ghost use Rattle.df_ntexpr.specs.Asked.{wanted_of};
ghost use Rattle.df_ntexpr.specs.Parts.{typed_of};
ghost use Rattle.df_ntexpr.specs.Replies.{told, Replies};

mod asked;
mod broken;
mod literals;
mod looking;
mod part;
mod runs;
mod signs;

pub use asked::Wanted;
use broken::Halt;
use df_base::{Global, Stop};
use df_nenv::Environment;
use df_ntree::Expr;
pub use looking::{argument_count, place_at};
pub use part::Typed;

/// The type and the typed expression of an expression: at a place it is converted to its type. The least rule
/// that it breaks is told.
pub fn typed(alloc: Global, env: &Environment<'_>, wanted: Wanted, e: &Expr) -> Result<Typed, Stop>
    requires grammar { IsReadExpr (expr_of e.now) }
    requires names { BreaksNoneIn 0 (expr_nodes env.now 0 (expr_of e.now)) }
    requires types { HasTypes env.now (expr_of e.now) }
    ensures typed { IfOk result (λ t. IsWanted env.now (wanted_of wanted) (expr_of e.now) t.ty (typed.expr_of t.expr)) }
    ensures refused { IfErr result (IfRefused (IsTold (wanted_nodes env.now 0 (wanted_of wanted) (expr_of e.now)))) }
{
    match asked::wanted_in(alloc, env, wanted, e) {
        Ok(typed) => Ok(typed),
        Err(Halt::Broken(broken)) => Err(Stop::Refused(broken.refusal())),
        Err(Halt::Memory) => Err(Stop::Memory),
    }
}

/// The same of an expression of which nothing is known: what the walk over it answers.
pub fn walked(alloc: Global, env: &Environment<'_>, wanted: Wanted, e: &Expr) -> Result<Typed, Stop>
    ensures { Replies typed_of result (told (wanted_in env.now (wanted_of wanted) (expr_of e.now))) }
{
    match asked::wanted_in(alloc, env, wanted, e) {
        Ok(typed) => Ok(typed),
        Err(Halt::Broken(broken)) => Err(Stop::Refused(broken.refusal())),
        Err(Halt::Memory) => Err(Stop::Memory),
    }
}
