//! What is asked of an expression as a whole.

ghost use Rattle.df_ntree.specs.Expr as tree;
ghost use Rattle.df_ntexpr.specs.Parts.{typed_of, operand_of, Gives};
ghost use Rattle.df_ntyping.specs.mirror.Looking as looking;
ghost use Rattle.df_ntyping.specs.mirror.Looking.{look};
ghost use Rattle.df_ntyping.specs.mirror.Wanting.{wanted_in};
ghost use Rattle.df_ntexpr.specs.Asked.{wanted_of};

use crate::broken::{Halt, Rule, breach};
use crate::looking::{asked_broken, finished, given_broken, goes_to, look};
use crate::part::Typed;
use crate::signs::{is_truth_side, settled, type_of};
use df_base::Global;
use df_lang::Ty;
use df_nenv::Environment;
use df_nrules::pos_of;
use df_ntree::Expr;

/// What is asked of an expression as a whole.
#[derive(Clone, Copy, PartialEq, Eq)]
pub enum Wanted {
    /// That it is typed.
    Nothing,
    /// That it is a truth.
    Truth,
    /// That it goes to a place of the type.
    Place(Ty),
}

/// An expression that is given to a place.
fn given(alloc: Global, env: &Environment<'_>, place: Ty, e: &Expr) -> Result<Option<Typed>, Halt>
    ensures { Gives operand_of result (looking.given env.now (Some place) (tree.expr_of e.now) (look env.now (tree.expr_of e.now))) }
{
    match look(alloc, env, e) {
        Ok(operand) => {
            if goes_to(&operand, Some(place)) {
                Ok(operand)
            } else {
                drop(operand);
                Err(breach(Rule::Given, pos_of(e), true))
            }
        }
        Err(Halt::Broken(broken)) => Err(Halt::Broken(given_broken(env, Some(place), e, broken))),
        Err(Halt::Memory) => Err(Halt::Memory),
    }
}

/// A condition.
fn asked(alloc: Global, env: &Environment<'_>, e: &Expr) -> Result<Option<Typed>, Halt>
    ensures { Gives operand_of result (looking.asked env.now (tree.expr_of e.now) (look env.now (tree.expr_of e.now))) }
{
    match look(alloc, env, e) {
        Ok(operand) => {
            if is_truth_side(type_of(&operand)) {
                Ok(operand)
            } else {
                drop(operand);
                Err(breach(Rule::Truths, pos_of(e), true))
            }
        }
        Err(Halt::Broken(broken)) => Err(Halt::Broken(asked_broken(env, e, broken))),
        Err(Halt::Memory) => Err(Halt::Memory),
    }
}

/// The typed form of an expression of which this is asked. The least rule that it breaks is told.
pub(crate) fn wanted_in(
    alloc: Global,
    env: &Environment<'_>,
    wanted: Wanted,
    e: &Expr,
) -> Result<Typed, Halt>
    ensures { Gives typed_of result (wanted_in env.now (wanted_of wanted) (tree.expr_of e.now)) }
{
    match wanted {
        Wanted::Nothing => {
            let operand = look(alloc, env, e)?;
            let typed = finished(alloc, Ty::Int, e, operand)?;
            Ok(typed)
        }
        Wanted::Truth => {
            let operand = asked(alloc, env, e)?;
            let typed = finished(alloc, Ty::Int, e, operand)?;
            Ok(typed)
        }
        Wanted::Place(place) => {
            let operand = given(alloc, env, place, e)?;
            let expr = settled(alloc, place, e, operand)?;
            Ok(Typed { ty: place, expr })
        }
    }
}
