//! The templates of types.

ghost use Rattle.std.specs.Prelude.{◌≡◌, map, IfOk};
ghost use Rattle.std.specs.Option.{option_map};
ghost use Rattle.df_form.specs.World.{world_of};
ghost use Rattle.df_form.specs.Node.{test_of};
ghost use Rattle.df_form.specs.Clause.{yes, no};
ghost use Rattle.df_axiom.specs.Template.{need_of, template_of};
ghost use Rattle.df_axiom.specs.Types as spec;

use crate::templates::{Need, Piece, Source, Template, Test};
use df_form::{Lit, Op, Payload, Symbol, World};
use df_lang::{Interval, Ty};
use std::alloc::{AllocError, Global};

/// The named term, which is to be of the operation.
fn whole(op: Op) -> Piece
    ensures { result ≡ spec.whole op }
{
    Piece {
        source: Source::Named(0),
        test: Test::Of(op),
    }
}

/// Its part.
fn part() -> Piece
    ensures { result ≡ spec.part }
{
    Piece {
        source: Source::Part(0, 0),
        test: Test::Any,
    }
}

fn yes(place: usize) -> Lit
    ensures { result ≡ yes place }
{
    Lit {
        positive: true,
        node: place,
    }
}

fn no(place: usize) -> Lit
    ensures { result ≡ no place }
{
    Lit {
        positive: false,
        node: place,
    }
}

/// A template for an operation on one part: it is place 0, and the part is place 1.
fn of_one(
    alloc: Global,
    op: Op,
    needed: Vec<Need>,
    clause: Vec<Lit>,
) -> Result<Template, AllocError>
    ensures { IfOk result (λ template. template_of template ≡ spec.of_one op (map need_of needed.items) clause.items) }
{
    let pieces = vec![in alloc; whole(op), part()]?;
    Ok(Template {
        terms: 1,
        pieces,
        same: Vec::new(alloc),
        needed,
        clause,
    })
}

/// A clause on what it is to be of a type whose values are the numbers of an interval.
fn interval(
    alloc: Global,
    op: Op,
    interval: Interval,
    clause: u32,
) -> Result<Option<Template>, AllocError>
    ensures { IfOk result (λ found. option_map template_of found ≡ spec.interval_template op interval.low interval.high clause) }
{
    match clause {
        0 => {
            let needed = vec![in alloc; Need::Number(interval.low), Need::Two(Op::AtMost, 2, 1)]?;
            let clause = vec![in alloc; no(0), yes(3)]?;
            Ok(Some(of_one(alloc, op, needed, clause)?))
        }
        1 => {
            let needed = vec![in alloc; Need::Number(interval.high), Need::Two(Op::AtMost, 1, 2)]?;
            let clause = vec![in alloc; no(0), yes(3)]?;
            Ok(Some(of_one(alloc, op, needed, clause)?))
        }
        2 => {
            let needed = vec![in alloc;
                Need::Number(interval.low),
                Need::Two(Op::AtMost, 2, 1),
                Need::Number(interval.high),
                Need::Two(Op::AtMost, 1, 4),
            ]?;
            let clause = vec![in alloc; yes(0), no(3), no(5)]?;
            Ok(Some(of_one(alloc, op, needed, clause)?))
        }
        _ => Ok(None),
    }
}

/// A clause on what it is to be of a newtype, if there is one of this number.
fn of_newtype(
    alloc: Global,
    world: World,
    number: usize,
    clause: u32,
) -> Result<Option<Template>, AllocError>
    ensures { IfOk result (λ found. option_map template_of found ≡ spec.type_template (world_of world.entry) (Ty.Newtype number) clause) }
{
    match world.interval(number) {
        Some(ends) => interval(alloc, Op::test(Ty::Newtype(number)), ends, clause),
        None => Ok(None),
    }
}

/// A clause on what it is to be a `nat`.
fn natural(alloc: Global, clause: u32) -> Result<Option<Template>, AllocError>
    ensures { IfOk result (λ found. option_map template_of found ≡ spec.natural_template (test_of Ty.Nat) clause) }
{
    match clause {
        0 => {
            let needed = vec![in alloc; Need::Number(0), Need::Two(Op::AtMost, 2, 1)]?;
            let clause = vec![in alloc; no(0), yes(3)]?;
            Ok(Some(of_one(alloc, Op::test(Ty::Nat), needed, clause)?))
        }
        1 => {
            let needed = vec![in alloc; Need::Number(0), Need::Two(Op::AtMost, 2, 1)]?;
            let clause = vec![in alloc; yes(0), no(3)]?;
            Ok(Some(of_one(alloc, Op::test(Ty::Nat), needed, clause)?))
        }
        _ => Ok(None),
    }
}

/// The clause on a type that has all values of its sort.
fn always(alloc: Global, op: Op, clause: u32) -> Result<Option<Template>, AllocError>
    ensures { IfOk result (λ found. option_map template_of found ≡ spec.always_template op clause) }
{
    match clause {
        0 => {
            let clause = vec![in alloc; yes(0)]?;
            Ok(Some(of_one(alloc, op, Vec::new(alloc), clause)?))
        }
        _ => Ok(None),
    }
}

/// A clause on what it is to be of a type.
pub(crate) fn of_type(
    alloc: Global,
    world: World,
    op: Op,
    clause: u32,
) -> Result<Option<Template>, AllocError>
    ensures { IfOk result (λ found. option_map template_of found ≡ spec.types_template (world_of world.entry) op clause) }
{
    let Op::Of(Symbol::Is, Payload::Type(ty)) = op else {
        return Ok(None);
    };
    match ty {
        Ty::Newtype(number) => of_newtype(alloc, world, number, clause),
        Ty::Nat => natural(alloc, clause),
        Ty::Int => always(alloc, Op::test(Ty::Int), clause),
        Ty::Bool => always(alloc, Op::test(Ty::Bool), clause),
        Ty::Char => always(alloc, Op::test(Ty::Char), clause),
    }
}
