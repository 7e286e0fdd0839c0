//! What types go together.

ghost use Rattle.std.specs.Prelude.{◌≡◌, Option};
ghost use Rattle.df_lang.specs.Newtype.{same_type};
ghost use Rattle.df_ntyping.specs.Types as types;
ghost use Rattle.df_ntyping.specs.Types.{is_integer, counted, casts, fits, fits_or_narrows, are_one_integer, literal_type};
ghost use Rattle.df_ntyping.specs.ExprTypes.{counted_of};
ghost use Rattle.df_ntyping.specs.rules.Comparisons.{are_ordered, one_fits};
ghost use Rattle.df_ntyping.specs.rules.Truths.{is_truth};

use df_lang::Ty;

pub fn same_type(left: Ty, right: Ty) -> bool
    ensures { result ≡ same_type left right }
{
    match (left, right) {
        (Ty::Newtype(a), Ty::Newtype(b)) => a == b,
        (Ty::Int, Ty::Int) => true,
        (Ty::Nat, Ty::Nat) => true,
        (Ty::Bool, Ty::Bool) => true,
        (Ty::Char, Ty::Char) => true,
        _ => false,
    }
}

/// Whether the type is a newtype, `int` or `nat`.
pub fn is_integer(ty: Ty) -> bool
    ensures { result ≡ is_integer ty }
{
    match ty {
        Ty::Bool | Ty::Char => false,
        Ty::Newtype(_) | Ty::Int | Ty::Nat => true,
    }
}

pub fn is_truth(ty: Ty) -> bool
    ensures { result ≡ is_truth ty }
{
    same_type(ty, Ty::Bool)
}

/// Where operands meet, `nat` counts as `int`.
pub fn counted(ty: Ty) -> Ty
    ensures { result ≡ counted ty }
{
    match ty {
        Ty::Nat => Ty::Int,
        Ty::Newtype(_) | Ty::Int | Ty::Bool | Ty::Char => ty,
    }
}

/// The same of a type that may not be known.
pub fn counted_of(ty: Option<Ty>) -> Option<Ty>
    ensures { result ≡ counted_of ty }
{
    match ty {
        Some(ty) => Some(counted(ty)),
        None => None,
    }
}

/// Whether values of the type are values of the other.
fn fits(source: Ty, target: Ty) -> bool
    ensures { result ≡ fits source target }
{
    match (source, target) {
        (Ty::Nat, Ty::Int) => true,
        _ => same_type(source, target),
    }
}

/// Whether values of the type may stand at a place of the other.
pub fn fits_or_narrows(source: Ty, target: Ty) -> bool
    ensures { result ≡ fits_or_narrows source target }
{
    match (source, target) {
        (Ty::Int, Ty::Nat) => true,
        _ => fits(source, target),
    }
}

/// Whether `as` goes between the types.
pub fn casts(source: Ty, target: Ty) -> bool
    ensures { result ≡ casts source target }
{
    match (source, target) {
        (Ty::Char, _) => is_integer(target),
        (_, Ty::Char) => is_integer(source),
        _ => is_integer(source) && is_integer(target),
    }
}

/// Whether the two are of one integer type.
pub fn are_one_integer(left: Ty, right: Ty) -> bool
    ensures { result ≡ are_one_integer left right }
{
    is_integer(left) && is_integer(right) && same_type(counted(left), counted(right))
}

/// Whether values of the two types have an order.
pub fn are_ordered(left: Ty, right: Ty) -> bool
    ensures { result ≡ are_ordered left right }
{
    match (left, right) {
        (Ty::Char, Ty::Char) => true,
        _ => are_one_integer(left, right),
    }
}

/// Whether one of the types fits the other.
pub fn one_fits(left: Ty, right: Ty) -> bool
    ensures { result ≡ one_fits left right }
{
    fits(left, right) || fits(right, left)
}

/// The type of a literal where a type is expected.
pub fn literal_type(expected: Option<Ty>) -> Ty
    ensures { result ≡ literal_type expected }
{
    match expected {
        Some(ty) if is_integer(ty) => ty,
        _ => Ty::Int,
    }
}
