//! Combinations without those that the last one does not need.

ghost use Rattle.std.specs.Prelude.{◌≡◌, map, IfOk, IfSome};
ghost use Rattle.df_form.specs.Log.{combination_of};
ghost use Rattle.df_refutation.specs.Needed.{KeepsRefuting};

use crate::kept::{Kept, renumbered};
use crate::marks::needed_marks;
use df_form::Combination;
use std::alloc::{AllocError, Global};

/// The combinations that the last one needs, and that one. It is `None` where there is no last one, or one
/// of them takes a row that does not stand before it.
fn kept(
    alloc: Global,
    given: usize,
    combinations: &[Combination],
) -> Result<Option<Vec<Combination>>, AllocError>
    ensures { IfOk result (λ found. IfSome found (λ kept. KeepsRefuting given (map combination_of combinations.now) (map combination_of kept.items))) }
{
    let Some((last, others)) = combinations.split_last() else {
        return Ok(None);
    };
    let marks = needed_marks(alloc, given, others, last)?;
    let Some(mut kept) = Kept::of(alloc, given, others, &marks)? else {
        return Ok(None);
    };
    let Some(last) = renumbered(alloc, kept.numbers.as_slice(), last)? else {
        return Ok(None);
    };
    kept.combinations.push(last)?;
    Ok(Some(kept.combinations))
}

/// The same combination.
fn copy_of(alloc: Global, combination: &Combination) -> Result<Combination, AllocError>
    ensures { IfOk result (λ copy. combination_of copy ≡ combination_of combination.now) }
{
    Ok(Combination {
        divisor: combination.divisor,
        members: Vec::from_slice(alloc, combination.members.as_slice())?,
    })
}

/// The same combinations.
fn copies_of(alloc: Global, combinations: &[Combination]) -> Result<Vec<Combination>, AllocError>
    ensures { IfOk result (λ copies. map combination_of copies.items ≡ map combination_of combinations.now) }
{
    let mut copies = Vec::new(alloc);
    for combination in combinations {
        copies.push(copy_of(alloc, combination)?)?;
    }
    Ok(copies)
}

/// The combinations that the last one needs, directly or not, and that one, by new numbers of the rows
/// after the given ones. They refute what all do. Where one of them takes a row that does not stand before
/// it, so that they refute nothing, it is all of them.
pub fn needed(
    alloc: Global,
    given: usize,
    combinations: &[Combination],
) -> Result<Vec<Combination>, AllocError>
    ensures { IfOk result (λ needed. KeepsRefuting given (map combination_of combinations.now) (map combination_of needed.items)) }
{
    match kept(alloc, given, combinations)? {
        Some(kept) => Ok(kept),
        None => copies_of(alloc, combinations),
    }
}
