//! Combinations that are kept of a list, by new numbers of rows.

ghost use Rattle.std.specs.Prelude.{◌≡◌, ℕ, ◌+◌, ◌≤◌, true, [], Some, length, map, slice_get, IfOk, IfSome, OnOk};
ghost use Rattle.df_form.specs.Log.{combination_of};
ghost use Rattle.df_form.specs.Log as pure;
ghost use Rattle.df_refutation.specs.Needed.{IsRenumberedWay, KeepsNumbers, KeepsOneMore, KeepsSome};

use crate::marks::is_marked;
use df_form::{Combination, Multiple};
use std::alloc::{AllocError, Global};

/// The numbers of the given rows, which stay.
fn own_numbers(alloc: Global, given: usize) -> Result<Vec<Option<usize>>, AllocError>
    ensures { IfOk result (λ numbers. KeepsNumbers given numbers.items) }
{
    let mut numbers = Vec::new(alloc);
    for number in 0..given {
        numbers.push(Some(number))?;
    }
    Ok(numbers)
}

/// The new number of a row, where it is kept.
fn number_at(numbers: &[Option<usize>], row: usize) -> Option<usize>
    ensures { IfSome result (λ number. slice_get numbers.now row ≡ Some (Some number)) }
{
    match numbers.get(row) {
        Some(number) => *number,
        None => None,
    }
}

/// The combination of the same rows by their new numbers. It is `None` where one of them is not kept.
pub(crate) fn renumbered(
    alloc: Global,
    numbers: &[Option<usize>],
    combination: &Combination,
) -> Result<Option<Combination>, AllocError>
    ensures { IfOk result (λ found. IfSome found (λ new. IsRenumberedWay numbers.now (combination_of combination.now) (combination_of new))) }
{
    let mut members = Vec::new(alloc);
    for member in &combination.members {
        let Some(row) = number_at(numbers, member.row) else {
            return Ok(None);
        };
        members.push(Multiple {
            factor: member.factor,
            row,
        })?;
    }
    Ok(Some(Combination {
        divisor: combination.divisor,
        members,
    }))
}

/// Combinations, and the new numbers of the rows that are kept: of the given ones, and of those that the
/// combinations give.
#[derive(Drop)]
pub(crate) struct Kept {
    pub combinations: Vec<Combination>,
    pub numbers: Vec<Option<usize>>,
}

impl Kept {
    fn new(alloc: Global, given: usize) -> Result<Kept, AllocError>
        ensures { IfOk result (λ kept. KeepsSome given [] (map combination_of kept.combinations.items) kept.numbers.items) }
    {
        Ok(Kept {
            combinations: Vec::new(alloc),
            numbers: own_numbers(alloc, given)?,
        })
    }

    /// Goes past a combination that is not kept.
    fn leave_out(&mut self) -> Result<(), AllocError>
        ensures { OnOk result ((given : ℕ) (combination : pure.Combination) → KeepsOneMore given combination (map combination_of self.old.combinations.items) (map combination_of self.new.combinations.items) self.old.numbers.items self.new.numbers.items) }
    {
        self.numbers.push(None)?;
        Ok(())
    }

    /// Keeps one more combination, unless a row of it is not kept.
    fn keep(
        &mut self,
        alloc: Global,
        given: usize,
        combination: &Combination,
    ) -> Result<bool, AllocError>
        requires { given + length self.old.combinations.items ≤ length self.old.numbers.items }
        ensures { IfOk result (λ all. all ≡ true → KeepsOneMore given (combination_of combination.now) (map combination_of self.old.combinations.items) (map combination_of self.new.combinations.items) self.old.numbers.items self.new.numbers.items) }
    {
        let Some(new) = renumbered(alloc, self.numbers.as_slice(), combination)? else {
            return Ok(false);
        };
        let number = given + self.combinations.len();
        self.combinations.push(new)?;
        self.numbers.push(Some(number))?;
        Ok(true)
    }

    /// Those of the combinations that are marked. It is `None` where a row of one of them is not kept.
    pub(crate) fn of(
        alloc: Global,
        given: usize,
        combinations: &[Combination],
        marks: &[bool],
    ) -> Result<Option<Kept>, AllocError>
        ensures { IfOk result (λ found. IfSome found (λ kept. KeepsSome given (map combination_of combinations.now) (map combination_of kept.combinations.items) kept.numbers.items)) }
    {
        let mut kept = Kept::new(alloc, given)?;
        for (number, combination) in combinations.iter().enumerate() {
            if !is_marked(marks, number) {
                kept.leave_out()?;
            } else if !kept.keep(alloc, given, combination)? {
                return Ok(None);
            }
        }
        Ok(Some(kept))
    }
}
