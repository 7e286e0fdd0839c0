//! Combinations of given rows and of the rows before each, by which a level refutes the given rows.

ghost use Rattle.std.specs.Prelude.{map, OnOk, IfOk};
ghost use Rattle.std.specs.Option.{option_map};
ghost use Rattle.df_form.specs.Log.{combination_of};
ghost use Rattle.df_level.specs.Levels.{rows_of, AreChained};
ghost use Rattle.df_refutation.specs.History.{ExtendsHistory, IsShifted, IsShiftedWay, TellsRefuted};

use crate::needs::needed;
use crate::way::way_of_one;
use df_form::{Combination, Multiple};
use df_level::{Level, Row};
use std::alloc::{AllocError, Global};

/// So many times the row that stands so much later. No row has a number past 64 bits.
fn moved(member: &Multiple, start: usize) -> Multiple
    ensures { IsShifted start member.now result }
{
    Multiple {
        factor: member.factor,
        row: member.row.saturating_add(start),
    }
}

/// The combination of rows that stand so much later.
fn shifted(alloc: Global, way: &Combination, start: usize) -> Result<Combination, AllocError>
    ensures { IfOk result (λ new. IsShiftedWay start (combination_of way.now) (combination_of new)) }
{
    let mut members = Vec::new(alloc);
    for member in &way.members {
        members.push(moved(member, start))?;
    }
    Ok(Combination {
        divisor: way.divisor,
        members,
    })
}

/// Adds combinations of rows that stand from the start on.
fn extend(
    alloc: Global,
    combinations: &mut Vec<Combination>,
    ways: &[Combination],
    start: usize,
) -> Result<(), AllocError>
    ensures { OnOk result (ExtendsHistory start (map combination_of ways.now) (map combination_of combinations.old.items) (map combination_of combinations.new.items)) }
{
    for way in ways {
        combinations.push(shifted(alloc, way, start)?)?;
    }
    Ok(())
}

/// The combinations by which the first level that has a row 0 <= c, for a c below 0, refutes the given
/// rows: each may take the given rows, numbered first, and the rows of the combinations before it. It is
/// `None` exactly where no level has such a row.
pub fn refutation(
    alloc: Global,
    given: &[Row],
    levels: &[Level],
) -> Result<Option<Vec<Combination>>, AllocError>
    requires { AreChained (rows_of given.now) levels.now }
    ensures { IfOk result (λ found. TellsRefuted (rows_of given.now) levels.now (option_map (λ combinations. map combination_of combinations.items) found)) }
{
    let mut combinations = Vec::new(alloc);
    let mut start = 0;
    for level in levels {
        let next = given.len() + combinations.len();
        extend(alloc, &mut combinations, level.ways(), start)?;
        if let Some(row) = level.false_row() {
            combinations.push(way_of_one(alloc, 1, next + row)?)?;
            return Ok(Some(combinations));
        }
        start = next;
    }
    Ok(None)
}

/// Combinations by which the first level that has a row 0 <= c, for a c below 0, refutes the given rows, as
/// `refutation` gives them, without those that the last one does not need. It is `None` exactly where no
/// level has such a row.
pub fn refuting(
    alloc: Global,
    given: &[Row],
    levels: &[Level],
) -> Result<Option<Vec<Combination>>, AllocError>
    requires { AreChained (rows_of given.now) levels.now }
    ensures { IfOk result (λ found. TellsRefuted (rows_of given.now) levels.now (option_map (λ combinations. map combination_of combinations.items) found)) }
{
    let Some(combinations) = refutation(alloc, given, levels)? else {
        return Ok(None);
    };
    let needed = needed(alloc, given.len(), combinations.as_slice())?;
    Ok(Some(needed))
}
