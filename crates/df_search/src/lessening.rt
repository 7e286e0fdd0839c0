//! Fewer facts for a line of linear arithmetic: those whose rows its combinations take. They are a proposal, which is
//! checked.

ghost use Rattle.std.specs.Prelude.{IfOk, OnOk, IfSome, map};
ghost use Rattle.df_form.specs.Log.{combination_of};
ghost use Rattle.df_trail.specs.Trail.{HasAll};
ghost use Rattle.df_search.specs.Lessening.{AddsOnly, IsLine, IsLess, IsOf};

use df_form::{Combination, Lit, Multiple, Over};
use df_row::{RowFault, is_linear, rows_of_literals};
use df_trail::negations;
use std::alloc::{AllocError, Global};
use std::collections::BTreeSet;

/// Facts, and combinations that refute their rows.
#[derive(Drop)]
pub(crate) struct Linear {
    pub(crate) facts: Vec<Lit>,
    pub(crate) combinations: Vec<Combination>,
}

/// How many rows the fact has.
fn row_count(alloc: Global, nodes: &Over, fact: Lit) -> Result<usize, AllocError> {
    match rows_of_literals(alloc, nodes, &[fact]) {
        Ok(rows) => Ok(rows.len()),
        Err(RowFault::Refused) => Ok(0),
        Err(RowFault::Memory) => Err(AllocError),
    }
}

/// Adds the rows that the combination takes.
fn add_rows(rows: &mut BTreeSet<usize>, combination: &Combination) -> Result<(), AllocError> {
    for member in &combination.members {
        rows.insert(member.row)?;
    }
    Ok(())
}

/// The rows that combinations take.
fn taken_rows(alloc: Global, combinations: &[Combination]) -> Result<BTreeSet<usize>, AllocError> {
    let mut rows = BTreeSet::new(alloc);
    for combination in combinations {
        add_rows(&mut rows, combination)?;
    }
    Ok(rows)
}

/// Whether one of so many rows from the start on is taken.
fn is_taken(rows: &BTreeSet<usize>, start: usize, count: usize) -> bool {
    for place in 0..count {
        if rows.contains(&start.saturating_add(place)) {
            return true;
        }
    }
    false
}

/// The new numbers of rows.
#[derive(Drop)]
struct Numbers {
    /// The new number of each row of a fact, where that is kept.
    numbers: Vec<Option<usize>>,
    /// How many rows the kept facts have.
    count: usize,
}

impl Numbers {
    /// Gives numbers to so many rows of a fact that is kept.
    fn keep(&mut self, count: usize) -> Result<(), AllocError> {
        for _place in 0..count {
            let number = self.count;
            self.numbers.push(Some(number))?;
            self.count = number.saturating_add(1);
        }
        Ok(())
    }

    /// Goes over so many rows of a fact that is not kept.
    fn skip(&mut self, count: usize) -> Result<(), AllocError> {
        for _place in 0..count {
            self.numbers.push(None)?;
        }
        Ok(())
    }

    /// The new number of a row: of a fact's, or of one that an earlier combination gives.
    fn renumbered(&self, row: usize) -> Option<usize> {
        match self.numbers.get(row) {
            Some(number) => *number,
            None => row.checked_sub(self.numbers.len())?.checked_add(self.count),
        }
    }

    /// The combination of the same rows by their new numbers, where all are kept.
    fn combination(
        &self,
        alloc: Global,
        combination: &Combination,
    ) -> Result<Option<Combination>, AllocError> {
        let mut members = Vec::new(alloc);
        for member in &combination.members {
            let Some(row) = self.renumbered(member.row) else {
                return Ok(None);
            };
            members.push(Multiple {
                factor: member.factor,
                row,
            })?;
        }
        Ok(Some(Combination {
            divisor: combination.divisor,
            members,
        }))
    }

    /// The combinations by their new numbers.
    fn combinations(
        &self,
        alloc: Global,
        combinations: &[Combination],
    ) -> Result<Option<Vec<Combination>>, AllocError> {
        let mut kept = Vec::new(alloc);
        for combination in combinations {
            let Some(combination) = self.combination(alloc, combination)? else {
                return Ok(None);
            };
            kept.push(combination)?;
        }
        Ok(Some(kept))
    }
}

/// Facts that are kept, and the new numbers of rows.
#[derive(Drop)]
struct Kept {
    facts: Vec<Lit>,
    rows: Numbers,
}

impl Kept {
    /// Goes on to a fact with so many rows. It is kept where one of them is taken.
    fn add(&mut self, taken: &BTreeSet<usize>, fact: Lit, count: usize) -> Result<(), AllocError>
        ensures { OnOk result (AddsOnly self.old.facts.items fact self.new.facts.items) }
    {
        if !is_taken(taken, self.rows.numbers.len(), count) {
            self.rows.skip(count)?;
            return Ok(());
        }
        self.rows.keep(count)?;
        self.facts.push(fact)?;
        Ok(())
    }

    /// The facts of which a row is taken.
    fn of(
        alloc: Global,
        nodes: &Over,
        facts: &[Lit],
        taken: &BTreeSet<usize>,
    ) -> Result<Kept, AllocError>
        ensures { IfOk result (λ kept. HasAll facts.now kept.facts.items) }
    {
        let mut kept = Kept {
            facts: Vec::new(alloc),
            rows: Numbers {
                numbers: Vec::new(alloc),
                count: 0,
            },
        };
        for fact in facts {
            let count = row_count(alloc, nodes, *fact)?;
            kept.add(taken, *fact, count)?;
        }
        Ok(kept)
    }
}

/// The facts whose rows are taken, with the combinations by their new numbers.
fn of_taken_rows(
    alloc: Global,
    nodes: &Over,
    facts: &[Lit],
    combinations: &[Combination],
) -> Result<Option<Linear>, AllocError>
    ensures { IfOk result (λ found. IfSome found (IsOf facts.now)) }
{
    let rows = taken_rows(alloc, combinations)?;
    let kept = Kept::of(alloc, nodes, facts, &rows)?;
    let Some(combinations) = kept.rows.combinations(alloc, combinations)? else {
        return Ok(None);
    };
    Ok(Some(Linear {
        facts: kept.facts,
        combinations,
    }))
}

/// The same, where these combinations are seen to refute the rows of these facts.
fn fewer(
    alloc: Global,
    nodes: &Over,
    facts: &[Lit],
    combinations: &[Combination],
) -> Result<Option<Linear>, AllocError>
    ensures { IfOk result (λ found. IfSome found (IsLine nodes.now facts.now)) }
{
    let Some(linear) = of_taken_rows(alloc, nodes, facts, combinations)? else {
        return Ok(None);
    };
    let conclusion = negations(alloc, &linear.facts)?;
    if is_linear(alloc, nodes, &conclusion, &linear.combinations)? {
        Ok(Some(linear))
    } else {
        Ok(None)
    }
}

/// Facts of those that are given, and combinations that refute their rows where the given ones do.
pub(crate) fn lessened(
    alloc: Global,
    nodes: &Over,
    facts: Vec<Lit>,
    combinations: Vec<Combination>,
) -> Result<Linear, AllocError>
    ensures { IfOk result (IsLess nodes.now facts.items (map combination_of combinations.items)) }
{
    match fewer(alloc, nodes, &facts, &combinations)? {
        Some(linear) => Ok(linear),
        None => Ok(Linear {
            facts,
            combinations,
        }),
    }
}
