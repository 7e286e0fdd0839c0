//! Variables eliminated from rows, level after level.

ghost use Rattle.std.specs.Prelude.{◌≡◌, ◌∷◌, IfOk};
ghost use Rattle.df_level.specs.Levels.{rows_of, level_rows, IsFirstLevel, AreWays};
ghost use Rattle.df_elim.specs.Elimination.{low_after, last_rows, GivesElimination, GivesMore, TellsElimination, TellsNext};

use crate::variable::next_variable;
use df_level::{Level, LevelFault, ROW_LIMIT, Row};
use std::alloc::{AllocError, Global};

/// Levels of rows, each with a variable eliminated from the one before it.
#[derive(Drop)]
pub struct Levels {
    /// The nodes that are eliminated, in order.
    pub variables: Vec<usize>,
    pub first: Level,
    /// The level after each variable.
    pub others: Vec<Level>,
}

/// What comes of rows, when their variables are eliminated.
#[derive(Drop)]
pub enum Elimination {
    /// The last of these levels, in order from the first one, has a row 0 <= c for a c below 0.
    Refuted(Vec<Level>),
    /// All variables are eliminated, and no level has such a row.
    Open(Levels),
    /// A number on the way is past 128 bits.
    Wide,
    /// A level comes to so many rows.
    Many(u64),
}

/// What comes after a level.
#[derive(Clone, Copy)]
enum Next {
    Refuted,
    Variable(usize),
    End,
}

/// What comes after the level, from which the nodes up to the last one are eliminated.
fn next_after(level: &Level, last: Option<usize>) -> Next
    ensures { TellsNext (low_after last) (level_rows level.now) result }
{
    if level.has_false() {
        return Next::Refuted;
    }
    match next_variable(level.rows(), last) {
        Some(node) => Next::Variable(node),
        None => Next::End,
    }
}

impl Levels {
    /// The last level.
    fn last(&self) -> &Level
        ensures { level_rows result.now ≡ last_rows self.now }
    {
        match self.others.last() {
            Some(level) => level,
            None => &self.first,
        }
    }

    /// Eliminates the node from the last level.
    fn eliminate(&mut self, alloc: Global, node: usize) -> Result<(), LevelFault>
        ensures { GivesMore node self.old self.new result }
    {
        let level = self.last().next(alloc, node)?;
        self.variables.push(node)?;
        self.others.push(level)?;
        Ok(())
    }

    /// All levels, from the first one on.
    fn into_all(self) -> Result<Vec<Level>, AllocError>
        ensures { IfOk result (λ levels. levels.items ≡ self.first ∷ self.others.items) }
    {
        let mut levels = self.others;
        levels.insert(0, self.first)?;
        Ok(levels)
    }
}

/// Eliminates the variables, where no number on the way is too wide and no level comes to the limit of rows.
fn elimination_of(alloc: Global, rows: &[Row]) -> Result<Elimination, LevelFault>
    ensures { GivesElimination (rows_of rows.now) result }
{
    let first = Level::first(alloc, rows)?;
    let mut levels = Levels {
        variables: Vec::new(alloc),
        first,
        others: Vec::new(alloc),
    };
    let mut last = None;
    loop {
        match next_after(levels.last(), last) {
            Next::Refuted => return Ok(Elimination::Refuted(levels.into_all()?)),
            Next::End => return Ok(Elimination::Open(levels)),
            Next::Variable(node) => {
                levels.eliminate(alloc, node)?;
                last = Some(node);
            }
        }
    }
}

/// Eliminates the variables of the rows in order of nodes, until a level has a row 0 <= c for a c
/// below 0, or no variable is left. It gives up as soon as a level that grows has the limit of rows, or a
/// number on the way to its next row is past 128 bits, whatever other rows the level has.
pub fn eliminate(alloc: Global, rows: &[Row]) -> Result<Elimination, AllocError>
    ensures { IfOk result (λ answer. TellsElimination (rows_of rows.now) answer) }
{
    match elimination_of(alloc, rows) {
        Ok(answer) => Ok(answer),
        Err(LevelFault::Wide) => Ok(Elimination::Wide),
        Err(LevelFault::Many) => Ok(Elimination::Many(ROW_LIMIT as u64)),
        Err(LevelFault::Memory) => Err(AllocError),
    }
}
