//! Explanations: the literals behind bounds that refute a row, and the combinations of their rows that
//! show it.

use df_clauses::Literal;
use df_form::{Combination, Multiple};
use std::alloc::{AllocError, Global};
use std::collections::BTreeMap;
use std::mem::replace;

/// What a row of an explanation is that of.
#[derive(Clone, Copy)]
pub(crate) enum Source {
    /// The used row at this place.
    Literal(usize),
    /// The bound of this number.
    Bound(usize),
}

/// A row so many times.
#[derive(Clone, Copy)]
pub(crate) struct Member {
    pub factor: i128,
    pub source: Source,
}

/// A combination: rows, each so many times, and divided.
#[derive(Drop)]
struct Part {
    divisor: i128,
    members: Vec<Member>,
}

/// How a bound is derived.
#[derive(Drop)]
struct Derived {
    bound: usize,
    part: Part,
}

/// Which row of a literal is used: a comparison has one, and an equality has one for each way of `<=`.
#[derive(Clone, Copy)]
pub(crate) enum Row {
    Only,
    Up,
    Down,
}

impl Row {
    /// How many rows the literal has.
    fn count(self) -> usize {
        match self {
            Row::Only => 1,
            Row::Up | Row::Down => 2,
        }
    }

    /// Its place among these.
    fn place(self) -> usize {
        match self {
            Row::Only | Row::Up => 0,
            Row::Down => 1,
        }
    }
}

/// A row of a true literal, and by how much it is divided.
#[derive(Clone, Copy)]
pub(crate) struct Used {
    pub literal: Literal,
    pub row: Row,
    pub divisor: i128,
}

/// The number of a used row, and by how much it is divided.
#[derive(Clone, Copy)]
struct UsedRow {
    row: usize,
    divisor: i128,
}

/// A clause that arithmetic shows, and how.
#[derive(Drop)]
pub struct Explained {
    pub literals: Vec<Literal>,
    pub combinations: Vec<Combination>,
}

/// An explanation so far.
#[derive(Drop)]
pub(crate) struct Explanation {
    alloc: Global,
    used: Vec<UsedRow>,
    /// Where they stand, by their rows' numbers.
    places: BTreeMap<usize, usize>,
    literals: Vec<Literal>,
    /// By the codes of the literals, the numbers of their first rows.
    first_rows: BTreeMap<usize, usize>,
    /// How many rows the literals have.
    rows: usize,
    /// Bounds that are still to be derived, by their numbers, with constants that suffice.
    pub wanted: BTreeMap<usize, i128>,
    /// The derived ones, the latest first.
    derived: Vec<Derived>,
    /// The last combinations, whose sum is false.
    parts: Vec<Part>,
}

impl Explanation {
    pub fn new(alloc: Global) -> Explanation {
        Explanation {
            alloc,
            used: Vec::new(alloc),
            places: BTreeMap::new(alloc),
            literals: Vec::new(alloc),
            first_rows: BTreeMap::new(alloc),
            rows: 0,
            wanted: BTreeMap::new(alloc),
            derived: Vec::new(alloc),
            parts: Vec::new(alloc),
        }
    }

    /// The number of a literal's first row.
    fn first_row(&mut self, used: Used) -> Result<usize, AllocError> {
        let code = used.literal.code();
        if let Some(row) = self.first_rows.get(&code) {
            return Ok(*row);
        }
        let row = self.rows;
        self.rows = row.saturating_add(used.row.count());
        self.first_rows.insert(code, row)?;
        self.literals.push(used.literal.negation())?;
        Ok(row)
    }

    /// The place of a used row.
    pub fn literal(&mut self, used: Used) -> Result<usize, AllocError> {
        let row = self.first_row(used)?.saturating_add(used.row.place());
        if let Some(place) = self.places.get(&row) {
            return Ok(*place);
        }
        let place = self.used.len();
        self.used.push(UsedRow {
            row,
            divisor: used.divisor,
        })?;
        self.places.insert(row, place)?;
        Ok(place)
    }

    /// The bound is to be derived, with a constant of at most this.
    pub fn want(&mut self, bound: usize, constant: i128) -> Result<(), AllocError> {
        let least = match self.wanted.get(&bound) {
            Some(known) => constant.min(*known),
            None => constant,
        };
        self.wanted.insert(bound, least)?;
        Ok(())
    }

    /// The bound is derived so.
    pub fn derive(
        &mut self,
        bound: usize,
        divisor: i128,
        members: Vec<Member>,
    ) -> Result<(), AllocError> {
        let part = Part { divisor, members };
        self.derived.push(Derived { bound, part })?;
        Ok(())
    }

    /// One more of the last combinations.
    pub fn end(&mut self, divisor: i128, members: Vec<Member>) -> Result<(), AllocError> {
        self.parts.push(Part { divisor, members })?;
        Ok(())
    }

    /// The clause, and the combinations that show it. No literals are left.
    pub fn finish(&mut self) -> Result<Explained, AllocError> {
        let combinations = self.combinations()?;
        let none = Vec::new(self.alloc);
        Ok(Explained {
            literals: replace(&mut self.literals, none),
            combinations,
        })
    }

    fn combinations(&self) -> Result<Vec<Combination>, AllocError> {
        let mut numbering = Numbering::new(self.alloc, self.rows);
        for used in self.used.iter() {
            numbering.add_literal(*used)?;
        }
        for derived in self.derived.iter().rev() {
            numbering.add(&derived.part)?;
            numbering.name(derived.bound)?;
        }
        let first = numbering.next();
        for part in self.parts.iter() {
            numbering.add(part)?;
        }
        if self.parts.len() > 1 {
            numbering.add_sum(first)?;
        }
        Ok(numbering.combinations)
    }
}

/// Combinations so far, and the numbers of rows.
#[derive(Drop)]
struct Numbering {
    alloc: Global,
    /// How many rows the literals have.
    rows: usize,
    combinations: Vec<Combination>,
    /// By place, the row of a literal's bound.
    of_literal: Vec<usize>,
    of_bound: BTreeMap<usize, usize>,
}

impl Numbering {
    fn new(alloc: Global, rows: usize) -> Numbering {
        Numbering {
            alloc,
            rows,
            combinations: Vec::new(alloc),
            of_literal: Vec::new(alloc),
            of_bound: BTreeMap::new(alloc),
        }
    }

    /// The number of the next combination's row.
    fn next(&self) -> usize {
        self.rows.saturating_add(self.combinations.len())
    }

    /// The next used row, divided.
    fn add_literal(&mut self, used: UsedRow) -> Result<(), AllocError> {
        if used.divisor == 1 {
            self.of_literal.push(used.row)?;
            return Ok(());
        }
        let row = self.next();
        self.of_literal.push(row)?;
        let members = vec![in self.alloc;
            Multiple {
                factor: 1,
                row: used.row
            },
        ]?;
        self.combinations.push(Combination {
            divisor: used.divisor,
            members,
        })?;
        Ok(())
    }

    /// The row of the last combination is that of a bound.
    fn name(&mut self, bound: usize) -> Result<(), AllocError> {
        let row = self.next().saturating_sub(1);
        self.of_bound.insert(bound, row)?;
        Ok(())
    }

    fn row(&self, source: Source) -> usize {
        match source {
            Source::Literal(place) => self.of_literal.get(place).copied().unwrap_or(0),
            Source::Bound(bound) => self.of_bound.get(&bound).copied().unwrap_or(0),
        }
    }

    fn add(&mut self, part: &Part) -> Result<(), AllocError> {
        let mut members = Vec::with_capacity(self.alloc, part.members.len())?;
        for member in part.members.iter() {
            members.push(Multiple {
                factor: member.factor,
                row: self.row(member.source),
            })?;
        }
        self.combinations.push(Combination {
            divisor: part.divisor,
            members,
        })?;
        Ok(())
    }

    /// The sum of all rows from one on.
    fn add_sum(&mut self, first: usize) -> Result<(), AllocError> {
        let mut members = Vec::new(self.alloc);
        for row in first..self.next() {
            members.push(Multiple { factor: 1, row })?;
        }
        self.combinations.push(Combination {
            divisor: 1,
            members,
        })?;
        Ok(())
    }
}
