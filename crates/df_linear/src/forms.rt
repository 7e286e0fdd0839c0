//! Linear forms: what nodes are as sums of multiples of columns. A column is a number that is no sum
//! and no multiple, or a sum of such numbers whose coefficients have no common divisor.

use df_index::{Shape, Terms};
use df_simplex::{Entry, Linear, Side, combine, content, divided, weighted};
use indexmap::IndexSet;
use std::alloc::{AllocError, Global};
use std::collections::HashMap;

/// A sum that is a column of its own.
#[derive(Drop, PartialEq, Eq, Hash)]
struct Form {
    entries: Vec<Entry>,
}

/// What stands behind a column.
#[derive(Clone, Copy)]
pub enum Column {
    Node(usize),
    /// The form of this number.
    Form(usize),
    /// The form of this number, which no comparison made.
    Cut(usize),
}

/// What makes a form a column.
#[derive(Clone, Copy)]
pub enum Maker {
    Comparison,
    Cut,
}

/// What a comparison says of a column: it is true where the column has a bound on the side, and false
/// where it has one on the other side.
#[derive(Clone, Copy)]
pub struct Atom {
    pub column: usize,
    pub side: Side,
    pub if_true: i128,
    pub if_false: i128,
    /// By how much the row of the comparison is divided to be that of the bound.
    pub divisor: i128,
}

impl Atom {
    /// The side and the constant of the bound that the atom gives, or its negation.
    pub fn bound(&self, positive: bool) -> (Side, i128) {
        if positive {
            (self.side, self.if_true)
        } else {
            (self.side.opposite(), self.if_false)
        }
    }
}

/// What a formula says to arithmetic.
#[derive(Clone, Copy)]
pub enum Meaning {
    Nothing,
    Constant(bool),
    Atom(Atom),
}

/// The most entries that all linear forms may have.
const ROOM: usize = 1_000_000;

/// The columns so far, and what nodes are in terms of them.
#[derive(Drop)]
pub struct Forms {
    alloc: Global,
    columns: Vec<Column>,
    linears: Vec<Linear>,
    /// By node.
    linear_of: HashMap<usize, usize>,
    forms: IndexSet<Form>,
    /// By form.
    column_of: Vec<usize>,
    room: usize,
}

impl Forms {
    pub fn new(alloc: Global) -> Forms {
        Forms {
            alloc,
            columns: Vec::new(alloc),
            linears: Vec::new(alloc),
            linear_of: HashMap::new(alloc),
            forms: IndexSet::new(alloc),
            column_of: Vec::new(alloc),
            room: ROOM,
        }
    }

    pub fn len(&self) -> usize {
        self.columns.len()
    }

    /// Whether linear forms have half of the entries that they may have.
    pub fn are_half_full(&self) -> bool {
        self.room < ROOM / 2
    }

    pub fn column(&self, column: usize) -> Option<Column> {
        self.columns.get(column).copied()
    }

    /// The entries of a column that is a form which a comparison made.
    pub fn entries(&self, column: usize) -> Option<&[Entry]> {
        match self.column(column)? {
            Column::Node(_) | Column::Cut(_) => None,
            Column::Form(form) => Some(self.forms.get_index(form)?.entries.as_slice()),
        }
    }

    /// The entries of a column that is a form.
    pub fn members(&self, column: usize) -> Option<&[Entry]> {
        match self.column(column)? {
            Column::Node(_) => None,
            Column::Form(form) | Column::Cut(form) => {
                Some(self.forms.get_index(form)?.entries.as_slice())
            }
        }
    }

    /// The node of a column that is no form.
    pub fn node(&self, column: usize) -> Option<usize> {
        match self.column(column)? {
            Column::Node(node) => Some(node),
            Column::Form(_) | Column::Cut(_) => None,
        }
    }

    /// What a number is as a sum of multiples of columns, where that is known.
    pub fn linear(&self, node: usize) -> Option<&Linear> {
        let place = self.linear_of.get(&node)?;
        self.linears.get(*place)
    }

    fn is_known(&self, node: usize) -> bool {
        self.linear_of.contains_key(&node)
    }

    /// A node whose linear form is needed first, and is not known yet: a part, or at once what is left of the node
    /// without all numbers that it adds.
    fn unknown_part(&self, terms: &Terms, node: usize) -> Option<usize> {
        match terms.offset(node).base {
            None => return None,
            Some(base) if base == node => {}
            Some(base) if self.is_known(base) => return None,
            Some(base) => return Some(base),
        }
        match terms.shape(node) {
            Shape::Sum(a, _) if !self.is_known(a) => Some(a),
            Shape::Sum(_, b) | Shape::Multiple(_, b) if !self.is_known(b) => Some(b),
            _ => None,
        }
    }

    /// Has the linear form of a number known, and those of its parts. Whether it could.
    pub fn expand(&mut self, terms: &Terms, node: usize) -> Result<bool, AllocError> {
        let mut waiting = vec![in self.alloc; node]?;
        for _ in 0..terms.len().saturating_mul(4) {
            let Some(top) = waiting.last().copied() else {
                break;
            };
            if self.is_known(top) {
                let _ = waiting.pop();
            } else if let Some(part) = self.unknown_part(terms, top) {
                waiting.push(part)?;
            } else if !self.define(terms, top)? {
                return Ok(false);
            }
        }
        Ok(self.is_known(node))
    }

    /// The linear form of a node and a number more.
    fn shifted(&self, base: usize, constant: i128) -> Result<Option<Linear>, AllocError> {
        let Some(linear) = self.linear(base) else {
            return Ok(None);
        };
        let Some(constant) = linear.constant.checked_add(constant) else {
            return Ok(None);
        };
        Ok(Some(Linear {
            entries: Vec::from_slice(self.alloc, linear.entries.as_slice())?,
            constant,
        }))
    }

    /// Makes the linear form of a node from those that it needs. Whether it could.
    fn define(&mut self, terms: &Terms, node: usize) -> Result<bool, AllocError> {
        let offset = terms.offset(node);
        let linear = match offset.base {
            None => Some(Linear {
                entries: Vec::new(self.alloc),
                constant: offset.constant,
            }),
            Some(base) if base != node => self.shifted(base, offset.constant)?,
            Some(_) => self.of_parts(terms, node)?,
        };
        match linear {
            Some(linear) => self.store(node, linear),
            None => Ok(false),
        }
    }

    /// The linear form of a node, from those of its parts.
    fn of_parts(&mut self, terms: &Terms, node: usize) -> Result<Option<Linear>, AllocError> {
        Ok(match terms.shape(node) {
            Shape::Number(number) => Some(Linear {
                entries: Vec::new(self.alloc),
                constant: number,
            }),
            Shape::Sum(a, b) => self.weighted(1, a, 1, b)?,
            Shape::Multiple(factor, b) => self.weighted(factor, b, 0, b)?,
            _ => Some(self.unknown(node)?),
        })
    }

    fn store(&mut self, node: usize, linear: Linear) -> Result<bool, AllocError> {
        let Some(room) = self.room.checked_sub(linear.entries.len()) else {
            return Ok(false);
        };
        self.room = room;
        let place = self.linears.len();
        self.linears.push(linear)?;
        self.linear_of.insert(node, place)?;
        Ok(true)
    }

    /// A number that is a column.
    fn unknown(&mut self, node: usize) -> Result<Linear, AllocError> {
        let column = self.columns.len();
        self.columns.push(Column::Node(node))?;
        let entry = Entry {
            column,
            coefficient: 1,
        };
        Ok(Linear {
            entries: vec![in self.alloc; entry]?,
            constant: 0,
        })
    }

    /// f times a node and g times another.
    fn weighted(&self, f: i128, a: usize, g: i128, b: usize) -> Result<Option<Linear>, AllocError> {
        let (Some(left), Some(right)) = (self.linear(a), self.linear(b)) else {
            return Ok(None);
        };
        let Some(constant) = weighted(f, left.constant, g, right.constant) else {
            return Ok(None);
        };
        let entries = combine(
            self.alloc,
            f,
            left.entries.as_slice(),
            g,
            right.entries.as_slice(),
        )?;
        match entries {
            Some(entries) => Ok(Some(Linear { entries, constant })),
            None => Ok(None),
        }
    }

    /// The column of entries whose coefficients have no common divisor, the first one above 0.
    pub fn column_of_entries(
        &mut self,
        entries: Vec<Entry>,
        maker: Maker,
    ) -> Result<usize, AllocError> {
        if let [entry] = entries.as_slice() {
            return Ok(entry.column);
        }
        let count = self.forms.len();
        let (form, _) = self.forms.insert_full(Form { entries })?;
        if form < count {
            return Ok(self.column_of.get(form).copied().unwrap_or(0));
        }
        let column = self.columns.len();
        let made = match maker {
            Maker::Comparison => Column::Form(form),
            Maker::Cut => Column::Cut(form),
        };
        self.columns.push(made)?;
        self.column_of.push(column)?;
        Ok(column)
    }

    /// The column of a sum, and how many times the sum is that column, where there is one.
    pub fn find(&self, sum: &[Entry]) -> Result<Option<Entry>, AllocError> {
        let (Some(first), Some(divisor)) = (sum.first(), content(0, sum)) else {
            return Ok(None);
        };
        let signed = if first.coefficient < 0 {
            divisor.checked_neg().unwrap_or(1)
        } else {
            divisor
        };
        let Some(entries) = divided(self.alloc, sum, signed)? else {
            return Ok(None);
        };
        match self.known_column(entries) {
            Some(column) => Ok(Some(Entry {
                column,
                coefficient: signed,
            })),
            None => Ok(None),
        }
    }

    /// The column of entries whose coefficients have no common divisor, the first one above 0.
    fn known_column(&self, entries: Vec<Entry>) -> Option<usize> {
        if let [entry] = entries.as_slice() {
            return Some(entry.column);
        }
        let form = self.forms.get_index_of(&Form { entries })?;
        self.column_of.get(form).copied()
    }

    /// What `a <= b` says.
    pub fn comparison(&mut self, terms: &Terms, a: usize, b: usize) -> Result<Meaning, AllocError> {
        if !self.expand(terms, a)? || !self.expand(terms, b)? {
            return Ok(Meaning::Nothing);
        }
        match self.weighted(1, b, -1, a)? {
            Some(difference) => self.meaning(&difference),
            None => Ok(Meaning::Nothing),
        }
    }

    /// What it says that the sum is at least 0.
    fn meaning(&mut self, sum: &Linear) -> Result<Meaning, AllocError> {
        let Some(first) = sum.entries.first().copied() else {
            return Ok(Meaning::Constant(0 <= sum.constant));
        };
        let Some(divisor) = content(0, &sum.entries) else {
            return Ok(Meaning::Nothing);
        };
        let signed = if first.coefficient < 0 {
            divisor.checked_neg().unwrap_or(0)
        } else {
            divisor
        };
        let Some(entries) = divided(self.alloc, &sum.entries, signed)? else {
            return Ok(Meaning::Nothing);
        };
        let column = self.column_of_entries(entries, Maker::Comparison)?;
        Ok(atom_of(column, first.coefficient < 0, divisor, sum.constant))
    }
}

/// What it says that divisor times the column, or times its negation, and a constant is at least 0.
fn atom_of(column: usize, is_negated: bool, divisor: i128, constant: i128) -> Meaning {
    let below = constant.checked_neg().and_then(|k| k.checked_sub(1));
    let (Some(if_true), Some(if_false)) = (
        constant.checked_div_euclid(divisor),
        below.and_then(|k| k.checked_div_euclid(divisor)),
    ) else {
        return Meaning::Nothing;
    };
    let side = if is_negated { Side::Upper } else { Side::Lower };
    Meaning::Atom(Atom {
        column,
        side,
        if_true,
        if_false,
        divisor,
    })
}
