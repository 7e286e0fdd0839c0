//! Exact sums of multiples of nodes, from which rows are made.

ghost use Rattle.std.specs.Prelude.{◌≡◌, ◌+ℤ◌, ℕ, slice_get, length, IfOk};
ghost use Rattle.df_integer.specs.Integer.{value};
ghost use Rattle.df_row.specs.Row.{without, with_more, with_constant, constant_row, literal_number, expanded_at, expanded_below, expanded_difference, narrow_row};
ghost use Rattle.df_row.specs.RowView.{row_of, Finds, IsWithin, IsLastBelow, term_of, with_base, with_offset};
ghost use Rattle.df_row.specs.ExpansionView.{expansion_of};

use crate::row::{Row, RowFault, are_table};
use df_form::{NodeTable, Offset, Op, Over};
use df_integer::Integer;
use std::alloc::{AllocError, Global};
use std::collections::BTreeMap;

/// What a node stands for in a row.
#[derive(Clone, Copy, PartialEq, Eq)]
enum Term {
    Literal(i128),
    Sum(usize, usize),
    /// So many times another node.
    Multiple(i128, usize),
    Atom,
}

/// The number of a literal.
fn literal(nodes: &Over, node: usize) -> Option<i128>
    ensures { result ≡ literal_number (slice_get nodes.now node) }
{
    match nodes.get(node)?.op {
        Op::Number(k) => Some(k),
        _ => None,
    }
}

fn term_at(nodes: &Over, node: usize) -> Term
    ensures { result ≡ term_of nodes.now (slice_get nodes.now node) }
{
    let Some(found) = nodes.get(node) else {
        return Term::Atom;
    };
    match (found.op, found.parts.as_slice()) {
        (Op::Number(k), _) => Term::Literal(k),
        (Op::Plus, [a, b]) => Term::Sum(*a, *b),
        (Op::Times, [a, b]) => match literal(nodes, *a) {
            Some(k) => Term::Multiple(k, *b),
            None => Term::Atom,
        },
        _ => Term::Atom,
    }
}

/// A sum of multiples of nodes, and a constant. Its numbers are of any size.
#[derive(Drop)]
pub(crate) struct Expansion {
    coefficients: BTreeMap<usize, Integer>,
    constant: Integer,
}

impl Expansion {
    fn of_constant(alloc: Global, constant: i128) -> Expansion
        ensures { expansion_of result ≡ constant_row constant }
    {
        Expansion {
            coefficients: BTreeMap::new(alloc),
            constant: Integer::of(constant),
        }
    }

    /// Takes a node out, and tells its coefficient.
    fn take(&mut self, node: usize) -> Integer
        ensures coefficient { value result ≡ (expansion_of self.old).coefficient node }
        ensures after { expansion_of self.new ≡ without node (expansion_of self.old) }
    {
        match self.coefficients.remove(&node) {
            Some(coefficient) => coefficient,
            None => Integer::of(0),
        }
    }

    /// The coefficient of a node, and so many more.
    fn raised(&self, alloc: Global, node: usize, more: &Integer) -> Result<Integer, AllocError>
        ensures { IfOk result (λ sum. value sum ≡ (expansion_of self.now).coefficient node +ℤ value more.now) }
    {
        match self.coefficients.get(&node) {
            Some(coefficient) => coefficient.sum(alloc, more),
            None => Integer::of(0).sum(alloc, more),
        }
    }

    /// So many times the node more.
    fn add(&mut self, alloc: Global, node: usize, more: &Integer) -> Result<(), AllocError>
        ensures { IfOk result (λ _. expansion_of self.new ≡ with_more node (value more.now) (expansion_of self.old)) }
    {
        let sum = self.raised(alloc, node, more)?;
        self.coefficients.insert(node, sum)?;
        Ok(())
    }

    /// And so many more.
    fn add_constant(&mut self, alloc: Global, more: &Integer) -> Result<(), AllocError>
        ensures { IfOk result (λ _. expansion_of self.new ≡ with_constant (value more.now) (expansion_of self.old)) }
    {
        self.constant = self.constant.sum(alloc, more)?;
        Ok(())
    }

    /// So many times the base more, if there is one.
    fn add_base(
        &mut self,
        alloc: Global,
        base: Option<usize>,
        more: &Integer,
    ) -> Result<(), AllocError>
        ensures { IfOk result (λ _. expansion_of self.new ≡ with_base base (value more.now) (expansion_of self.old)) }
    {
        match base {
            Some(node) => self.add(alloc, node, more),
            None => Ok(()),
        }
    }

    /// So many times the node more, by its base and its constant.
    fn add_offset(&mut self, alloc: Global, offset: Offset, times: i128) -> Result<(), AllocError>
        ensures { IfOk result (λ _. expansion_of self.new ≡ with_offset offset times (expansion_of self.old)) }
    {
        let times = Integer::of(times);
        self.add_base(alloc, offset.base, &times)?;
        let more = times.product(alloc, offset.constant)?;
        self.add_constant(alloc, &more)
    }

    /// Puts what a node stands for in its place.
    fn expand_at(&mut self, alloc: Global, nodes: &Over, node: usize) -> Result<(), AllocError>
        ensures { IfOk result (λ _. expansion_of self.new ≡ expanded_at nodes.now node (slice_get nodes.now node) (expansion_of self.old)) }
    {
        match term_at(nodes, node) {
            Term::Literal(k) => {
                let more = self.take(node).product(alloc, k)?;
                self.add_constant(alloc, &more)
            }
            Term::Sum(a, b) => {
                let coefficient = self.take(node);
                self.add(alloc, a, &coefficient)?;
                self.add(alloc, b, &coefficient)
            }
            Term::Multiple(k, b) => {
                let more = self.take(node).product(alloc, k)?;
                self.add(alloc, b, &more)
            }
            Term::Atom => Ok(()),
        }
    }

    /// The last node below the bound that has an entry.
    fn last_below(&self, bound: usize) -> Option<usize>
        ensures { IsLastBelow bound (expansion_of self.now) result }
    {
        match self.coefficients.range(..bound).next_back() {
            Some((node, _)) => Some(*node),
            None => None,
        }
    }

    /// Makes literals part of the constant, and puts their parts in the place of sums and of literals
    /// times a node. Parts have lower numbers, so one way down is enough.
    fn expand(&mut self, alloc: Global, nodes: &Over) -> Result<(), AllocError>
        ensures { IfOk result (λ _. expansion_of self.new ≡ expanded_below nodes.now (length nodes.now) (expansion_of self.old)) }
    {
        let mut bound = nodes.len();
        while let Some(node) = self.last_below(bound) {
            self.expand_at(alloc, nodes, node)?;
            bound = node;
        }
        Ok(())
    }

    /// b - a + k. It begins with the bases of the two, so a long chain of additions is one step.
    pub(crate) fn difference(
        alloc: Global,
        nodes: &Over,
        a: usize,
        b: usize,
        k: i128,
    ) -> Result<Expansion, AllocError>
        ensures { IfOk result (λ sum. expansion_of sum ≡ expanded_difference nodes.now (length nodes.now) a b k) }
    {
        are_table(nodes);
        let mut sum = Expansion::of_constant(alloc, k);
        sum.add_offset(alloc, nodes.offset(b), 1)?;
        sum.add_offset(alloc, nodes.offset(a), -1)?;
        sum.expand(alloc, nodes)?;
        Ok(sum)
    }

    /// The row of the sum. It is `Refused` exactly where a number of it is past 128 bits.
    pub(crate) fn narrowed(&self, alloc: Global) -> Result<Row, RowFault>
        ensures { (count : ℕ) → IsWithin count (expansion_of self.now) → Finds row_of result (narrow_row count (expansion_of self.now)) }
    {
        let mut coefficients = BTreeMap::new(alloc);
        for (node, coefficient) in &self.coefficients {
            let Some(number) = coefficient.narrow() else {
                return Err(RowFault::Refused);
            };
            coefficients.insert(*node, number)?;
        }
        match self.constant.narrow() {
            Some(constant) => Ok(Row::new(coefficients, constant)),
            None => Err(RowFault::Refused),
        }
    }
}
