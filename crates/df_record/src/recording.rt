//! The steps that derive clauses, with the numbers that the kernel gives nodes and clauses.

use df_clauses::{Clause, Instance, Literal, Origin};
use df_form::{Combination, Lit, Multiple, Node, Pair, Step};
use df_theory::{Made, Shape, Terms, Variables};
use std::alloc::{AllocError, Global};
use std::collections::HashMap;

/// The schema of what it means to be of a type.
const TYPES: u8 = 74;

/// A log so far.
#[derive(Drop)]
pub struct Recorder<'a> {
    pub(crate) alloc: Global,
    terms: &'a Terms<'a>,
    variables: &'a Variables,
    pub(crate) steps: Vec<Step>,
    /// How many nodes there are.
    nodes: usize,
    /// The numbers of nodes that clauses made.
    numbers: HashMap<usize, usize>,
    /// How many clauses there are.
    clauses: usize,
    /// The numbers of clauses, by those in the book.
    places: HashMap<usize, usize>,
}

impl<'a> Recorder<'a> {
    /// No steps yet, after so many nodes.
    pub fn new(
        alloc: Global,
        terms: &'a Terms<'a>,
        variables: &'a Variables,
        nodes: usize,
    ) -> Recorder<'a> {
        Recorder {
            alloc,
            terms,
            variables,
            steps: Vec::new(alloc),
            nodes,
            numbers: HashMap::new(alloc),
            clauses: 0,
            places: HashMap::new(alloc),
        }
    }

    /// The number of a node.
    fn number(&self, node: usize) -> usize {
        match self.numbers.get(&node) {
            Some(number) => *number,
            None => self.terms.own(node),
        }
    }

    /// The node, where a clause made it and the sequent has none like it.
    fn made(&self, node: usize) -> Option<Made> {
        self.terms.made(self.terms.own(node))
    }

    fn lit(&self, literal: Literal) -> Lit {
        let node = self.variables.node(literal.variable).unwrap_or(0);
        Lit {
            positive: literal.positive,
            node: self.number(node),
        }
    }

    fn conclusion(&self, literals: &[Literal]) -> Result<Vec<Lit>, AllocError> {
        let mut conclusion = Vec::with_capacity(self.alloc, literals.len())?;
        for literal in literals {
            conclusion.push(self.lit(*literal))?;
        }
        Ok(conclusion)
    }

    /// The node gets the next number, if a clause made it and it has none. Whether it did.
    fn name(&mut self, node: usize) -> Result<bool, AllocError> {
        if self.is_named(node) {
            return Ok(false);
        }
        self.numbers.insert(node, self.nodes)?;
        self.nodes = self.nodes.saturating_add(1);
        Ok(true)
    }

    /// The comparison that the next step makes gets a number, after its parts.
    fn name_comparison(&mut self, a: usize, b: usize) -> Result<(), AllocError> {
        self.name(a)?;
        self.name(b)?;
        if let Some(node) = self.terms.find(Made::at_most(a, b)) {
            self.name(node)?;
        }
        Ok(())
    }

    fn name_at_least(&mut self, bound: i128, node: usize) -> Result<(), AllocError> {
        match self.terms.find(Made::Number(bound)) {
            Some(low) => self.name_comparison(low, node),
            None => Ok(()),
        }
    }

    fn name_at_most(&mut self, node: usize, bound: i128) -> Result<(), AllocError> {
        match self.terms.find(Made::Number(bound)) {
            Some(high) => self.name_comparison(node, high),
            None => Ok(()),
        }
    }

    /// Whether the node has a number.
    fn is_named(&self, node: usize) -> bool {
        self.numbers.contains_key(&node) || self.made(node).is_none()
    }

    /// A part of a made node that has no number.
    fn unnamed_part(&self, made: Made) -> Option<usize> {
        for place in 0..made.part_count() {
            let part = made.part(place)?;
            if !self.is_named(part) {
                return Some(part);
            }
        }
        None
    }

    /// Makes a node by a step of its own, if it has no number, after its parts.
    fn make(&mut self, node: usize) -> Result<(), AllocError> {
        let mut waiting = vec![in self.alloc; node]?;
        for _ in 0..usize::MAX {
            let Some(top) = waiting.last().copied() else {
                break;
            };
            let Some(made) = self.made(top) else {
                let _ = waiting.pop();
                continue;
            };
            if let Some(part) = self.unnamed_part(made) {
                waiting.push(part)?;
                continue;
            }
            if self.name(top)? {
                self.make_node(made)?;
            }
            let _ = waiting.pop();
        }
        Ok(())
    }

    /// Makes a node whose parts have numbers.
    fn make_node(&mut self, made: Made) -> Result<(), AllocError> {
        let mut parts = Vec::new(self.alloc);
        for place in 0..made.part_count() {
            if let Some(part) = made.part(place) {
                parts.push(self.number(part))?;
            }
        }
        let op = made.op();
        self.steps.push(Step::Make(Node { op, parts }))?;
        Ok(())
    }

    /// Makes the nodes of literals.
    fn make_all(&mut self, literals: &[Literal]) -> Result<(), AllocError> {
        for literal in literals {
            if let Some(node) = self.variables.node(literal.variable) {
                self.make(node)?;
            }
        }
        Ok(())
    }

    fn connective(&mut self, node: usize, clause: usize) -> Result<Step, AllocError> {
        self.make(node)?;
        if let Shape::Equal(a, b) = self.terms.shape(node) {
            if clause != 1 {
                self.name_comparison(a, b)?;
            }
            if clause != 0 {
                self.name_comparison(b, a)?;
            }
        }
        Ok(Step::Connective {
            node: self.number(node),
            clause,
        })
    }

    fn type_clause(&mut self, node: usize, clause: u32) -> Result<Step, AllocError> {
        self.make(node)?;
        if let Shape::Is { ends, part } = self.terms.shape(node) {
            if let Some(low) = ends.low_in(clause as usize) {
                self.name_at_least(low, part)?;
            }
            if let Some(high) = ends.high_in(clause as usize) {
                self.name_at_most(part, high)?;
            }
        }
        Ok(Step::Schema {
            schema: TYPES,
            clause,
            terms: vec![in self.alloc; self.number(node)]?,
        })
    }

    fn schema(
        &mut self,
        schema: Instance,
        terms: &[usize],
        needed: &[usize],
    ) -> Result<Step, AllocError> {
        let mut numbers = Vec::with_capacity(self.alloc, terms.len())?;
        for term in terms {
            self.make(*term)?;
            numbers.push(self.number(*term))?;
        }
        for node in needed {
            self.name(*node)?;
        }
        Ok(Step::Schema {
            schema: schema.schema,
            clause: schema.clause,
            terms: numbers,
        })
    }

    fn congruence(&mut self, literals: &[Literal], pairs: &[Pair]) -> Result<Step, AllocError> {
        self.make_all(literals)?;
        let mut named = Vec::with_capacity(self.alloc, pairs.len())?;
        for pair in pairs {
            self.make(pair.left)?;
            self.make(pair.right)?;
            named.push(Pair {
                left: self.number(pair.left),
                right: self.number(pair.right),
            })?;
        }
        Ok(Step::Congruence {
            conclusion: self.conclusion(literals)?,
            pairs: named,
        })
    }

    fn split(&mut self, node: usize, bound: i128) -> Result<Step, AllocError> {
        self.make(node)?;
        self.name_at_most(node, bound)?;
        self.name_at_least(bound.saturating_add(1), node)?;
        Ok(Step::Split {
            node: self.number(node),
            bound,
        })
    }

    fn linear(
        &mut self,
        literals: &[Literal],
        combinations: &[Combination],
    ) -> Result<Step, AllocError> {
        self.make_all(literals)?;
        Ok(Step::Linear {
            conclusion: self.conclusion(literals)?,
            combinations: copied(self.alloc, combinations)?,
        })
    }

    fn learned(&mut self, literals: &[Literal], antecedents: &[usize]) -> Result<Step, AllocError> {
        let mut clauses = Vec::with_capacity(self.alloc, antecedents.len())?;
        for antecedent in antecedents {
            clauses.push(self.places.get(antecedent).copied().unwrap_or(0))?;
        }
        Ok(Step::Propagation {
            clauses,
            conclusion: self.conclusion(literals)?,
        })
    }

    /// The step that derives a clause.
    fn step(&mut self, clause: &Clause) -> Result<Step, AllocError> {
        match &clause.origin {
            Origin::Hypothesis(number) => Ok(Step::Hypothesis(*number)),
            Origin::Goal => Ok(Step::Goal),
            Origin::Connective { node, clause } => self.connective(*node, *clause),
            Origin::Type { node, clause } => self.type_clause(*node, *clause),
            Origin::Schema {
                instance,
                terms,
                needed,
            } => self.schema(*instance, terms, needed),
            Origin::Congruence(pairs) => self.congruence(&clause.literals, pairs),
            Origin::Split { node, bound } => self.split(*node, *bound),
            Origin::Linear(combinations) => self.linear(&clause.literals, combinations),
            Origin::Learned(antecedents) => self.learned(&clause.literals, antecedents),
        }
    }

    /// Records the clause of this number in the book.
    pub(crate) fn record(&mut self, number: usize, clause: &Clause) -> Result<(), AllocError> {
        let step = self.step(clause)?;
        self.steps.push(step)?;
        self.places.insert(number, self.clauses)?;
        self.clauses = self.clauses.saturating_add(1);
        Ok(())
    }
}

fn copied(alloc: Global, combinations: &[Combination]) -> Result<Vec<Combination>, AllocError> {
    let mut copies = Vec::with_capacity(alloc, combinations.len())?;
    for combination in combinations {
        let members: Vec<Multiple> = Vec::from_slice(alloc, combination.members.as_slice())?;
        copies.push(Combination {
            divisor: combination.divisor,
            members,
        })?;
    }
    Ok(copies)
}
