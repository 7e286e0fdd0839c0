//! The nodes of a ground set among the engine's terms, and their numbers and labels.

use crate::candidate::Candidate;
use crate::codes::{Codes, is_code};
use crate::operations::{Key, number_of};
use df_form::{NodeTable, Op, Over, Symbol};
use df_theory::Made;
use std::alloc::AllocError;
use std::collections::BTreeMap;

/// What nodes are, one after another: equal operations on equal parts are so too.
#[derive(Drop)]
pub(crate) struct Grounding {
    /// By node; 0 for what is no number.
    pub numbers: Vec<i128>,
    /// By node.
    pub labels: Vec<usize>,
    /// Products, quotients and remainders by their parts.
    results: BTreeMap<Key, i128>,
    /// The labels of characters by the numbers of which they are made.
    characters: BTreeMap<i128, usize>,
    codes: Codes,
}

/// The term that is like the node of a number, if there is one.
pub(crate) fn term_at(terms: &[Option<usize>], number: usize) -> Option<usize> {
    match terms.get(number) {
        Some(term) => *term,
        None => None,
    }
}

/// The number that an operation on two numbers gives; 0 where it gives none, or one past 128 bits.
fn given(op: Op, left: i128, right: i128) -> i128 {
    match op {
        Op::Number(number) => number,
        Op::Plus => left.checked_add(right).unwrap_or(0),
        Op::Times => left.checked_mul(right).unwrap_or(0),
        Op::Of(Symbol::Div, _) => left.checked_div_euclid(right).unwrap_or(0),
        Op::Of(Symbol::Mod, _) => left.checked_rem_euclid(right).unwrap_or(0),
        _ => 0,
    }
}

/// The number of a part; 0 where there is none.
fn part_number(numbers: &[i128], parts: &[usize], place: usize) -> i128 {
    match parts.get(place) {
        Some(part) => numbers.get(*part).copied().unwrap_or(0),
        None => 0,
    }
}

/// What the parts of a node give, where these are the numbers of the nodes before it.
fn computed(nodes: &Over, numbers: &[i128], number: usize) -> i128 {
    let Some(node) = nodes.get(number) else {
        return 0;
    };
    given(
        node.op,
        part_number(numbers, &node.parts, 0),
        part_number(numbers, &node.parts, 1),
    )
}

impl<'a> Candidate<'a> {
    /// The term that is like a node, where those like the nodes before it are these.
    fn term_like(&self, nodes: &Over, terms: &[Option<usize>], number: usize) -> Option<usize> {
        let node = nodes.get(number)?;
        let made = match (node.op, node.parts.as_slice()) {
            (Op::Number(value), _) => Made::Number(value),
            (op, [a]) => Made::One(op, term_at(terms, *a)?),
            (op, [a, b]) => Made::Two(op, term_at(terms, *a)?, term_at(terms, *b)?),
            _ => return None,
        };
        self.terms.find(made)
    }

    /// The terms that are like these nodes, of which so many first ones are the sequent's.
    pub(crate) fn terms_like(
        &self,
        nodes: &Over,
        own: usize,
    ) -> Result<Vec<Option<usize>>, AllocError> {
        let mut terms: Vec<Option<usize>> = Vec::new(self.alloc);
        for number in 0..nodes.len() {
            let term = if number < own {
                Some(number)
            } else {
                self.term_like(nodes, &terms, number)
            };
            terms.push(term)?;
        }
        Ok(terms)
    }

    /// The operations that the engine knows, and no nodes yet.
    fn known_operations(&self) -> Result<Grounding, AllocError> {
        let mut grounding = Grounding {
            numbers: Vec::new(self.alloc),
            labels: Vec::new(self.alloc),
            results: BTreeMap::new(self.alloc),
            characters: BTreeMap::new(self.alloc),
            codes: Codes::new(self.alloc),
        };
        for &node in self.operations.iter() {
            self.enter(&mut grounding, node)?;
        }
        Ok(grounding)
    }

    /// Enters what the engine knows of an operation.
    fn enter(&self, grounding: &mut Grounding, node: usize) -> Result<(), AllocError> {
        let part = self.terms.part(node, 0).unwrap_or(0);
        match self.terms.op(node) {
            Some(Op::Of(Symbol::Code, _)) => match self.theory.value(node) {
                Some(code) => grounding.codes.offer(self.label(part), code),
                None => Ok(()),
            },
            Some(Op::Of(Symbol::Chr, _)) => match self.theory.value(part) {
                Some(number) => grounding.enter_character(number, self.label(node)),
                None => Ok(()),
            },
            _ => match (self.key(node), self.theory.value(node)) {
                (Some(key), Some(number)) => grounding.enter_result(key, number),
                _ => Ok(()),
            },
        }
    }

    /// The number of the term that is like a node, where the engine knows one.
    fn known_number(&self, term: Option<usize>) -> Option<i128> {
        self.theory.value(term?)
    }

    /// The class of the term that is like a node, where the engine knows one.
    fn known_label(&self, term: Option<usize>) -> Option<usize> {
        let term = term?;
        if self.graph.knows(term) {
            Some(self.label(term))
        } else {
            None
        }
    }

    /// The numbers and the labels of these nodes: the engine's own, else those of an operation on equal parts, and
    /// else what their parts give.
    pub(crate) fn grounded(
        &self,
        nodes: &Over,
        terms: &[Option<usize>],
    ) -> Result<Grounding, AllocError> {
        let mut grounding = self.known_operations()?;
        self.ground_all(&mut grounding, nodes, terms)?;
        Ok(grounding)
    }

    /// Gives all nodes their numbers and labels.
    fn ground_all(
        &self,
        grounding: &mut Grounding,
        nodes: &Over,
        terms: &[Option<usize>],
    ) -> Result<(), AllocError> {
        for number in 0..nodes.len() {
            self.ground_next(grounding, nodes, number, term_at(terms, number))?;
        }
        Ok(())
    }

    /// Gives the next node, which has this number and is like this term, its number and its label.
    fn ground_next(
        &self,
        grounding: &mut Grounding,
        nodes: &Over,
        number: usize,
        term: Option<usize>,
    ) -> Result<(), AllocError> {
        let value = match self.known_number(term) {
            Some(value) => value,
            None => grounding.number_of_next(nodes)?,
        };
        let own = match term {
            Some(term) => term,
            None => self.terms.len().saturating_add(number),
        };
        let label = match self.known_label(term) {
            Some(label) => label,
            None => grounding.label_of_next(nodes, own)?,
        };
        grounding.numbers.push(value)?;
        grounding.labels.push(label)?;
        Ok(())
    }
}

impl Grounding {
    fn enter_result(&mut self, key: Key, number: i128) -> Result<(), AllocError> {
        if !self.results.contains_key(&key) {
            self.results.insert(key, number)?;
        }
        Ok(())
    }

    fn enter_character(&mut self, number: i128, label: usize) -> Result<(), AllocError> {
        if !self.characters.contains_key(&number) {
            self.characters.insert(number, label)?;
        }
        if is_code(number) {
            self.codes.offer(label, number)?;
        }
        Ok(())
    }

    /// The operation of the next node and the numbers of its parts, where it is one on two numbers.
    fn next_key(&self, nodes: &Over) -> Option<Key> {
        let node = nodes.get(self.numbers.len())?;
        match (node.op, node.parts.as_slice()) {
            (Op::Times | Op::Of(Symbol::Div | Symbol::Mod, _), [first, second]) => Some(Key {
                op: number_of(node.op)?,
                first: self.numbers.get(*first).copied()?,
                second: self.numbers.get(*second).copied()?,
            }),
            _ => None,
        }
    }

    /// The label of the character of which the next node is the code.
    fn next_character(&self, nodes: &Over) -> Option<usize> {
        let node = nodes.get(self.numbers.len())?;
        match (node.op, node.parts.as_slice()) {
            (Op::Of(Symbol::Code, _), [part]) => self.labels.get(*part).copied(),
            _ => None,
        }
    }

    /// The number of the next node.
    fn number_of_next(&mut self, nodes: &Over) -> Result<i128, AllocError> {
        if let Some(label) = self.next_character(nodes) {
            return self.codes.code(label);
        }
        let number = computed(nodes, &self.numbers, self.numbers.len());
        let Some(key) = self.next_key(nodes) else {
            return Ok(number);
        };
        if let Some(known) = self.results.get(&key) {
            return Ok(*known);
        }
        self.results.insert(key, number)?;
        Ok(number)
    }

    /// The number of which the next node is the character.
    fn next_code(&self, nodes: &Over) -> Option<i128> {
        let node = nodes.get(self.numbers.len())?;
        match (node.op, node.parts.as_slice()) {
            (Op::Of(Symbol::Chr, _), [part]) => self.numbers.get(*part).copied(),
            _ => None,
        }
    }

    /// The label of the next node; this one, where it is like no other node.
    fn label_of_next(&mut self, nodes: &Over, own: usize) -> Result<usize, AllocError> {
        let Some(number) = self.next_code(nodes) else {
            return Ok(own);
        };
        if let Some(label) = self.characters.get(&number) {
            return Ok(*label);
        }
        let label = match self.codes.label(number) {
            Some(label) if is_code(number) => label,
            _ => own,
        };
        self.enter_character(number, label)?;
        Ok(label)
    }
}
