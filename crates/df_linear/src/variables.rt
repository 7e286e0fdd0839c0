//! The engine's variables: which formula each stands for, and what is known of it.

use crate::forms::Meaning;
use std::alloc::{AllocError, Global};
use std::collections::HashMap;

/// What stands behind a variable.
#[derive(Clone, Copy)]
struct Variable {
    node: usize,
    meaning: Meaning,
    /// The clauses for where it is true stand in the book.
    is_defined_true: bool,
    /// The clauses for where it is false stand in the book.
    is_defined_false: bool,
    /// The clause that says that it is true, or that it is false, where one does.
    unit: Option<usize>,
}

/// The variables by their numbers.
#[derive(Drop)]
pub struct Variables {
    all: Vec<Variable>,
    /// By node.
    places: HashMap<usize, usize>,
}

impl Variables {
    pub fn new(alloc: Global) -> Variables {
        Variables {
            all: Vec::new(alloc),
            places: HashMap::new(alloc),
        }
    }

    pub fn len(&self) -> usize {
        self.all.len()
    }

    /// The variable of a formula.
    pub fn of_node(&self, node: usize) -> Option<usize> {
        self.places.get(&node).copied()
    }

    /// A variable for a formula that has none.
    pub fn add(&mut self, node: usize, meaning: Meaning) -> Result<usize, AllocError> {
        let variable = self.all.len();
        self.all.push(Variable {
            node,
            meaning,
            is_defined_true: false,
            is_defined_false: false,
            unit: None,
        })?;
        self.places.insert(node, variable)?;
        Ok(variable)
    }

    pub fn node(&self, variable: usize) -> Option<usize> {
        Some(self.all.get(variable)?.node)
    }

    pub fn meaning(&self, variable: usize) -> Meaning {
        match self.all.get(variable) {
            Some(found) => found.meaning,
            None => Meaning::Nothing,
        }
    }

    pub fn unit(&self, variable: usize) -> Option<usize> {
        self.all.get(variable)?.unit
    }

    /// The clause says that the variable is true, or that it is false.
    pub fn set_unit(&mut self, variable: usize, clause: usize) {
        if let Some(found) = self.all.get_mut(variable) {
            found.unit = Some(clause);
        }
    }

    /// The clauses for where the variable has the value are to stand in the book from here on. Whether
    /// they did already.
    pub fn define(&mut self, variable: usize, value: bool) -> bool {
        match self.all.get_mut(variable) {
            Some(found) if value => {
                let was = found.is_defined_true;
                found.is_defined_true = true;
                was
            }
            Some(found) => {
                let was = found.is_defined_false;
                found.is_defined_false = true;
                was
            }
            None => true,
        }
    }
}
