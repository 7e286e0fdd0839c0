//! The first formulas of a list that sequents share.

ghost use Rattle.std.specs.Prelude.{◌≡◌, ◌≤◌, length, take, IfOk};

use crate::node::Formula;
use std::alloc::{AllocError, Global};
use std::marker::Model;
use std::rc::Rc;

/// So many formulas of a list that is shared, the first ones.
#[derive(Drop)]
pub struct Formulas {
    shared: Rc<Vec<Formula>>,
    count: usize,
}

impl Model for Formulas {
    ghost use Rattle.std.specs.Prelude.{ℕ, List, ◌≤◌, length, take};

    ghost Value = { List ℕ };

    ghost view = { λ f. take f.count f.shared.value.items };

    ghost invariant = { λ f. f.count ≤ length f.shared.value.items };
}

impl Formulas {
    /// All formulas of a list.
    pub fn new(alloc: Global, formulas: Vec<Formula>) -> Result<Formulas, AllocError>
        ensures { IfOk result (λ all. all ≡ formulas.items) }
    {
        let count = formulas.len();
        let Ok(shared) = Rc::new(alloc, formulas) else {
            return Err(AllocError);
        };
        Ok(Formulas { shared, count })
    }

    /// The formulas in order.
    pub fn as_slice(&self) -> &[Formula]
        ensures { result.now ≡ self.now }
    {
        &self.shared[..self.count]
    }

    /// So many of them, the first ones, in the same place.
    pub fn front(&self, count: usize) -> Result<Formulas, AllocError>
        requires { count ≤ length self.now }
        ensures { IfOk result (λ front. front ≡ take count self.now) }
    {
        Ok(Formulas {
            shared: self.shared.clone()?,
            count,
        })
    }
}
