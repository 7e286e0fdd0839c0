//! The first nodes of an arena that sequents share.

ghost use Rattle.std.specs.Prelude.{◌≡◌, take, IfOk};

use crate::lent::Lent;
use crate::node::{Node, Op, Term};
use crate::node_table::NodeTable;
use crate::nodes::Nodes;
use crate::offset::Offset;
use crate::over::Over;
use std::alloc::{AllocError, Global};
use std::marker::Model;
use std::rc::Rc;

/// So many nodes of an arena that is shared, the first ones.
#[derive(Drop)]
pub struct Front {
    shared: Rc<Nodes>,
    count: usize,
}

impl Model for Front {
    ghost use Rattle.std.specs.Prelude.{List, ◌≤◌, length, take};
    ghost use Rattle.df_form.specs.Node as pure;

    ghost Value = { List pure.Node };

    ghost view = { λ f. take f.count f.shared.value };

    ghost invariant = { λ f. f.count ≤ length f.shared.value };
}

impl Front {
    /// All nodes of an arena, from now on to be shared.
    pub fn new(alloc: Global, nodes: Nodes) -> Result<Front, AllocError>
        ensures { IfOk result (λ front. front ≡ nodes) }
    {
        let count = nodes.len();
        let Ok(shared) = Rc::new(alloc, nodes) else {
            return Err(AllocError);
        };
        Ok(Front { shared, count })
    }

    /// The nodes of an arena once more, to be shared.
    pub fn copy_of(alloc: Global, nodes: &Nodes) -> Result<Front, AllocError>
        ensures { IfOk result (λ front. front ≡ nodes.now) }
    {
        let nodes = nodes.copy(alloc)?;
        Front::new(alloc, nodes)
    }

    /// The same nodes once more, in the same place.
    pub fn copy(&self) -> Result<Front, AllocError>
        ensures { IfOk result (λ copy. copy ≡ self.now) }
    {
        Ok(Front {
            shared: self.shared.clone()?,
            count: self.count,
        })
    }

    /// Takes the nodes from this number on away.
    pub fn cut(&mut self, len: usize)
        ensures { self.new ≡ take len self.old }
    {
        if len < self.count {
            self.count = len;
        }
    }

    /// The nodes, lent.
    fn lent(&self) -> Lent<'_>
        ensures { result ≡ self.now }
    {
        Lent::new(&self.shared, self.count)
    }

    /// The nodes, from which others are numbered on.
    pub fn over(&self, alloc: Global) -> Over<'_>
        ensures { result ≡ self.now }
    {
        Over::first(alloc, &self.shared, self.count)
    }
}

impl NodeTable for Front {
    ghost nodes = { λ s. s };

    fn len(&self) -> usize {
        self.lent().len()
    }

    fn get(&self, number: Term) -> Option<&Node> {
        self.lent().get(number)
    }

    fn known_offset(&self, number: Term) -> Option<Offset> {
        self.lent().offset(number)
    }

    fn find(&self, op: &Op, parts: &[Term]) -> Option<Term> {
        self.lent().find(op, parts)
    }
}
