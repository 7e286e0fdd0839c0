//! Classes of equal terms: which terms are in them, what follows of them, and why.

use crate::state::State;
use df_clauses::{Literal, Origin, Reason, negations};
use df_egraph::{Application, Event, Explanation};
use df_form::{Op, Pair, Sort};
use df_theory::Shape;
use std::alloc::AllocError;

/// How many steps of closing come before the rest is looked at.
const STEPS: usize = 100_000;

/// Whether equal parts, or the schemas, say something of such a node that arithmetic does not see.
fn is_operation(op: Op) -> bool {
    match op {
        Op::Times => true,
        Op::Of(_, _) => op.sort() != Sort::Truth,
        _ => false,
    }
}

impl<'a> State<'a> {
    /// Has terms in classes, with their parts.
    pub(crate) fn meet_all(&mut self, nodes: &[usize]) -> Result<(), AllocError> {
        if self.has_classes {
            for node in nodes {
                self.meet(*node)?;
            }
        }
        Ok(())
    }

    /// Has a term in classes, with its parts.
    pub fn meet(&mut self, node: usize) -> Result<(), AllocError> {
        let mut waiting = vec![in self.alloc; node]?;
        for _ in 0..usize::MAX {
            let Some(top) = waiting.last().copied() else {
                break;
            };
            if self.graph.knows(top) || !self.terms.is_term(top) {
                let _ = waiting.pop();
            } else if let Some(part) = self.unmet_part(top) {
                waiting.push(part)?;
            } else {
                self.enter(top)?;
            }
        }
        Ok(())
    }

    fn unmet_part(&self, node: usize) -> Option<usize> {
        for place in 0..self.terms.part_count(node) {
            let part = self.terms.part(node, place)?;
            if !self.graph.knows(part) {
                return Some(part);
            }
        }
        None
    }

    /// Has a term in classes, whose parts are there.
    fn enter(&mut self, node: usize) -> Result<(), AllocError> {
        self.spend(4);
        let (Some(op), part) = (self.terms.op(node), self.terms.part(node, 0)) else {
            return Ok(());
        };
        match (op, part) {
            (Op::Number(_), _) => self.graph.add_number(node),
            (_, Some(left)) => {
                let right = self.terms.part(node, 1);
                self.graph.add(node, Application { op, left, right })?;
                if is_operation(op) && !matches!(self.terms.shape(node), Shape::Multiple(..)) {
                    self.instances.meet(node)?;
                }
                Ok(())
            }
            (_, None) => self.graph.add_other(node),
        }
    }

    /// Has the sides of an equality in classes, and hears where they become equal.
    pub(crate) fn meet_equality(
        &mut self,
        node: usize,
        a: usize,
        b: usize,
    ) -> Result<(), AllocError> {
        if !self.has_classes {
            return Ok(());
        }
        self.meet_all(&[a, b])?;
        self.graph.add(
            node,
            Application {
                op: Op::Equal,
                left: a,
                right: Some(b),
            },
        )
    }

    /// The sides of an equality.
    fn sides(&self, node: usize) -> Option<Pair> {
        match self.terms.shape(node) {
            Shape::Equal(left, right) | Shape::Same(left, right) => Some(Pair { left, right }),
            _ => None,
        }
    }

    /// Has classes know an equality. A clause that is false, if one is.
    pub(crate) fn assert_equality(
        &mut self,
        literal: Literal,
    ) -> Result<Option<usize>, AllocError> {
        if !self.has_classes {
            return Ok(None);
        }
        let node = self.variables.node(literal.variable).unwrap_or(0);
        let Some(Pair { left, right }) = self.sides(node) else {
            return Ok(None);
        };
        if literal.positive {
            self.graph.assert_equal(literal, left, right)?;
            Ok(None)
        } else if self.graph.are_equal(left, right) {
            self.explain_equality(literal.negation())
        } else {
            Ok(None)
        }
    }

    /// Closes the classes, and has the rest know what follows. A clause that is false, if one is.
    pub(crate) fn propagate_classes(&mut self) -> Result<Option<usize>, AllocError> {
        self.graph.close(STEPS)?;
        let work = self.graph.take_work();
        self.spend(work);
        for _ in 0..usize::MAX {
            let Some(event) = self.graph.next_event() else {
                break;
            };
            let conflict = self.take_event(event)?;
            if conflict.is_some() {
                return Ok(conflict);
            }
        }
        Ok(None)
    }

    fn take_event(&mut self, event: Event) -> Result<Option<usize>, AllocError> {
        match event {
            Event::Clash { left, right } => self.explain_equal(&[Pair { left, right }], None),
            Event::Equal(node) => self.imply_equality(node),
            Event::Congruent { left, right } => self.exchange(left, right),
        }
    }

    /// An equality is true, whose sides are in one class. A clause that is false, if one is.
    fn imply_equality(&mut self, node: usize) -> Result<Option<usize>, AllocError> {
        let literal = self.literal(node, true)?;
        match self.solver.trail.value(literal) {
            Some(true) => Ok(None),
            Some(false) => self.explain_equality(literal),
            None => {
                self.solver.trail.assign(literal, Reason::Classes)?;
                Ok(None)
            }
        }
    }

    /// Has arithmetic know that two congruent numbers are equal. A clause that is false, if one is.
    fn exchange(&mut self, left: usize, right: usize) -> Result<Option<usize>, AllocError> {
        if !self.terms.is_number(left) || !self.is_column(left) || !self.is_column(right) {
            return Ok(None);
        }
        let node = self.terms.add_two(Op::Equal, left, right)?;
        self.imply_equality(node)
    }

    /// Whether arithmetic sees a number as one that it knows nothing of.
    fn is_column(&self, node: usize) -> bool {
        matches!(self.terms.shape(node), Shape::Unknown)
    }

    /// The clause that says that an equality is true, since its sides are in one class.
    pub(crate) fn explain_equality(
        &mut self,
        literal: Literal,
    ) -> Result<Option<usize>, AllocError> {
        let node = self.variables.node(literal.variable).unwrap_or(0);
        match self.sides(node) {
            Some(pair) => self.explain_equal(&[pair], Some(literal)),
            None => Ok(None),
        }
    }

    /// The clause that says why terms are equal, and what that comes to.
    fn explain_equal(
        &mut self,
        equal: &[Pair],
        conclusion: Option<Literal>,
    ) -> Result<Option<usize>, AllocError> {
        let Explanation { literals, pairs } = self.graph.explain(self.alloc, equal)?;
        match negations(self.alloc, &literals, conclusion) {
            Ok(clause) => self.add_congruence(clause, pairs),
            Err(error) => Err(error),
        }
    }

    /// Adds a clause that holds by congruence. Its number.
    fn add_congruence(
        &mut self,
        literals: Vec<Literal>,
        pairs: Vec<Pair>,
    ) -> Result<Option<usize>, AllocError> {
        self.spend(literals.len());
        self.spend(pairs.len());
        self.solver
            .book
            .add(literals, Origin::Congruence(pairs))
            .map(Some)
    }
}
