//! Products as sums of multiples of products of terms that are neither: each is right-nested, and its
//! factors ascend.

use crate::schemas::{CHANGE, GO_IN, JOIN, LITERAL_FIRST};
use crate::state::State;
use df_form::Op;
use df_theory::Shape;
use std::alloc::AllocError;

/// How many steps one term may take.
const STEPS: usize = 10_000;

/// What the normal form of a term is.
#[derive(Clone, Copy)]
enum Plan {
    /// It is this term.
    Is(usize),
    /// It is that of this term, which is equal to it.
    IsThatOf(usize),
    /// That of this term is needed first.
    Needs(usize),
}

/// A factor that is a product itself.
#[derive(Clone, Copy)]
struct Factors {
    first: usize,
    second: usize,
}

impl<'a> State<'a> {
    /// Has the normal form of a term be known, which instances show to be equal to it.
    pub fn normalize(&mut self, node: usize) -> Result<(), AllocError> {
        let mut waiting = vec![in self.alloc; node]?;
        for _ in 0..STEPS {
            let Some(top) = waiting.last().copied() else {
                break;
            };
            if self.is_over() {
                break;
            }
            if self.instances.normal(top).is_some() {
                let _ = waiting.pop();
            } else if let Some(first) = self.go_on(top)? {
                waiting.push(first)?;
            }
        }
        Ok(())
    }

    /// Has the normal form of a term be known, or tells a term whose own is needed first.
    fn go_on(&mut self, node: usize) -> Result<Option<usize>, AllocError> {
        match self.plan(node)? {
            Plan::Is(normal) => {
                self.instances.set_normal(node, normal)?;
                self.instances.set_normal(normal, normal)?;
                Ok(None)
            }
            Plan::IsThatOf(other) => match self.instances.normal(other) {
                Some(normal) => {
                    self.instances.set_normal(node, normal)?;
                    Ok(None)
                }
                None => Ok(Some(other)),
            },
            Plan::Needs(other) => Ok(Some(other)),
        }
    }

    /// The node of an operation on two parts, in classes.
    pub fn two(&mut self, op: Op, a: usize, b: usize) -> Result<usize, AllocError> {
        let node = self.terms.add_two(op, a, b)?;
        let round = self.instances.round(a).max(self.instances.round(b));
        self.instances.set_round(node, round)?;
        self.meet(node)?;
        Ok(node)
    }

    fn plan(&mut self, node: usize) -> Result<Plan, AllocError> {
        let (Some(op), Some(a), Some(b)) = (
            self.terms.op(node),
            self.terms.part(node, 0),
            self.terms.part(node, 1),
        ) else {
            return Ok(Plan::Is(node));
        };
        if !matches!(op, Op::Plus | Op::Times) {
            return Ok(Plan::Is(node));
        }
        let Some(left) = self.instances.normal(a) else {
            return Ok(Plan::Needs(a));
        };
        let Some(right) = self.instances.normal(b) else {
            return Ok(Plan::Needs(b));
        };
        let normal = self.two(op, left, right)?;
        if op == Op::Plus || self.terms.number(left).is_some() {
            Ok(Plan::Is(normal))
        } else if normal == node {
            self.plan_product(node, a, b)
        } else {
            Ok(Plan::IsThatOf(normal))
        }
    }

    /// The plan of a product of normal forms, of which the first is no literal.
    fn plan_product(&mut self, node: usize, a: usize, b: usize) -> Result<Plan, AllocError> {
        match (self.terms.shape(a), self.terms.shape(b)) {
            (_, Shape::Number(_)) => {
                self.instantiate(LITERAL_FIRST, 0, &[node])?;
                self.two(Op::Times, b, a).map(Plan::Is)
            }
            (_, Shape::Sum(c, d)) => {
                self.instantiate(GO_IN, 0, &[node])?;
                let left = self.two(Op::Times, a, c)?;
                let right = self.two(Op::Times, a, d)?;
                self.two(Op::Plus, left, right).map(Plan::IsThatOf)
            }
            (_, Shape::Multiple(factor, c)) => {
                let turned = self.turn(node, a, b)?;
                self.instantiate(JOIN, 0, &[turned])?;
                let inner = self.two(Op::Times, c, a)?;
                let factor = self.terms.add_number(factor)?;
                self.two(Op::Times, factor, inner).map(Plan::IsThatOf)
            }
            (Shape::Sum(..) | Shape::Multiple(..), _) => {
                self.turn(node, a, b).map(Plan::IsThatOf)
            }
            _ => self.plan_monomial(node, a, b),
        }
    }

    /// Says that the factors of a product may change places. The product where they did.
    fn turn(&mut self, node: usize, a: usize, b: usize) -> Result<usize, AllocError> {
        let turned = self.two(Op::Times, b, a)?;
        if a != b {
            self.instantiate(CHANGE, 0, &[node])?;
        }
        Ok(turned)
    }

    /// The factors of a product.
    fn factors(&self, node: usize) -> Option<Factors> {
        match self.terms.op(node)? {
            Op::Times => Some(Factors {
                first: self.terms.part(node, 0)?,
                second: self.terms.part(node, 1)?,
            }),
            _ => None,
        }
    }

    /// The plan of a product of terms that are no sums and no multiples.
    fn plan_monomial(&mut self, node: usize, a: usize, b: usize) -> Result<Plan, AllocError> {
        if let Some(factors) = self.factors(a) {
            return self.join(node, factors, b);
        }
        match self.factors(b) {
            Some(factors) if factors.first < a => {
                let turned = self.turn(node, a, b)?;
                self.join(turned, factors, a)
            }
            None if b < a => self.turn(node, a, b).map(Plan::Is),
            _ => Ok(Plan::Is(node)),
        }
    }

    /// The plan of a product whose first factor is a product.
    fn join(&mut self, node: usize, factors: Factors, b: usize) -> Result<Plan, AllocError> {
        self.instantiate(JOIN, 0, &[node])?;
        let inner = self.two(Op::Times, factors.second, b)?;
        self.two(Op::Times, factors.first, inner)
            .map(Plan::IsThatOf)
    }
}
