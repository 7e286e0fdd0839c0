//! Products that are not what their factors make them: has the engine know what excludes that.

use crate::candidate::candidate_of;
use crate::searching::{Preference, Search};
use df_form::{Op, Pair};
use df_modelling::{Comparison, Factor, Operand, Product};
use df_theory::{Made, Shape};
use std::alloc::AllocError;

/// How many terms of a class are looked at.
const SUMS: usize = 32;

/// So many of the products that may be made are left to sums.
const LEFT: usize = 48;

impl<'a> Search<'a> {
    /// The products that are compared.
    fn comparable(&self) -> Result<Vec<Product>, AllocError> {
        let products = candidate_of(&self.state).products()?;
        match self.preference {
            Preference::Sums => Ok(products),
            Preference::Comparisons => self.without_multiples(&products),
        }
    }

    /// The products that instances may name, with either factor first, and that are no multiples of others.
    fn without_multiples(&self, products: &[Product]) -> Result<Vec<Product>, AllocError> {
        let mut found = Vec::new(self.state.alloc);
        for product in products {
            if self.is_within(product) && !self.is_multiple(product) {
                found.push(*product)?;
            }
        }
        Ok(found)
    }

    /// Whether a product was made with a multiple as a factor: then it is a multiple of another one, which says as much.
    fn is_multiple(&self, product: &Product) -> bool {
        self.is_made(product)
            && (self.is_multiple_term(product.left) || self.is_multiple_term(product.right))
    }

    fn is_multiple_term(&self, term: usize) -> bool {
        matches!(self.state.terms.shape(term), Shape::Multiple(..))
    }

    /// Whether a product was made with a sum as a factor: then it is a sum of others.
    fn is_sum(&self, product: &Product) -> bool {
        self.is_made(product) && (self.is_sum_term(product.left) || self.is_sum_term(product.right))
    }

    fn is_sum_term(&self, term: usize) -> bool {
        matches!(self.state.terms.shape(term), Shape::Sum(..))
    }

    /// Whether the sequent does not have a product.
    fn is_made(&self, product: &Product) -> bool {
        let made = Made::Two(Op::Times, product.left, product.right);
        match self.state.terms.find(made) {
            Some(node) => self.state.terms.own_count() <= node,
            None => false,
        }
    }

    /// The products that are compared, but for those that are sums of others.
    fn comparable_alone(&self) -> Result<Vec<Product>, AllocError> {
        let mut found = Vec::new(self.state.alloc);
        let products = self.comparable()?;
        for product in products.iter() {
            if !self.is_sum(product) {
                found.push(*product)?;
            }
        }
        Ok(found)
    }

    fn is_within(&self, product: &Product) -> bool {
        let round = self.round_of_product(product.left, product.right);
        let turned = self.round_of_product(product.right, product.left);
        self.state.instances.is_within(round.max(turned))
    }

    /// The round of a product of two terms, which need not stand yet.
    fn round_of_product(&self, left: usize, right: usize) -> u32 {
        match self.state.terms.find(Made::Two(Op::Times, left, right)) {
            Some(node) => self.state.instances.round(node),
            None => self.round_of_pair(Pair { left, right }),
        }
    }

    /// Comparisons that exclude the signs that products have.
    pub fn comparisons_of_signs(&self) -> Result<Vec<Comparison>, AllocError> {
        let products = self.comparable()?;
        candidate_of(&self.state).comparisons_of_signs(&products)
    }

    /// Comparisons that exclude the numbers that products have.
    pub fn comparisons(&mut self) -> Result<Vec<Comparison>, AllocError> {
        let products = self.comparable()?;
        self.state
            .spend(products.len().saturating_mul(products.len()));
        candidate_of(&self.state).comparisons(&products)
    }

    /// Products that are to be known: those with sums in place of factors.
    pub fn substitutions(&mut self) -> Result<Vec<Pair>, AllocError> {
        let sums = self.sums()?;
        match self.preference {
            Preference::Sums => Ok(sums),
            Preference::Comparisons => self.after_comparisons(sums),
        }
    }

    /// Those of which the sum has no products. The others come only where no comparison with another product, or with a
    /// number that no decision gave, excludes what products are; and where there is no such sum either, a product between
    /// two others.
    fn after_comparisons(&mut self, sums: Vec<Pair>) -> Result<Vec<Pair>, AllocError> {
        let plain = self.without_products(&sums)?;
        if self.may_multiply_one(&plain) || self.has_lasting_comparison()? {
            Ok(plain)
        } else if self.may_multiply_one(&sums) || self.products <= LEFT {
            Ok(sums)
        } else {
            self.crosses()
        }
    }

    /// The first product between two others that may have instances.
    fn crosses(&mut self) -> Result<Vec<Pair>, AllocError> {
        let products = self.comparable_alone()?;
        self.state
            .spend(products.len().saturating_mul(products.len()));
        let crosses = candidate_of(&self.state).crosses(&products)?;
        let mut found = Vec::new(self.state.alloc);
        for pair in crosses.iter() {
            let round = self.round_of_pair(*pair).saturating_add(1);
            if found.is_empty() && self.state.instances.is_within(round) {
                found.push(*pair)?;
            }
        }
        Ok(found)
    }

    /// Those of which the sum has no products.
    fn without_products(&self, pairs: &[Pair]) -> Result<Vec<Pair>, AllocError> {
        let mut found = Vec::new(self.state.alloc);
        for pair in pairs {
            if self.products_in(pair.right)?.is_empty() {
                found.push(*pair)?;
            }
        }
        Ok(found)
    }

    /// Whether one of these products may be made.
    fn may_multiply_one(&self, pairs: &[Pair]) -> bool {
        for pair in pairs {
            if self.may_multiply(*pair) {
                return true;
            }
        }
        false
    }

    fn has_lasting_comparison(&mut self) -> Result<bool, AllocError> {
        let products = self.comparable_alone()?;
        self.state
            .spend(products.len().saturating_mul(products.len()));
        Ok(candidate_of(&self.state).has_lasting_comparison(&products))
    }

    /// Products, each of a term of one that is not right and of a sum that is equal to its other factor.
    fn sums(&mut self) -> Result<Vec<Pair>, AllocError> {
        let products = candidate_of(&self.state).products()?;
        let mut found = Vec::new(self.state.alloc);
        for product in products.iter() {
            if !product.is_right() && self.may_hold_sums(product) {
                self.substitute(product.left, product.right, &mut found)?;
                self.substitute(product.right, product.left, &mut found)?;
            }
        }
        Ok(found)
    }

    /// Whether sums may be put in place of the factors of a product.
    fn may_hold_sums(&self, product: &Product) -> bool {
        self.preference == Preference::Sums || !self.is_multiple(product)
    }

    /// Sums that are equal to a factor, beside the other one.
    fn substitute(
        &mut self,
        other: usize,
        factor: usize,
        found: &mut Vec<Pair>,
    ) -> Result<(), AllocError> {
        let mut sum = factor;
        for _ in 0..SUMS {
            sum = self.state.graph.next(sum);
            if sum == factor {
                break;
            }
            self.state.spend(1);
            if self.is_new_sum(other, sum) && self.may_stand_for(sum, factor)? {
                found.push(Pair {
                    left: other,
                    right: sum,
                })?;
            }
        }
        Ok(())
    }

    /// Whether a term is a sum, and its product with another one does not stand yet.
    fn is_new_sum(&self, other: usize, sum: usize) -> bool {
        let is_sum = matches!(
            self.state.terms.shape(sum),
            Shape::Sum(..) | Shape::Multiple(..)
        );
        is_sum
            && self
                .state
                .terms
                .find(Made::Two(Op::Times, other, sum))
                .is_none()
    }

    /// Whether a sum may be put in place of a factor. Where comparisons come first, one with a product of that factor may
    /// not.
    fn may_stand_for(&self, sum: usize, factor: usize) -> Result<bool, AllocError> {
        match self.preference {
            Preference::Sums => Ok(true),
            Preference::Comparisons => Ok(!self.leads_back(sum, factor)?),
        }
    }

    /// Whether a sum has a product of a number that is equal to this one.
    fn leads_back(&self, sum: usize, factor: usize) -> Result<bool, AllocError> {
        let products = self.products_in(sum)?;
        for product in products.iter() {
            for place in [0, 1] {
                if let Some(part) = self.state.terms.part(*product, place) {
                    if self.state.graph.are_equal(part, factor) {
                        return Ok(true);
                    }
                }
            }
        }
        Ok(false)
    }

    /// The members of a sum that are products of unknowns, as far as it is looked at.
    fn products_in(&self, sum: usize) -> Result<Vec<usize>, AllocError> {
        let mut found = Vec::new(self.state.alloc);
        let mut waiting = vec![in self.state.alloc; sum]?;
        for _ in 0..SUMS {
            let Some(term) = waiting.pop() else {
                break;
            };
            match self.state.terms.shape(term) {
                Shape::Sum(a, b) => {
                    waiting.push(a)?;
                    waiting.push(b)?;
                }
                Shape::Multiple(_, a) => waiting.push(a)?,
                _ => {
                    if self.state.terms.op(term) == Some(Op::Times) {
                        found.push(term)?;
                    }
                }
            }
        }
        Ok(found)
    }

    fn round_of_pair(&self, pair: Pair) -> u32 {
        let left = self.state.instances.round(pair.left);
        left.max(self.state.instances.round(pair.right))
    }

    /// Whether a product of two terms may be made.
    pub fn may_multiply(&self, pair: Pair) -> bool {
        self.products > 0 && self.state.instances.is_within(self.round_of_pair(pair))
    }

    /// Has a product be known, of which a factor is equal to a factor of another.
    pub fn multiply(&mut self, pair: Pair) -> Result<(), AllocError> {
        let round = self.round_of_pair(pair);
        let Pair { left, right } = pair;
        let node = self.state.terms.add_two(Op::Times, left, right)?;
        self.state
            .instances
            .set_round(node, round.saturating_add(1))?;
        self.state.meet(node)?;
        self.state.normalize(node)
    }

    /// The node of a side.
    fn operand(&mut self, operand: Operand) -> Result<usize, AllocError> {
        match operand {
            Operand::Term(term) => Ok(term),
            Operand::Number(number) => self.state.terms.add_number(number),
            Operand::Next(term) => {
                let one = self.state.terms.add_number(1)?;
                self.state.two(Op::Plus, term, one)
            }
        }
    }

    fn factor(&mut self, factor: Factor) -> Result<usize, AllocError> {
        if factor.is_opposite {
            let sign = self.state.terms.add_number(-1)?;
            self.state.two(Op::Times, sign, factor.term)
        } else {
            Ok(factor.term)
        }
    }

    /// Adds the clause of a comparison. Whether it is new.
    pub fn compare(&mut self, comparison: Comparison) -> Result<bool, AllocError> {
        let low = self.operand(comparison.low)?;
        let high = self.operand(comparison.high)?;
        let factor = self.factor(comparison.factor)?;
        let low = self.state.two(Op::Times, low, factor)?;
        let high = self.state.two(Op::Times, high, factor)?;
        self.state.normalize(low)?;
        self.state.normalize(high)?;
        self.state.compare_products(low, high)
    }
}
