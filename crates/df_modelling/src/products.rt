//! Products that are not what their factors make them: which comparisons of products exclude that.

use crate::candidate::Candidate;
use df_form::{Op, Pair};
use df_simplex::Side;
use df_theory::Made;
use std::alloc::AllocError;

/// How many products that do not stand are thought of.
const CROSSES: usize = 64;

/// A product of two terms, and the numbers of all three.
#[derive(Clone, Copy)]
pub struct Product {
    pub left: usize,
    pub right: usize,
    left_number: i128,
    right_number: i128,
    number: i128,
}

/// A term and its number.
#[derive(Clone, Copy)]
struct Numbered {
    term: usize,
    number: i128,
}

/// A first factor, its number, and the number of its product with another.
#[derive(Clone, Copy)]
struct Scaled {
    term: usize,
    number: i128,
    product: i128,
}

/// A product as a first factor and a second one, which is at least 0; that may be the opposite of a term.
#[derive(Clone, Copy)]
struct View {
    scaled: Scaled,
    factor: Factor,
    factor_number: i128,
}

/// A term, or -1 times a term.
#[derive(Clone, Copy, PartialEq, Eq)]
pub struct Factor {
    pub term: usize,
    pub is_opposite: bool,
}

/// What a factor is compared with.
#[derive(Clone, Copy)]
enum Kind {
    /// Its bound that no decision gave.
    SettledEnd,
    /// 0, 1 or -1.
    Small,
    /// Its bound.
    End,
    /// The number that it has.
    Own,
}

/// A side of a comparison.
#[derive(Clone, Copy)]
pub enum Operand {
    Term(usize),
    /// One more than a term.
    Next(usize),
    Number(i128),
}

/// If the low side is at most the high one, so are their products with a factor of at least 0.
#[derive(Clone, Copy)]
pub struct Comparison {
    pub low: Operand,
    pub high: Operand,
    pub factor: Factor,
}

impl Product {
    /// Whether the number is what those of the factors make it.
    pub fn is_right(&self) -> bool {
        self.left_number.checked_mul(self.right_number) == Some(self.number)
    }

    /// What the factors make the product.
    fn made(&self) -> Option<i128> {
        self.left_number.checked_mul(self.right_number)
    }

    fn factor(&self, is_right: bool) -> Numbered {
        if is_right {
            Numbered {
                term: self.right,
                number: self.right_number,
            }
        } else {
            Numbered {
                term: self.left,
                number: self.left_number,
            }
        }
    }

    /// Whether one of the factors is a factor of another product.
    fn shares_factor(&self, other: &Product) -> bool {
        let is_left = self.left == other.left || self.left == other.right;
        is_left || self.right == other.left || self.right == other.right
    }

    /// Whether the product is less far above one of other factors than their factors make it.
    fn is_too_near(&self, low: &Product) -> Option<bool> {
        if self.shares_factor(low) {
            return None;
        }
        let distance = self.number.checked_sub(low.number)?;
        let wanted = self.made()?.checked_sub(low.made()?)?;
        Some(distance < wanted)
    }

    /// A factor of this product and one of a lower one, if their product lies between what the factors of each make it.
    fn cross(&self, low: &Product, is_right: bool, is_low_right: bool) -> Option<Pair> {
        let factor = self.factor(is_right);
        let other = low.factor(is_low_right);
        let product = factor.number.checked_mul(other.number)?;
        if low.made()? <= product && product <= self.made()? {
            Some(Pair {
                left: factor.term,
                right: other.term,
            })
        } else {
            None
        }
    }

    /// The product with one of its factors as the second.
    fn view(&self, is_turned: bool) -> Option<View> {
        let (term, number, other, factor_number) = if is_turned {
            (self.right, self.right_number, self.left, self.left_number)
        } else {
            (self.left, self.left_number, self.right, self.right_number)
        };
        let is_opposite = factor_number < 0;
        let sign = if is_opposite { -1 } else { 1 };
        Some(View {
            scaled: Scaled {
                term,
                number,
                product: self.number.checked_mul(sign)?,
            },
            factor: Factor {
                term: other,
                is_opposite,
            },
            factor_number: factor_number.checked_mul(sign)?,
        })
    }
}

impl View {
    /// The side on which a bound of the first factor may bring the product back.
    fn side(&self) -> Side {
        match self.scaled.number.checked_mul(self.factor_number) {
            Some(product) if product < self.scaled.product => Side::Upper,
            _ => Side::Lower,
        }
    }

    /// The comparison with a number, if the numbers of the products break it.
    fn with_number(&self, number: i128) -> Option<Comparison> {
        let product = number.checked_mul(self.factor_number)?;
        if number <= self.scaled.number && self.scaled.product < product {
            return Some(Comparison {
                low: Operand::Number(number),
                high: Operand::Term(self.scaled.term),
                factor: self.factor,
            });
        }
        if self.scaled.number <= number && product < self.scaled.product {
            return Some(Comparison {
                low: Operand::Term(self.scaled.term),
                high: Operand::Number(number),
                factor: self.factor,
            });
        }
        None
    }

    /// The comparison with another product of the factor, if the numbers of the products break it.
    fn with_other(&self, other: &View) -> Option<Comparison> {
        if self.factor != other.factor || self.scaled.term == other.scaled.term {
            return None;
        }
        if self.scaled.number <= other.scaled.number {
            self.below(other)
        } else {
            other.below(self)
        }
    }

    /// The comparison with another product of the factor, whose first factor is at least this one's.
    fn below(&self, other: &View) -> Option<Comparison> {
        let high = Operand::Term(other.scaled.term);
        if other.scaled.product < self.scaled.product {
            return Some(Comparison {
                low: Operand::Term(self.scaled.term),
                high,
                factor: self.factor,
            });
        }
        let next = self.scaled.product.checked_add(self.factor_number)?;
        if self.scaled.number < other.scaled.number && other.scaled.product < next {
            return Some(Comparison {
                low: Operand::Next(self.scaled.term),
                high,
                factor: self.factor,
            });
        }
        None
    }
}

impl<'a> Candidate<'a> {
    /// The products, with their numbers.
    pub fn products(&self) -> Result<Vec<Product>, AllocError> {
        let mut products = Vec::new(self.alloc);
        for &node in self.operations.iter() {
            if let Some(product) = self.product_of(node) {
                products.push(product)?;
            }
        }
        Ok(products)
    }

    /// The product that an operation is, if it is one and all three have numbers.
    fn product_of(&self, node: usize) -> Option<Product> {
        if self.terms.op(node) != Some(Op::Times) {
            return None;
        }
        let left = self.terms.part(node, 0)?;
        let right = self.terms.part(node, 1)?;
        Some(Product {
            left,
            right,
            left_number: self.theory.value(left)?,
            right_number: self.theory.value(right)?,
            number: self.theory.value(node)?,
        })
    }

    /// The comparison by which the product has the sign that its factors give it.
    fn comparison_of_signs(&self, product: &Product) -> Option<Comparison> {
        let straight = product.view(false)?;
        match straight.with_number(0) {
            Some(found) => Some(found),
            None => product.view(true)?.with_number(0),
        }
    }

    fn comparison(&self, product: &Product, products: &[Product]) -> Option<Comparison> {
        match self.lasting_comparison(product, products) {
            Some(found) => Some(found),
            None => self.comparison_with_number(product, [Kind::End, Kind::Own]),
        }
    }

    /// The comparison with another product, or with a number that no decision gave.
    fn lasting_comparison(&self, product: &Product, products: &[Product]) -> Option<Comparison> {
        for is_turned in [false, true] {
            let view = product.view(is_turned)?;
            for other in products {
                for is_other_turned in [false, true] {
                    let found = view.with_other(&other.view(is_other_turned)?);
                    if found.is_some() {
                        return found;
                    }
                }
            }
        }
        self.comparison_with_number(product, [Kind::SettledEnd, Kind::Small])
    }

    /// Whether a product that is not right has a comparison with another one, or with a number that no decision gave.
    pub fn has_lasting_comparison(&self, products: &[Product]) -> bool {
        for product in products {
            if !product.is_right() && self.lasting_comparison(product, products).is_some() {
                return true;
            }
        }
        false
    }

    /// The comparison with a number of these kinds, of which the first comes first.
    fn comparison_with_number(&self, product: &Product, kinds: [Kind; 2]) -> Option<Comparison> {
        let straight = product.view(false)?;
        let turned = product.view(true)?;
        for kind in kinds {
            for view in [straight, turned] {
                let found = self.comparison_of(&view, kind);
                if found.is_some() {
                    return found;
                }
            }
        }
        None
    }

    fn comparison_of(&self, view: &View, kind: Kind) -> Option<Comparison> {
        let term = view.scaled.term;
        match kind {
            Kind::SettledEnd => view.with_number(self.theory.end(term, view.side(), true)?),
            Kind::End => view.with_number(self.theory.end(term, view.side(), false)?),
            Kind::Own => view.with_number(view.scaled.number),
            Kind::Small => match view.with_number(0) {
                Some(found) => Some(found),
                None => match view.with_number(1) {
                    Some(found) => Some(found),
                    None => view.with_number(-1),
                },
            },
        }
    }

    /// Comparisons that exclude the signs that products have.
    pub fn comparisons_of_signs(
        &self,
        products: &[Product],
    ) -> Result<Vec<Comparison>, AllocError> {
        let mut comparisons = Vec::new(self.alloc);
        for product in products {
            if !product.is_right() {
                if let Some(comparison) = self.comparison_of_signs(product) {
                    comparisons.push(comparison)?;
                }
            }
        }
        Ok(comparisons)
    }

    /// Comparisons that exclude the numbers that products have.
    pub fn comparisons(&self, products: &[Product]) -> Result<Vec<Comparison>, AllocError> {
        let mut comparisons = Vec::new(self.alloc);
        for product in products {
            if !product.is_right() {
                if let Some(comparison) = self.comparison(product, products) {
                    comparisons.push(comparison)?;
                }
            }
        }
        Ok(comparisons)
    }

    /// Factors, each of one of two products that are too near to each other, by whose product these two are to be compared.
    pub fn crosses(&self, products: &[Product]) -> Result<Vec<Pair>, AllocError> {
        let mut crosses = Vec::new(self.alloc);
        for product in products {
            for low in products {
                if crosses.len() < CROSSES && product.is_too_near(low) == Some(true) {
                    self.add_crosses(product, low, &mut crosses)?;
                }
            }
        }
        Ok(crosses)
    }

    /// Adds the factors of two products whose product lies between them, and does not stand yet.
    fn add_crosses(
        &self,
        product: &Product,
        low: &Product,
        crosses: &mut Vec<Pair>,
    ) -> Result<(), AllocError> {
        for is_right in [false, true] {
            for is_low_right in [false, true] {
                if let Some(pair) = product.cross(low, is_right, is_low_right) {
                    if !self.stands(pair) {
                        crosses.push(pair)?;
                    }
                }
            }
        }
        Ok(())
    }

    /// Whether a product of two terms stands, with either factor first.
    fn stands(&self, pair: Pair) -> bool {
        let Pair { left, right } = pair;
        let straight = self.terms.find(Made::Two(Op::Times, left, right));
        let turned = self.terms.find(Made::Two(Op::Times, right, left));
        straight.is_some() || turned.is_some()
    }
}
