//! The schemas that the engine tells apart, by their numbers. A number is taken from its row here, once: what
//! names a row carries its whole table.

use df_axiom::{
    CODE_OF_CHARACTER, FACTOR_GOES_IN, FACTORS_CHANGE, FACTORS_JOIN, LITERAL_COMES_FIRST,
    PARTS_OF_REMAINDER, PRODUCT_AT_LEAST, PRODUCTS_COMPARE, REMAINDER_BELOW,
    REMAINDER_BELOW_OPPOSITE,
};
use df_clauses::Instance;

/// The parts of a quotient and its remainder.
pub(crate) const PARTS: u8 = PARTS_OF_REMAINDER.schema;

/// A remainder is below a divisor above 0.
pub(crate) const BELOW: u8 = REMAINDER_BELOW.schema;

/// A remainder is below the opposite of a divisor below 0.
pub(crate) const BELOW_OPPOSITE: u8 = REMAINDER_BELOW_OPPOSITE.schema;

/// Factors change places.
pub(crate) const CHANGE: u8 = FACTORS_CHANGE.schema;

/// Factors of a product that is a factor join its others.
pub(crate) const JOIN: u8 = FACTORS_JOIN.schema;

/// A factor goes into a sum.
pub(crate) const GO_IN: u8 = FACTOR_GOES_IN.schema;

/// A literal factor comes first.
pub(crate) const LITERAL_FIRST: u8 = LITERAL_COMES_FIRST.schema;

/// A product of two numbers of at least 0.
pub(crate) const AT_LEAST: u8 = PRODUCT_AT_LEAST.schema;

/// The code of the character of a number.
pub(crate) const CHARACTER: u8 = CODE_OF_CHARACTER.schema;

/// Two products of one second factor.
pub(crate) const COMPARE: Instance = Instance {
    schema: PRODUCTS_COMPARE.schema,
    clause: PRODUCTS_COMPARE.clause,
};
