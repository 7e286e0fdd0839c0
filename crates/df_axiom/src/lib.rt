//! Schemas: clauses that are true whatever the free terms are, as data. A template says what the terms
//! of an instance are to be, which nodes its clause needs, and the clause.
#![tactic(auto)]

mod building;
mod choosing;
mod instances;
mod law;
mod matching;
mod schemas;
mod table;
mod templates;
mod type_templates;

pub use choosing::{begins_with, schema_template};
pub use instances::{AxiomFault, clause, instance, settle};
pub use law::instances_are_true;
pub use schemas::{Schemas, Written};
pub use table::{
    CODE_OF_CHARACTER, FACTOR_GOES_IN, FACTORS_CHANGE, FACTORS_JOIN, LITERAL_COMES_FIRST,
    PARTS_OF_REMAINDER, PRODUCT_AT_LEAST, PRODUCTS_COMPARE, REMAINDER_BELOW,
    REMAINDER_BELOW_OPPOSITE, SchemaRow, rows,
};
pub use templates::{Need, Piece, Row, Source, Template, Test};
