//! What tabulating the numbers of nodes gives.

use df_table::Table;

/// The numbers of all nodes.
#[derive(Drop)]
pub enum Valuation {
    Table(Table),
    /// The number of a sum or a product is past 128 bits.
    Wide,
}
