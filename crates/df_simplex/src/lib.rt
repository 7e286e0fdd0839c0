//! Linear arithmetic over columns of whole numbers: sums of multiples, bounds with what causes each, the
//! propagation of bounds through rows, and the simplex method. Nothing is proved but that it is safe and
//! ends.
#![tactic(auto)]

mod bounds;
mod dividing;
mod linear;
mod rows;
mod simplex;
mod tableau;
mod tableau_row;

pub use bounds::{Bound, Bounds, Cause, Side};
pub use dividing::{exclusion, is_fixed, is_indivisible, residues, room_of};
pub use linear::{Entry, Linear, coefficient_at, combine, content, divided, weighted};
pub use rows::{Derivation, Given, Need, Propagation, Rows};
pub use simplex::Check;
pub use tableau::{Fraction, Tableau};
