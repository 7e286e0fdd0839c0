//! What the rules of typing ask of types, and where source expressions stand.
#![tactic(auto)]

mod places;
mod types;

pub use places::{beginning_of, first_group, pos_of, run_begins};
pub use types::{
    are_one_integer, are_ordered, casts, counted, counted_of, fits_or_narrows, is_integer,
    is_truth, literal_type, one_fits, same_type,
};
