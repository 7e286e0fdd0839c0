//! Terms and formulas of expressions in a table of nodes, and the conditions under which expressions have values.
#![tactic(auto)]

mod comparison;
mod condition;
mod encoding;
mod law;
mod making;
mod operation;
mod step;

pub use comparison::{at_most, equal, equal_in, less};
pub use condition::{Condition, narrowed_path, on_path, owe_narrowing};
pub use encoding::{defined, encode, term};
pub use law::{
    made_nodes_are_trees, one_node_for_a_tree, sorts_are_those_of_trees, terms_have_sorts_of_types,
    trees_stay,
};
pub use operation::{
    both, either, free, iff, implies, is_of, literal, negation, negative, number_in, one_of,
    summed, truth, value_in,
};
