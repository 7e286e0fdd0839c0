//! Sequents: terms and formulas as nodes of a table, with their sorts and what they mean; the kinds of
//! obligation; and the lines of the logs that prove sequents. `Nodes` owns the nodes of a declaration, whose
//! sequents share its first ones (`Front`); `Over` numbers on from lent ones. All are read as a `NodeTable`,
//! and those that grow are an `Arena`. Truths are compared by `iff` alone: an equality of them would have no clauses
//! that say what it means, and that a truth is a `bool` is no formula. What a node is by its base and its constant
//! is kept with it, since many sequents share it.
#![tactic(auto)]

mod arena;
mod draft;
mod formulas;
mod front;
mod key;
mod law;
mod lent;
mod log;
mod node;
mod node_table;
mod nodes;
mod offset;
mod over;
mod own_nodes;
mod part_lists;
mod sequent;
mod sorting;
mod symbol;
mod world;

pub use arena::Arena;
pub use df_meaning::Kind;
pub use draft::Draft;
pub use formulas::Formulas;
pub use front::Front;
pub use law::{one_numbering, one_sequent};
pub use log::{Combination, Lit, Multiple, Pair, Step};
pub use node::{Formula, Free, Node, Op, Sort, Term};
pub use node_table::NodeTable;
pub use nodes::Nodes;
pub use offset::Offset;
pub use over::Over;
pub use sequent::Sequent;
pub use sorting::sort_of_type;
pub use symbol::{Pattern, Payload, PayloadKind, Symbol, SymbolEntry, SymbolRow, symbols};
pub use world::World;
