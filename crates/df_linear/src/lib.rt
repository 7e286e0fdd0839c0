//! What linear arithmetic sees of formulas: nodes as sums of multiples of columns, comparisons as bounds of columns, and
//! the variables that formulas are. Nothing is proved of it but that it is safe and ends.
#![tactic(auto)]

mod forms;
mod variables;

pub use df_index::{Ends, Index, Made, MadeNodes, Shape, Terms, definition, definitions};
pub use forms::{Atom, Column, Forms, Maker, Meaning};
pub use variables::Variables;
