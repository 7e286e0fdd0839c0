//! Linear arithmetic over the columns of formulas: the literals that bounds imply, the explanation of bounds by literals,
//! division and cuts. Nothing is proved of it but that it is safe and ends.
#![tactic(auto)]

mod choosing;
mod cutting;
mod dividing;
mod explaining;
mod explanation;
mod grouping;
mod kept;
mod theory;

pub use choosing::Facts;
pub use cutting::Cut;
pub use df_linear::{
    Atom, Column, Ends, Forms, Index, Made, MadeNodes, Meaning, Shape, Terms, Variables,
    definition, definitions,
};
pub use explanation::Explained;
pub use kept::Kept;
pub use theory::Theory;
