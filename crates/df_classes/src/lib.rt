//! Classes of equal nodes: the least congruence of equalities, labels that are closed under operations, literals
//! that are held with their equalities and are taken back, and signs and numbers of classes, by which it is seen
//! that no literals clash.
#![tactic(auto)]

mod closing;
mod holding;
mod lists;
mod partition;
mod quiet;
mod reading;
mod signs;
mod slots;
mod stamps;
mod users;

ghost use Rattle.df_classes.specs.Laws.{LabelsAreExact};

pub use closing::{are_alike, join};
pub use holding::{Holding, Level};
pub use lists::Lists;
pub use partition::{Change, Partition};
pub use quiet::{first_signs, is_surely_quiet};
pub use reading::{is_denied, number, sides};
pub use signs::Signs;
pub use users::users_of;

/// Labels of classes that are closed under operations are those of the least congruence.
pub fn labels_are_exact()
    ensures { LabelsAreExact }
{}
