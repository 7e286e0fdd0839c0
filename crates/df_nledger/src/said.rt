//! What is said on the way.

use df_base::Pos;
use df_form::{Formula, Kind};

/// A formula that is known from here on; one that is owed by a kind at a place is so behind it.
#[derive(Clone, Copy)]
pub enum Said {
    Known(Formula),
    Owed {
        pos: Pos,
        kind: Kind,
        formula: Formula,
    },
}
