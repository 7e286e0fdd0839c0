//! What new engines propose.

use df_form::Sequent;
use df_solve::{Counted, Engine, propose_counted};
use std::alloc::Global;

/// What a new engine proposes for a sequent with so many rounds of instances, and how many conflicts come before. No other
/// function owns an engine, since each that does has all that is in it dropped.
pub(crate) fn proposed(alloc: Global, sequent: &Sequent, rounds: u32) -> Option<Counted> {
    let mut engine = Engine::new(alloc);
    propose_counted(alloc, &mut engine, sequent, 1_000, rounds).ok()
}
