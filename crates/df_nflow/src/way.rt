//! Ways that come together.

use df_form::{Formula, Term};
use df_nlocals::Changed;

/// A term that a local had, or is to have.
#[derive(Clone, Copy)]
pub(crate) struct Kept {
    pub(crate) local: usize,
    pub(crate) term: Term,
}

/// A way that waits where it joins others: the formula of the runs that come by it, the terms of the locals that are
/// joined there, and what leads from the terms before a branch to those at its end, the last first.
#[derive(Drop)]
pub(crate) struct Arrived {
    pub(crate) path: Option<Formula>,
    pub(crate) terms: Vec<Term>,
    pub(crate) ahead: Vec<Kept>,
}

/// The locals of which ways out keep their terms: those of the loop around, and those of the method.
#[derive(Clone, Copy)]
pub(crate) struct Exits<'a> {
    pub(crate) in_loop: &'a [Changed],
    pub(crate) in_method: &'a [Changed],
}

/// Whether runs go on to the next statement, and whether some that came may not.
#[derive(Clone, Copy)]
pub(crate) struct Onward {
    pub(crate) goes_on: bool,
    pub(crate) loses: bool,
}
