//! The candidate that the engine has.

use df_deduce::State;
use df_modelling::Candidate;

/// What the engine has now.
pub(crate) fn candidate_of<'a>(state: &'a State<'a>) -> Candidate<'a> {
    Candidate {
        alloc: state.alloc,
        terms: &state.terms,
        variables: &state.variables,
        trail: &state.solver.trail,
        theory: &state.theory,
        graph: &state.graph,
        operations: state.instances.operations(),
        rounds: state.instances.rounds,
    }
}
