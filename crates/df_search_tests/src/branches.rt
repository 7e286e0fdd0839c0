//! What comes next at the empty branch of a search without instances.

use crate::expecting::expect;
use df_axiom::Written;
use df_branch::{Leaf, ground_sets_are_places, leaf_at};
use df_cases::sequent_of;
use df_form::Sequent;
use df_trig::{instances, instances_are_ground};
use std::alloc::Global;

/// A sequent, and what comes next.
type Case<'a> = (&'a str, &'a str);

const CASES: [Case; 8] = [
    ("| p", "modelled"),
    ("p | q", "modelled"),
    ("p | p", "refuted"),
    ("p q or | p q and", "open"),
    ("x 0 le | x 1 le", "unsolvable"),
    // x = y, so x * x = y * y
    ("x y eq | x x times y y times eq", "incongruent"),
    // x <= y, y <= x, and x * x <= 3, so y * y <= 4: nothing says that x = y
    ("x y le, y x le, x x times 3 le | y y times 4 le", "apart"),
    // -2 minus the greatest number is no number of 128 bits
    ("x max plus -2 le | p", "wide"),
];

/// What comes next at the empty branch.
fn end(alloc: Global, sequent: &Sequent) -> Option<Leaf> {
    ground_sets_are_places();
    instances_are_ground();
    let Ok(ground) = instances(alloc, sequent, &Written {}, 0) else {
        return None;
    };
    let clauses = ground.clauses.as_slice();
    leaf_at(alloc, &ground.nodes, clauses, &ground.nodes, &[]).ok()
}

fn word(leaf: &Leaf) -> &'static str {
    match leaf {
        Leaf::Refuted(_) => "refuted",
        Leaf::Unsolvable { .. } => "unsolvable",
        Leaf::Incongruent { .. } => "incongruent",
        Leaf::Open(_) => "open",
        Leaf::Between { .. } => "between",
        Leaf::Apart { .. } => "apart",
        Leaf::Modelled(_) => "modelled",
        Leaf::Wide => "wide",
        Leaf::Many(_) => "many",
    }
}

/// The word for what comes next at the empty branch.
fn end_word(alloc: Global, sequent: &Sequent) -> &'static str {
    match end(alloc, sequent) {
        Some(leaf) => word(&leaf),
        None => "refused",
    }
}

/// The word for what comes next at the empty branch of the search for the goal.
fn next(alloc: Global, text: &str) -> &'static str {
    match sequent_of(alloc, text) {
        Some(sequent) => end_word(alloc, &sequent),
        None => "no sequent",
    }
}

#[test]
fn ends_as_told(rt: HostRuntime) {
    for (case, (text, wanted)) in CASES.iter().enumerate() {
        expect(&rt, case, next(rt.alloc(), *text) == *wanted);
    }
}
