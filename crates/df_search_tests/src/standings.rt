//! What the rows of the empty list of a search without instances come to, whatever clauses are open.

use crate::expecting::expect;
use df_axiom::Written;
use df_branch::{Standing, ground_sets_are_places, standing_at};
use df_cases::sequent_of;
use df_form::Sequent;
use df_trig::{instances, instances_are_ground};
use std::alloc::Global;

/// A sequent, numbers that are tried as a point, and what the rows come to. In 5 <= x the node 1 is x.
type Case<'a> = (&'a str, &'a [i128], &'a str);

const CASES: [Case; 9] = [
    // there are no rows, with an open clause or without
    ("| p", &[], "met"),
    ("p q or | p", &[], "met"),
    // they are met where all numbers are 0
    ("x 0 le | p", &[], "met"),
    // by the point, or by the one that back substitution gives
    ("5 x le | p", &[0, 5], "met"),
    ("5 x le | p", &[5], "point"),
    ("5 x le | p", &[], "point"),
    ("p | p", &[], "refuted"),
    ("x 0 le | x 1 le", &[7], "unsolvable"),
    // -2 minus the greatest number is no number of 128 bits
    ("x max plus -2 le | p", &[], "wide"),
];

/// What the rows of the empty list come to.
fn outcome(alloc: Global, sequent: &Sequent, point: &[i128]) -> Option<Standing> {
    ground_sets_are_places();
    instances_are_ground();
    let Ok(ground) = instances(alloc, sequent, &Written {}, 0) else {
        return None;
    };
    let clauses = ground.clauses.as_slice();
    standing_at(alloc, clauses, &ground.nodes, &[], point).ok()
}

fn word(standing: &Standing) -> &'static str {
    match standing {
        Standing::Stands(None) => "met",
        Standing::Stands(Some(_)) => "point",
        Standing::Refuted(_) => "refuted",
        Standing::Unsolvable { .. } => "unsolvable",
        Standing::Wide => "wide",
        Standing::Many(_) => "many",
    }
}

/// The word for what the rows of the empty list come to.
fn outcome_word(alloc: Global, sequent: &Sequent, point: &[i128]) -> &'static str {
    match outcome(alloc, sequent, point) {
        Some(standing) => word(&standing),
        None => "refused",
    }
}

/// The word for what the rows of the empty list of the search for the goal come to.
fn told(alloc: Global, text: &str, point: &[i128]) -> &'static str {
    match sequent_of(alloc, text) {
        Some(sequent) => outcome_word(alloc, &sequent, point),
        None => "no sequent",
    }
}

#[test]
fn stands_as_told(rt: HostRuntime) {
    for (case, (text, point, wanted)) in CASES.iter().enumerate() {
        expect(&rt, case, told(rt.alloc(), *text, *point) == *wanted);
    }
}
