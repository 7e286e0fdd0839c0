//! Searches for proofs.

use crate::endings::{Ending, ends};
use crate::expecting::expect;
use df_cases::sequent_of;
use df_form::Sequent;
use df_search::{Budget, Engine, Found, search_with};
use std::alloc::Global;
use std::mem::forget;

/// x < 5 < x or x < 6 < x, for a byte x: then x < x.
const EITHER: &str =
    "x is:byte, 5 x le not x 5 le not and 6 x le not x 6 le not and or | x x le not";

/// A sequent with the goal x < x, how many branches may be closed, and how the search ends.
const SEARCHES: [(&str, u64, Ending); 5] = [
    ("x is:byte | x x le not", 1, Ending::Modelled),
    ("x is:byte | x x le not", 1000, Ending::Modelled),
    ("x is:byte, x x le not | x x le not", 1, Ending::Proved),
    // one of the two is true, and then the other
    (EITHER, 1, Ending::Proved),
    (EITHER, 2, Ending::Proved),
];

/// Whether the search ends so, with one round of instances.
fn ends_so(alloc: Global, text: &str, steps: u64, wanted: Ending) -> bool {
    match sequent_of(alloc, text) {
        Some(sequent) => ends(alloc, &sequent, steps, 1, wanted),
        None => false,
    }
}

#[test]
fn searches_for_proofs(rt: HostRuntime) {
    for (number, (text, steps, wanted)) in SEARCHES.iter().enumerate() {
        expect(&rt, number, ends_so(rt.alloc(), *text, *steps, *wanted));
    }
}

fn is_proof(found: &Found) -> bool {
    match found {
        Found::Proved { .. } => true,
        Found::Modelled(_) | Found::Spent(_) | Found::Wide { .. } | Found::Many(_) => false,
    }
}

/// Whether the sequent is proved with the engine.
fn is_proved(alloc: Global, engine: &mut Engine, sequent: &Sequent) -> bool {
    let budget = Budget {
        steps: 1000,
        rounds: 1,
    };
    match search_with(alloc, engine, sequent, budget) {
        Ok(found) => is_proof(&found),
        Err(_) => false,
    }
}

/// Whether two searches prove the sequent, of which the second finds what the first one learned.
fn are_proved(alloc: Global, engine: &mut Engine, sequent: &Sequent) -> bool {
    is_proved(alloc, engine, sequent) && is_proved(alloc, engine, sequent)
}

/// Whether they do with a new engine. It is not dropped: all that is in it would have to be proved to be.
fn are_proved_by_one(alloc: Global, sequent: &Sequent) -> bool {
    let mut engine = Engine::new(alloc);
    let are_proved = are_proved(alloc, &mut engine, sequent);
    forget(engine);
    are_proved
}

fn proves_twice(alloc: Global) -> bool {
    match sequent_of(alloc, EITHER) {
        Some(sequent) => are_proved_by_one(alloc, &sequent),
        None => false,
    }
}

#[test]
fn shares_an_engine(rt: HostRuntime) {
    assert!(rt; proves_twice(rt.alloc()));
}
