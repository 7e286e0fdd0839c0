//! How searches end, where what they find is what it says.

use df_axiom::Written;
use df_form::Sequent;
use df_kern::check;
use df_search::{Budget, Found, search};
use df_table::{Table, is_model};
use df_trig::instances;
use std::alloc::Global;

/// How a search ends.
#[derive(Clone, Copy, PartialEq, Eq)]
pub(crate) enum Ending {
    Proved,
    Modelled,
    Spent,
    Wide,
    Many,
}

/// What is found in so many steps, at least one, with so many rounds of instances.
pub(crate) fn search_to(
    alloc: Global,
    sequent: &Sequent,
    steps: u64,
    rounds: u32,
) -> Option<Found> {
    if steps == 0 {
        return None;
    }
    search(alloc, sequent, Budget { steps, rounds }).ok()
}

/// Whether a table is a model of the sequent's ground set after so many rounds.
fn models(alloc: Global, sequent: &Sequent, table: &Table, rounds: u32) -> bool {
    match instances(alloc, sequent, &Written {}, rounds) {
        Ok(set) => is_model(&set, table),
        Err(_) => false,
    }
}

/// Whether the kernel takes the log, or the table is a model.
fn is_sound(alloc: Global, sequent: &Sequent, found: &Found, rounds: u32) -> bool {
    match found {
        Found::Proved { log, .. } => check(alloc, sequent, log).is_ok(),
        Found::Modelled(table) => models(alloc, sequent, table, rounds),
        Found::Spent(_) | Found::Wide { .. } | Found::Many(_) => true,
    }
}

fn name(found: &Found) -> Ending {
    match found {
        Found::Proved { .. } => Ending::Proved,
        Found::Modelled(_) => Ending::Modelled,
        Found::Spent(_) => Ending::Spent,
        Found::Wide { .. } => Ending::Wide,
        Found::Many(_) => Ending::Many,
    }
}

/// Whether what is found is of this kind, and sound.
fn is_end(alloc: Global, sequent: &Sequent, found: &Found, rounds: u32, wanted: Ending) -> bool {
    name(found) == wanted && is_sound(alloc, sequent, found, rounds)
}

/// Whether a search ends so, where the kernel takes its log, and its table is a model.
pub(crate) fn ends(
    alloc: Global,
    sequent: &Sequent,
    steps: u64,
    rounds: u32,
    wanted: Ending,
) -> bool {
    match search_to(alloc, sequent, steps, rounds) {
        Some(found) => is_end(alloc, sequent, &found, rounds, wanted),
        None => false,
    }
}
