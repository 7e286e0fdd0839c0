//! Searches without hypotheses, for goals that are never or always true, and over the least and the greatest number.

use crate::endings::{Ending, ends};
use crate::expecting::expect;
use df_cases::sequent_of;
use std::alloc::Global;

/// How many branches may be closed.
const STEPS: u64 = 16;

/// A sequent, and how the search ends without rounds of instances.
type Case<'a> = (&'a str, Ending);

const CASES: [Case; 18] = [
    // all of no formulas are true, and one of none is
    ("| and:0", Ending::Proved),
    ("| or:0", Ending::Modelled),
    ("and:0 | p", Ending::Modelled),
    ("or:0 | p", Ending::Proved),
    ("p | or:0", Ending::Modelled),
    ("p, p not | or:0", Ending::Proved),
    // each number is at most itself: the row is 0 <= -1
    ("| min min le", Ending::Proved),
    ("| max max le", Ending::Proved),
    // that the least number is above the greatest is 0 <= -2^128
    ("| min max le", Ending::Wide),
    // they add up to -1
    ("| max min plus -1 eq", Ending::Proved),
    // the greatest number, once
    ("| max 1 times max le", Ending::Proved),
    // the opposite of the least number is above the greatest one, and no table has it
    ("| min -1 times max le", Ending::Wide),
    // x times the greatest number is at most 0, so x is
    ("max x times 0 le | x 0 le", Ending::Proved),
    // the row of x times the least number has the opposite of that
    ("min x times min le | 1 x le", Ending::Wide),
    // x is at least the greatest number, and then it may be the next one
    ("max x le | x max le", Ending::Wide),
    // x is the greatest number
    ("max x le, x max le | p", Ending::Modelled),
    // x is at most the least number
    ("x min le | p", Ending::Modelled),
    // so x + 1 is at most 1 more
    ("x min le | x 1 plus min 1 plus le", Ending::Proved),
];

/// Whether the search ends so.
fn ends_so(alloc: Global, text: &str, wanted: Ending) -> bool {
    match sequent_of(alloc, text) {
        Some(sequent) => ends(alloc, &sequent, STEPS, 0, wanted),
        None => false,
    }
}

#[test]
fn searches_at_the_ends(rt: HostRuntime) {
    for (case, (text, wanted)) in CASES.iter().enumerate() {
        expect(&rt, case, ends_so(rt.alloc(), *text, *wanted));
    }
}
