//! Searches for proofs of sequents with products, quotients, remainders and characters.

use crate::endings::{Ending, ends};
use crate::expecting::expect;
use df_cases::sequent_of;
use std::alloc::Global;

/// A sequent, how many rounds of instances there may be, and how the search ends.
type Case<'a> = (&'a str, u32, Ending);

const CASES: [Case; 18] = [
    // x = y, so z / x = z / y
    ("x y eq | z x div z y div eq", 0, Ending::Proved),
    // x <= y and y <= x, so x * x = y * y: that x = y stands nowhere
    ("x y le, y x le | x x times y y times eq", 0, Ending::Proved),
    // chr(x) = chr(y), so code(chr(x)) <= code(chr(y))
    (
        "x chr y chr eq | x chr code y chr code le",
        0,
        Ending::Proved,
    ),
    // a table may give x * y and y * x any numbers
    ("| x y times y x times eq", 0, Ending::Modelled),
    // with instances they are equal
    ("| x y times y x times eq", 2, Ending::Proved),
    // a table may give x mod y any number
    ("| 0 x y mod le", 0, Ending::Modelled),
    // 0 <= x mod 7 with instances
    ("| 0 x 7 mod le", 1, Ending::Proved),
    // (x + 1) * (x + 1) = x * x + (2 * x + 1)
    (
        "| x 1 plus x 1 plus times x x times 2 x times 1 plus plus eq",
        2,
        Ending::Proved,
    ),
    // 0 <= x * x
    ("| 0 x x times le", 2, Ending::Proved),
    // x * x is not always 1 or more
    ("| 1 x x times le", 2, Ending::Modelled),
    // 2 * (x / 2) <= x
    ("| 2 x 2 div times x le", 2, Ending::Proved),
    // 0 <= x and 0 <= y, so 0 <= x * y
    ("0 x le, 0 y le | 0 x y times le", 2, Ending::Proved),
    // a step of the greatest common divisor: 0 <= y and not y = 0, so x mod y < y
    (
        "0 y le, y 0 eq not | x y mod 1 plus y le",
        1,
        Ending::Proved,
    ),
    // a step of a square root: y = (x + 1) * (x + 1), so y + (2 * (x + 1) + 1) = (x + 2) * (x + 2)
    (
        "y x 1 plus x 1 plus times eq | y 2 x 1 plus times 1 plus plus x 2 plus x 2 plus times eq",
        4,
        Ending::Proved,
    ),
    // a fourth power by two squares: (x * x) * (x * x) = x * (x * (x * x))
    (
        "| x x times x x times times x x x x times times times eq",
        4,
        Ending::Proved,
    ),
    // a step of a sum of digits: (x + y) mod 9 = (x + (y mod 10 + y div 10)) mod 9
    (
        "| x y plus 9 mod x y 10 mod y 10 div plus plus 9 mod eq",
        4,
        Ending::Proved,
    ),
    // code(chr(x)) is not always x
    ("| x chr code x eq", 2, Ending::Modelled),
    // -2 minus the greatest number is no number of 128 bits
    ("x max plus -2 le | p", 0, Ending::Wide),
];

/// Whether the search of a thousand steps ends so.
fn ends_so(alloc: Global, text: &str, rounds: u32, wanted: Ending) -> bool {
    match sequent_of(alloc, text) {
        Some(sequent) => ends(alloc, &sequent, 1000, rounds, wanted),
        None => false,
    }
}

#[test]
fn searches_with_operations(rt: HostRuntime) {
    for (case, (text, rounds, wanted)) in CASES.iter().enumerate() {
        let is_right = ends_so(rt.alloc(), *text, *rounds, *wanted);
        expect(&rt, case, is_right);
    }
}
