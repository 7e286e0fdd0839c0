//! Generated sequents, valid by construction or with a planted model: how many logs and tables of the engine pass
//! their checks, and how many are refused.

use crate::proposals::proposed;
use df_axiom::Written;
use df_cases::{Terms, X, Y, Z, assume, conclude, draft};
use df_form::{Draft, Op, Sequent, Symbol};
use df_kern::check;
use df_solve::Proposal;
use df_table::{Table, is_model};
use df_trig::instances;
use std::alloc::Global;

/// How many sequents there are of each kind.
const COUNT: u64 = 500;

const ROUNDS: u32 = 2;

/// A sequence of numbers that look random.
#[derive(Clone, Copy)]
struct Sequence {
    state: u64,
}

impl Sequence {
    fn below(&mut self, limit: u64) -> u64 {
        let product = self.state.wrapping_mul(6364136223846793005);
        self.state = product.wrapping_add(1442695040888963407);
        (self.state >> 33).checked_rem(limit).unwrap_or(0)
    }

    /// The next number, one of so many from the least one on.
    fn number(&mut self, least: i128, count: u64) -> i128 {
        i128::from(self.below(count)).saturating_add(least)
    }

    fn other(&mut self) -> Sequence {
        Sequence {
            state: self.below(1_000_000_007),
        }
    }
}

/// Puts terms by a sequence, and tells what they are where x, y and z have the planted numbers.
#[derive(Drop)]
struct Maker {
    sequence: Sequence,
    planted: (i128, i128, i128),
    terms: Vec<(Op, usize)>,
}

impl Maker {
    fn new(alloc: Global, state: u64) -> Maker {
        let mut sequence = Sequence { state };
        let x = sequence.number(-10, 21);
        let y = sequence.number(-10, 21);
        let z = sequence.number(-10, 21);
        Maker {
            sequence,
            planted: (x, y, z),
            terms: Vec::new(alloc),
        }
    }

    /// Puts a term, or the operation on the last ones. Where memory is refused they come to no formula.
    fn put(&mut self, op: Op, count: usize) {
        let _ = self.terms.push((op, count));
    }

    fn literal(&mut self, least: i128, count: u64) -> i128 {
        let number = self.sequence.number(least, count);
        self.put(Op::Number(number), 0);
        number
    }

    fn free(&mut self) -> i128 {
        let (x, y, z) = self.planted;
        let (free, number) = match self.sequence.below(3) {
            0 => (X, x),
            1 => (Y, y),
            _ => (Z, z),
        };
        self.put(free, 0);
        number
    }

    /// A free number, a literal, a multiple, a product, a quotient or a remainder.
    fn term(&mut self) -> i128 {
        let kind = self.sequence.below(7);
        let left = match kind {
            2 | 3 => self.literal(-10, 21),
            _ => self.free(),
        };
        if kind < 3 {
            return left;
        }
        let right = match kind {
            3 | 4 => self.free(),
            _ => self.literal(2, 9),
        };
        let (op, number) = match kind {
            3 | 4 => (Op::Times, left.saturating_mul(right)),
            5 => (
                Op::symbol(Symbol::Div),
                left.checked_div_euclid(right).unwrap_or(0),
            ),
            _ => (
                Op::symbol(Symbol::Mod),
                left.checked_rem_euclid(right).unwrap_or(0),
            ),
        };
        self.put(op, 2);
        number
    }

    fn sum(&mut self) -> i128 {
        let left = self.term();
        let right = self.term();
        self.put(Op::Plus, 2);
        left.saturating_add(right)
    }

    fn atom(&mut self) -> bool {
        let is_equality = self.sequence.below(3) == 0;
        let left = self.sum();
        let right = self.sum();
        self.put(if is_equality { Op::Equal } else { Op::AtMost }, 2);
        left == right || (!is_equality && left < right)
    }

    /// A formula, or its negation, that is so where the numbers are planted; the same for the same sequence.
    fn formula(&mut self, sequence: Sequence, wanted: bool) {
        self.sequence = sequence;
        let left = self.atom();
        let right = self.atom();
        let (op, truth) = match self.sequence.below(4) {
            0 => (Op::And, left && right),
            1 => (Op::Or, left || right),
            2 => (Op::Implies, !left || right),
            _ => (Op::Iff, left == right),
        };
        self.put(op, 2);
        if truth != wanted {
            self.put(Op::Not, 1);
        }
    }

    fn assume(&mut self, draft: &mut Draft) {
        let _ = assume(draft, &self.terms);
        self.terms.clear();
    }

    /// Puts two sums, the same for the same sequences.
    fn sums(&mut self, sequences: [Sequence; 2]) {
        for sequence in sequences {
            self.sequence = sequence;
            let _ = self.sum();
        }
    }

    /// Assumes that a sum is at most another where a formula is true, and where it is false; puts that the sum is at
    /// most 1 more.
    fn compare(&mut self, draft: &mut Draft, case: Sequence, sums: [Sequence; 2]) {
        for truth in [true, false] {
            self.formula(case, truth);
            self.sums(sums);
            self.put(Op::AtMost, 2);
            self.put(Op::Implies, 2);
            self.assume(draft);
        }
        self.sums(sums);
        self.put(Op::Number(1), 0);
        self.put(Op::Plus, 2);
        self.put(Op::AtMost, 2);
    }

    /// Assumes formulas, and puts a goal: where a log is wanted one that follows, and else one that is false where the
    /// numbers are planted.
    fn fill(&mut self, draft: &mut Draft, wanted: Answer) {
        let case = self.sequence.other();
        let one = self.sequence.other();
        let other = self.sequence.other();
        if wanted == Answer::Log {
            return self.compare(draft, case, [one, other]);
        }
        self.formula(case, true);
        self.assume(draft);
        self.formula(one, true);
        self.assume(draft);
        self.formula(other, false);
    }
}

/// What came of what the engine proposed.
#[derive(Clone, Copy, PartialEq, Eq)]
enum Answer {
    Log,
    Table,
    Refused,
    Nothing,
}

/// Whether the table is a model of the ground set.
fn models(alloc: Global, sequent: &Sequent, table: &Table) -> bool {
    match instances(alloc, sequent, &Written {}, ROUNDS) {
        Ok(set) => is_model(&set, table),
        Err(_) => false,
    }
}

fn answer_to(alloc: Global, sequent: &Sequent, proposal: &Proposal) -> Answer {
    match proposal {
        Proposal::Proved(log) if check(alloc, sequent, log).is_ok() => Answer::Log,
        Proposal::Modelled(table) if models(alloc, sequent, table) => Answer::Table,
        Proposal::Proved(_) | Proposal::Modelled(_) => Answer::Refused,
        Proposal::GaveUp => Answer::Nothing,
    }
}

fn answer_of(alloc: Global, sequent: &Sequent) -> Answer {
    match proposed(alloc, sequent, ROUNDS) {
        Some(counted) => answer_to(alloc, sequent, &counted.proposal),
        None => Answer::Nothing,
    }
}

fn concluded_answer(alloc: Global, draft: &mut Draft, goal: Terms) -> Answer {
    match conclude(alloc, draft, goal) {
        Some(sequent) => answer_of(alloc, &sequent),
        None => Answer::Nothing,
    }
}

fn drafted_answer(alloc: Global, draft: &mut Draft, state: u64, wanted: Answer) -> Answer {
    let mut maker = Maker::new(alloc, state);
    maker.fill(draft, wanted);
    concluded_answer(alloc, draft, &maker.terms)
}

fn made_answer(alloc: Global, state: u64, wanted: Answer) -> Answer {
    match draft(alloc) {
        Some(mut draft) => drafted_answer(alloc, &mut draft, state, wanted),
        None => Answer::Nothing,
    }
}

/// How many answers are what is wanted, and how many proposals were refused.
fn counts(alloc: Global, wanted: Answer) -> (u64, u64) {
    let mut as_wanted = 0u64;
    let mut refused = 0u64;
    for state in 0..COUNT {
        let answer = made_answer(alloc, state, wanted);
        as_wanted = as_wanted.saturating_add(u64::from(answer == wanted));
        refused = refused.saturating_add(u64::from(answer == Answer::Refused));
    }
    (as_wanted, refused)
}

#[test]
fn takes_what_is_proposed(rt: HostRuntime) {
    for wanted in [Answer::Log, Answer::Table] {
        let (as_wanted, refused) = counts(rt.alloc(), wanted);
        assert!(rt;
            refused == 0 && as_wanted == COUNT,
            "{as_wanted} found, {refused} refused"
        );
    }
}
