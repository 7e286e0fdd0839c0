//! What the engine proposes.

use crate::candidate::candidate_of;
use crate::intake::Intake;
use crate::searching::{Preference, Search, Turn};
use df_deduce::{Kept, State};
use df_form::{NodeTable, Sequent, Step};
use df_modelling::sampled;
use df_record::{Recorder, log_of};
use df_table::Table;
use df_theory::Index;
use std::alloc::{AllocError, Global};
use std::mem::replace;

/// A proof or a counterexample, to be checked.
#[derive(Drop)]
pub enum Proposal {
    /// A log, which is to derive the sequent.
    Proved(Vec<Step>),
    /// A table, which is to be a model of its ground set.
    Modelled(Table),
    GaveUp,
}

/// What the engine proposes, and how many conflicts came before.
#[derive(Drop)]
pub struct Counted {
    pub proposal: Proposal,
    pub conflicts: u64,
}

/// How much work each step of a budget is worth,
const WORK: u64 = 1_000;

/// and how much comes on top.
const BASE: u64 = 10_000_000;

/// What stayed gets this part of the work, before a new search gets all.
const SHARE: u64 = 4;

/// Where a sequent has operations, a first search gets this part of the work,
const FIRST: u64 = 32;

/// and one with the other preference this one, before the first one gets the rest.
const SECOND: u64 = 8;

/// What a search looks for.
#[derive(Clone, Copy)]
enum Aim {
    Log,
    LogOrTable(Preference),
}

/// An engine for the sequents of a declaration in order, of which each has the nodes and the hypotheses of those before
/// it. Each node is met once, and what is known of the hypotheses stays.
#[derive(Drop)]
pub struct Engine {
    index: Index,
    stay: Option<Stay>,
}

/// What a search that has found a log leaves: what is known by the hypotheses that are taken in.
#[derive(Drop)]
struct Stay {
    kept: Kept,
    intake: Intake,
}

/// What a search found, and what stays.
#[derive(Drop)]
struct Ended {
    counted: Counted,
    stay: Option<Stay>,
    /// Whether it is a log, or a table in which all operations are what their parts make them.
    is_settled: bool,
}

impl Ended {
    fn has_table(&self) -> bool {
        match &self.counted.proposal {
            Proposal::Modelled(_) => true,
            Proposal::Proved(_) | Proposal::GaveUp => false,
        }
    }
}

impl Engine {
    /// An engine that knows nothing yet.
    pub fn new(alloc: Global) -> Engine {
        Engine {
            index: Index::new(alloc),
            stay: None,
        }
    }

    /// Whether what stayed serves the sequent.
    fn serves(&self, sequent: &Sequent) -> bool {
        let count = sequent.nodes.len();
        match &self.stay {
            Some(stay) => {
                !self.index.has_operations(count)
                    && stay.kept.fits(count)
                    && stay.intake.len() <= sequent.hypotheses.as_slice().len()
            }
            None => false,
        }
    }

    /// What stayed, if it serves the sequent; nothing stays from here on.
    fn take_stay(&mut self, sequent: &Sequent) -> Option<Stay> {
        if !self.serves(sequent) {
            self.leave(None);
        }
        self.stay.take()
    }

    /// This stays from here on.
    fn leave(&mut self, stay: Option<Stay>) {
        self.stay = stay;
    }

    /// Keeps what stays. What was found.
    fn keep(&mut self, ended: Ended) -> Counted {
        self.leave(ended.stay);
        ended.counted
    }
}

/// Looks for a log that derives the sequent, or for a table model of its ground set. Nothing is promised
/// of either. The more steps, the longer it looks; so many rounds of instances may follow from one another.
pub fn propose(
    alloc: Global,
    engine: &mut Engine,
    sequent: &Sequent,
    steps: u64,
    rounds: u32,
) -> Result<Proposal, AllocError> {
    let counted = propose_counted(alloc, engine, sequent, steps, rounds)?;
    Ok(counted.proposal)
}

/// The same, and how many conflicts there were.
pub fn propose_counted(
    alloc: Global,
    engine: &mut Engine,
    sequent: &Sequent,
    steps: u64,
    rounds: u32,
) -> Result<Counted, AllocError> {
    engine.index.meet(sequent)?;
    let fuel = steps.saturating_mul(WORK).saturating_add(BASE);
    if let Some(stay) = engine.take_stay(sequent) {
        let ended = look_again(alloc, &engine.index, &*sequent, stay, fuel / SHARE)?;
        let counted = engine.keep(ended);
        if let Proposal::Proved(_) = &counted.proposal {
            return Ok(counted);
        }
    }
    let query = Query {
        alloc,
        index: &engine.index,
        sequent: &*sequent,
        fuel,
        rounds,
    };
    let ended = query.look()?;
    Ok(engine.keep(ended))
}

/// What a new search is asked for, over an index that has met the nodes of the sequent: so much work, and so many
/// rounds of instances.
#[derive(Clone, Copy)]
struct Query<'a> {
    alloc: Global,
    index: &'a Index,
    sequent: &'a Sequent<'a>,
    fuel: u64,
    rounds: u32,
}

impl<'a> Query<'a> {
    /// Looks for a log or a table.
    fn look(&self) -> Result<Ended, AllocError> {
        let ended = if self.index.has_operations(self.sequent.nodes.len()) {
            self.look_in_turn()?
        } else {
            self.look_anew(self.fuel, Preference::Sums)?
        };
        self.or_small(ended)
    }

    /// Looks with each preference in turn. Where neither finds a log or a table of real operations, and the first one
    /// gave up, it begins anew with the rest of the work.
    fn look_in_turn(&self) -> Result<Ended, AllocError> {
        let first = self.look_anew(self.fuel / FIRST, Preference::Sums)?;
        if first.is_settled {
            Ok(first)
        } else if first.has_table() {
            self.or_other(first)
        } else {
            self.look_longer()
        }
    }

    /// What the other preference settles, or else the table that was found.
    fn or_other(&self, found: Ended) -> Result<Ended, AllocError> {
        let other = self.look_other()?;
        if other.is_settled {
            Ok(other)
        } else {
            Ok(found)
        }
    }

    /// Looks with the other preference, and where this settles nothing, anew with the rest of the work.
    fn look_longer(&self) -> Result<Ended, AllocError> {
        let other = self.look_other()?;
        if other.is_settled {
            Ok(other)
        } else {
            self.look_last(other)
        }
    }

    /// What the rest of the work settles, or else the table that was found; where there is none, what the rest of the
    /// work comes to.
    fn look_last(&self, found: Ended) -> Result<Ended, AllocError> {
        let rest = self
            .fuel
            .saturating_sub(self.fuel / FIRST)
            .saturating_sub(self.fuel / SECOND);
        let last = self.look_anew(rest, Preference::Sums)?;
        if last.is_settled || !found.has_table() {
            Ok(last)
        } else {
            Ok(found)
        }
    }

    /// Looks with the other preference.
    fn look_other(&self) -> Result<Ended, AllocError> {
        self.look_anew(self.fuel / SECOND, Preference::Comparisons)
    }

    /// Looks for a log or a table with so much work and this preference.
    fn look_anew(&self, fuel: u64, preference: Preference) -> Result<Ended, AllocError> {
        let state = State::new(
            self.alloc,
            &self.sequent.nodes,
            self.index,
            fuel,
            self.rounds,
        );
        let aim = Aim::LogOrTable(preference);
        look(state, Intake::new(self.alloc), self.sequent, fuel, aim)
    }

    /// What was found; or else, where this is no log and no table of real operations, a counterexample of small
    /// numbers, if there is one.
    fn or_small(&self, ended: Ended) -> Result<Ended, AllocError> {
        if ended.is_settled {
            return Ok(ended);
        }
        match sampled(self.alloc, self.sequent, self.rounds)? {
            Some(table) => Ok(tabled(ended.counted.conflicts, Some(table), true)),
            None => Ok(ended),
        }
    }
}

/// Looks for a log over an index that has met the nodes of the sequent, with what stayed. A table is looked for by a new
/// search alone, so that what is told of a sequent does not depend on those before it.
fn look_again<'a>(
    alloc: Global,
    index: &'a Index,
    sequent: &'a Sequent<'a>,
    stay: Stay,
    fuel: u64,
) -> Result<Ended, AllocError> {
    let Stay { kept, intake } = stay;
    let state = State::again(alloc, &sequent.nodes, index, kept, fuel);
    look(state, intake, sequent, fuel, Aim::Log)
}

/// Looks for what is wanted.
fn look<'a>(
    state: State<'a>,
    intake: Intake,
    sequent: &'a Sequent<'a>,
    fuel: u64,
    aim: Aim,
) -> Result<Ended, AllocError> {
    let formulas = sequent.hypotheses.as_slice();
    let mut search = Search::new(state, intake, formulas, sequent.goal);
    match aim {
        Aim::Log => log_alone(&mut search, sequent, fuel),
        Aim::LogOrTable(preference) => {
            search.preference = preference;
            log_or_table(&mut search, sequent, fuel)
        }
    }
}

/// The log that a search finds that looks for nothing else.
fn log_alone(search: &mut Search, sequent: &Sequent, fuel: u64) -> Result<Ended, AllocError> {
    search.is_for_proof = true;
    match run(search, sequent, fuel)? {
        Turn::Refuted(clause) => proved(search, clause),
        Turn::On | Turn::Whole(_) | Turn::Complete | Turn::GaveUp => {
            Ok(tabled(search.learned, None, false))
        }
    }
}

/// The log or the table that a search finds.
fn log_or_table(search: &mut Search, sequent: &Sequent, fuel: u64) -> Result<Ended, AllocError> {
    match run(search, sequent, fuel)? {
        Turn::Refuted(clause) => proved(search, clause),
        Turn::Complete => {
            let is_real = candidate_of(&search.state).is_counterexample(sequent)?;
            Ok(tabled(search.learned, search.table.take(), is_real))
        }
        Turn::On | Turn::Whole(_) | Turn::GaveUp => Ok(tabled(search.learned, None, false)),
    }
}

/// A search begins, and goes on as long as there is fuel. What it comes to.
fn run(search: &mut Search, sequent: &Sequent, fuel: u64) -> Result<Turn, AllocError> {
    search.begin()?;
    let mut turn = Turn::On;
    for _ in 0..fuel {
        if turn != Turn::On {
            break;
        }
        turn = next_turn(search, sequent)?;
    }
    Ok(turn)
}

/// One step of a search.
fn next_turn(search: &mut Search, sequent: &Sequent) -> Result<Turn, AllocError> {
    match search.turn()? {
        Turn::Whole(level) => search.conclude(sequent, level),
        turn => Ok(turn),
    }
}

/// The log of a search that has the empty clause by this number.
fn proved(search: &mut Search, clause: usize) -> Result<Ended, AllocError> {
    let log = log_with(&*search, clause)?;
    let counted = Counted {
        proposal: Proposal::Proved(log),
        conflicts: search.learned,
    };
    Ok(Ended {
        counted,
        stay: stay_of(search),
        is_settled: true,
    })
}

/// The log that has this clause last.
fn log_with(search: &Search, clause: usize) -> Result<Vec<Step>, AllocError> {
    let state = &search.state;
    let nodes = state.terms.own_count();
    let recorder = Recorder::new(state.alloc, &state.terms, &state.variables, nodes);
    log_of(recorder, &state.solver.book, clause)
}

/// What a search leaves, if it may.
fn stay_of(search: &mut Search) -> Option<Stay> {
    match search.state.take_kept() {
        Some(kept) => {
            let none = Intake::new(search.state.alloc);
            Some(Stay {
                kept,
                intake: replace(&mut search.intake, none),
            })
        }
        None => None,
    }
}

/// What a search without a log found, after so many conflicts, and whether that settles it.
fn tabled(conflicts: u64, table: Option<Table>, is_settled: bool) -> Ended {
    let proposal = match table {
        Some(table) => Proposal::Modelled(table),
        None => Proposal::GaveUp,
    };
    let counted = Counted {
        proposal,
        conflicts,
    };
    Ended {
        counted,
        stay: None,
        is_settled,
    }
}
