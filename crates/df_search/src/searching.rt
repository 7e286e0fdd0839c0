//! The exhaustive search, one branch of decisions at a time. An open clause is split before any row is eliminated.

ghost use Rattle.std.specs.Prelude.{◌≡◌, ◌≤◌, [], ℕ, Err, map, length, IfOk};
ghost use Rattle.std.specs.List.{range_with_len};
ghost use Rattle.df_form.specs.Log.{step_of};
ghost use Rattle.df_form.specs.Sequent.{Sequent as Claim, IsSequent};
ghost use Rattle.df_form.specs.SequentView.{sequent_of};
ghost use Rattle.df_trig.specs.Instances.{IsInstances};
ghost use Rattle.df_trig.specs.Rounds.{Instantiates};
ghost use Rattle.df_rules.specs.Derivation.{Derives};
ghost use Rattle.df_trail.specs.Trail.{branch_of};
ghost use Rattle.df_branch.specs.Place.{IsPlace};
ghost use Rattle.df_search.specs.Found.{IsTooWide, HasManyRows, Finds};
ghost use Rattle.df_search.specs.Searching.{clauses_of, branches_of, Searches, TurnsTo, Tells, GoesOn};

use crate::confirming::confirmed;
use crate::found::{Found, What};
use df_axiom::Written;
use df_branch::{Leaf, leaf_at};
use df_clause::{Ground, GroundClause};
use df_form::{Lit, Over, Sequent};
use df_logbuild::Derivation;
use df_table::Table;
use df_trail::{Conflict, Trail};
use df_trig::{TrigFault, instances};
use std::alloc::{AllocError, Global};

/// A search so far.
#[derive(Drop)]
pub(crate) struct State<'a> {
    pub(crate) alloc: Global,
    /// The nodes of the ground set.
    pub(crate) set: Over<'a>,
    /// Its clauses, and after them those of equalities that were decided.
    pub(crate) clauses: Vec<GroundClause>,
    /// The number of each of these clauses in the log.
    pub(crate) places: Vec<usize>,
    /// A log of lines, of which the first ones add the ground clauses.
    pub(crate) derivation: Derivation<'a>,
    pub(crate) trail: Trail,
    /// The closed branches that count.
    pub(crate) closed: Vec<Vec<Lit>>,
    /// Numbers that were a point of rows once: they are tried before elimination.
    pub(crate) point: Vec<i128>,
}

/// What a turn of a search came to.
#[derive(Drop)]
pub(crate) enum Turn {
    On,
    /// The log ends with the empty clause.
    Proved,
    /// As many branches are closed as may be.
    Spent,
    Modelled(Table),
    Wide,
    Many(u64),
}

/// How a branch ends.
#[derive(Drop)]
pub(crate) enum End {
    /// The log says that literals of it are not all true.
    Closed(Conflict),
    /// A number on the way is past 128 bits.
    Wide,
    /// A level of its rows comes to so many rows.
    Many(u64),
}

/// The first numbers, so many.
fn first_numbers(alloc: Global, count: usize) -> Result<Vec<usize>, AllocError>
    ensures { IfOk result (λ numbers. numbers.items ≡ range_with_len 0 count) }
{
    (0..count).collect(alloc)
}

impl<'a> State<'a> {
    /// No decisions yet.
    fn new(alloc: Global, ground: Ground<'a>) -> Result<State<'a>, AllocError>
        requires { length ground.clauses ≤ length ground.lines.items }
        ensures begins { IfOk result (λ state. (s : Claim) (rounds : ℕ) → IsSequent s → IsInstances s rounds ground.entry → Searches s rounds state) }
        ensures none { IfOk result (λ state. state.closed.items ≡ []) }
    {
        let nodes = ground.nodes.copy(alloc)?;
        let count = ground.clauses.len();
        let places = first_numbers(alloc, count)?;
        let clauses = ground.clauses.into_vec(alloc)?;
        Ok(State {
            alloc,
            set: ground.nodes,
            clauses,
            places,
            derivation: Derivation::new(nodes, ground.lines, count),
            trail: Trail::new(alloc),
            closed: Vec::new(alloc),
            point: Vec::new(alloc),
        })
    }

    /// What comes next at the branch.
    fn leaf(&self) -> Result<Leaf, AllocError>
        requires { IsPlace self.now.set (clauses_of self.now) self.now.derivation.nodes (branch_of self.now.trail) }
        ensures { IfOk result (Tells self.now) }
    {
        let branch = self.trail.branch(self.alloc)?;
        leaf_at(
            self.alloc,
            &self.set,
            &self.clauses,
            &self.derivation.nodes,
            &branch,
        )
    }

    /// One step: a decision, a closed branch, or an end.
    fn turn(&mut self, steps: u64) -> Result<Turn, AllocError>
        requires place { IsPlace self.old.set (clauses_of self.old) self.old.derivation.nodes (branch_of self.old.trail) }
        requires places { length self.old.places.items ≡ length self.old.clauses.items }
        ensures turns { IfOk result (TurnsTo self.old steps self.new) }
        ensures grows { IfOk result (GoesOn self.old self.new) }
    {
        match self.leaf()? {
            Leaf::Refuted(numbers) => {
                let conflict = self.refute(&numbers)?;
                self.settle(End::Closed(conflict), steps)
            }
            Leaf::Unsolvable {
                reasons,
                facts,
                combinations,
            } => {
                let conflict = self.solve(&reasons, facts, combinations)?;
                self.settle(End::Closed(conflict), steps)
            }
            Leaf::Incongruent {
                reasons,
                reason,
                ..
            } => {
                let conflict = self.contradict(&reasons, reason)?;
                self.settle(End::Closed(conflict), steps)
            }
            Leaf::Open(literal) => {
                self.trail.decide(literal)?;
                Ok(Turn::On)
            }
            Leaf::Between { node, bound } => {
                self.split(node, bound)?;
                Ok(Turn::On)
            }
            Leaf::Apart { left, right } => {
                self.equate(left, right)?;
                Ok(Turn::On)
            }
            Leaf::Modelled(table) => Ok(Turn::Modelled(table)),
            Leaf::Wide => self.settle(End::Wide, steps),
            Leaf::Many(count) => self.settle(End::Many(count), steps),
        }
    }
}

/// What is found where a search ends.
impl<'a> State<'a> {
    /// The log, which ends with the empty clause.
    fn proved(self, sequent: &Sequent) -> Result<Found, AllocError>
        requires { Derives (sequent_of sequent.now) (map step_of self.derivation.lines.items) }
        ensures { (steps rounds : ℕ) → IfOk result (Finds (sequent_of sequent.now) steps rounds) }
    {
        let derivation = self.derivation;
        confirmed(self.alloc, sequent, derivation.lines)
    }

    /// The closed branches that count.
    fn into_closed(self) -> Vec<Vec<Lit>>
        ensures { result ≡ self.entry.closed }
    {
        self.closed
    }

    /// A branch where a number is past 128 bits, and the closed ones.
    fn wide(self) -> Result<Found, AllocError>
        ensures { IfOk result (λ found. (s : Claim) (steps rounds : ℕ) → IsTooWide s rounds (branches_of self.entry) (branch_of self.entry.trail) → Finds s steps rounds found) }
    {
        let branch = self.trail.branch(self.alloc)?;
        let closed = self.closed;
        Ok(Found::Wide { closed, branch })
    }

    /// A branch with a level of so many rows, and the closed ones.
    fn many(self, count: u64) -> Result<Found, AllocError>
        ensures { IfOk result (λ found. (s : Claim) (steps rounds : ℕ) → HasManyRows s rounds (branches_of self.entry) (branch_of self.entry.trail) count → Finds s steps rounds found) }
    {
        let branch = self.trail.branch(self.alloc)?;
        let closed = self.closed;
        Ok(Found::Many(What::Rows {
            count,
            closed,
            branch,
        }))
    }
}

/// What is found where there is no ground set.
fn without_ground(fault: TrigFault) -> Result<Found, AllocError>
    ensures { (s : Claim) (steps rounds : ℕ) → Instantiates s rounds (Err fault) → IfOk result (Finds s steps rounds) }
{
    match fault {
        TrigFault::Many(count) => Ok(Found::Many(What::Instances(count))),
        TrigFault::Memory => Err(AllocError),
    }
}

/// Closes branch after branch beside the ground set with so many rounds of instances, until all are closed
/// or one gives evidence.
pub(crate) fn exhaust_set(
    alloc: Global,
    sequent: &Sequent,
    rounds: u32,
    steps: u64,
) -> Result<Found, AllocError>
    requires steps { 1 ≤ steps }
    ensures { IfOk result (Finds (sequent_of sequent.now) steps rounds) }
{
    let set = match instances(alloc, sequent, &Written {}, rounds) {
        Ok(set) => set,
        Err(fault) => return without_ground(fault),
    };
    let mut search = State::new(alloc, set)?;
    loop {
        match search.turn(steps)? {
            Turn::On => {}
            Turn::Proved => return search.proved(sequent),
            Turn::Spent => return Ok(Found::Spent(search.into_closed())),
            Turn::Modelled(table) => return Ok(Found::Modelled(table)),
            Turn::Wide => return search.wide(),
            Turn::Many(count) => return search.many(count),
        }
    }
}
