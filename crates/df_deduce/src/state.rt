//! The state of the engine, its variables and its clauses.

use df_clauses::{GROUND, Instances, Literal, Origin, Reason, Solver};
use df_egraph::Graph;
use df_form::Front;
use df_simplex::{Cause, Check, Need, Side};
use df_theory::{Atom, Index, Kept, Meaning, Shape, Terms, Theory, Variables};
use std::alloc::{AllocError, Global};
use std::mem::replace;

/// How many pivots a check of the tableau may take.
const PIVOTS: usize = 2_000;

/// The state of the engine.
#[derive(Drop)]
pub struct State<'a> {
    pub alloc: Global,
    pub terms: Terms<'a>,
    pub variables: Variables,
    pub solver: Solver,
    pub theory: Theory,
    /// Whether some operation needs classes and instances.
    pub has_classes: bool,
    pub graph: Graph,
    pub instances: Instances,
    /// How much work is left to do.
    pub fuel: u64,
    /// A number of an explanation is past 128 bits.
    pub(crate) is_lost: bool,
    /// Comparisons that were new at a decision level, and may have values at lower ones.
    late: Vec<usize>,
    /// How many rows there were when the lowest level was reached last.
    rows: usize,
}

impl<'a> State<'a> {
    pub fn new(
        alloc: Global,
        nodes: &'a Front,
        index: &'a Index,
        fuel: u64,
        rounds: u32,
    ) -> State<'a> {
        let terms = Terms::new(alloc, nodes, index);
        let has_classes = terms.has_operations;
        State {
            alloc,
            terms,
            variables: Variables::new(alloc),
            solver: Solver::new(alloc),
            theory: Theory::new(alloc),
            has_classes,
            graph: Graph::new(alloc),
            instances: Instances::new(alloc, rounds),
            fuel,
            is_lost: false,
            late: Vec::new(alloc),
            rows: 0,
        }
    }

    /// An engine for a sequent of these nodes, with what is known by a sequent without operations, of whose hypotheses and
    /// nodes this one has all. It is to begin.
    pub fn again(
        alloc: Global,
        nodes: &'a Front,
        index: &'a Index,
        kept: Kept,
        fuel: u64,
    ) -> State<'a> {
        let Kept {
            made,
            variables,
            solver,
            theory,
        } = kept;
        let rows = theory.rows.len();
        State {
            alloc,
            terms: Terms::again(nodes, index, made),
            variables,
            solver,
            theory,
            has_classes: false,
            graph: Graph::new(alloc),
            instances: Instances::new(alloc, 0),
            fuel,
            is_lost: false,
            late: Vec::new(alloc),
            rows,
        }
    }

    /// Begins: what was known before is so of the nodes of the sequent, at the lowest level.
    pub fn begin(&mut self) -> Result<(), AllocError> {
        self.terms.compare()?;
        self.cancel(0)
    }

    /// Whether what is known may stay for further sequents: where there are no operations, and there is room left.
    fn may_stay(&self) -> bool {
        !self.has_classes && !self.solver.book.is_half_full() && !self.theory.forms.are_half_full()
    }

    /// What stays for further sequents, if it may. The engine knows none of it from here on.
    pub fn take_kept(&mut self) -> Option<Kept> {
        if !self.may_stay() {
            return None;
        }
        let alloc = self.alloc;
        let made = self.terms.take_made(alloc);
        let variables = replace(&mut self.variables, Variables::new(alloc));
        let solver = replace(&mut self.solver, Solver::new(alloc));
        let theory = replace(&mut self.theory, Theory::new(alloc));
        Some(Kept {
            made,
            variables,
            solver,
            theory,
        })
    }

    /// Uses fuel.
    pub fn spend(&mut self, work: usize) {
        self.fuel = self
            .fuel
            .saturating_sub(u64::try_from(work).unwrap_or(u64::MAX));
    }

    /// Brings all columns within their bounds, if it can.
    pub fn check_tableau(&mut self) -> Result<Check, AllocError> {
        let size = self.theory.tableau.size().saturating_add(1);
        let fuel = usize::try_from(self.fuel).unwrap_or(usize::MAX);
        let most = fuel.checked_div(size).unwrap_or(0);
        let theory = &mut self.theory;
        let (check, work) = theory.tableau.check(&mut theory.bounds, most.min(PIVOTS))?;
        self.spend(work);
        Ok(check)
    }

    /// Whether the engine is to stop.
    pub fn is_over(&self) -> bool {
        self.fuel == 0 || self.is_lost || self.solver.book.is_full()
    }

    /// The literal of a formula.
    pub fn literal(&mut self, formula: usize, positive: bool) -> Result<Literal, AllocError> {
        let node = self.terms.standing_for(formula);
        let variable = match self.variables.of_node(node) {
            Some(variable) => variable,
            None => self.add_variable(node)?,
        };
        Ok(Literal { variable, positive })
    }

    fn add_variable(&mut self, node: usize) -> Result<usize, AllocError> {
        self.spend(8);
        let meaning = self.meaning_of(node)?;
        let variable = self.enroll(node, meaning)?;
        self.give_value(variable, meaning)?;
        if self.solver.trail.level() > 0 && self.solver.trail.assignment(variable).is_some() {
            self.late.push(variable)?;
        }
        Ok(variable)
    }

    /// What a formula says to arithmetic. Classes meet its parts.
    fn meaning_of(&mut self, node: usize) -> Result<Meaning, AllocError> {
        match self.terms.shape(node) {
            Shape::AtMost(a, b) => {
                self.meet_all(&[a, b])?;
                self.theory.comparison(&self.terms, a, b)
            }
            Shape::Equal(a, b) | Shape::Same(a, b) => {
                self.meet_equality(node, a, b)?;
                Ok(Meaning::Nothing)
            }
            _ => Ok(Meaning::Nothing),
        }
    }

    /// A variable without a value for a formula of a meaning.
    fn enroll(&mut self, node: usize, meaning: Meaning) -> Result<usize, AllocError> {
        let variable = self.variables.add(node, meaning)?;
        self.solver.add_variable()?;
        if let Meaning::Atom(atom) = meaning {
            self.theory.hear(atom.column, variable)?;
        }
        Ok(variable)
    }

    /// Gives a comparison without a value the one that it has whatever is decided, if it has one.
    fn give_value(&mut self, variable: usize, meaning: Meaning) -> Result<(), AllocError> {
        match meaning {
            Meaning::Nothing => Ok(()),
            Meaning::Constant(positive) => self
                .solver
                .trail
                .assign(Literal { variable, positive }, Reason::Constant),
            Meaning::Atom(atom) => self.imply(variable, &atom),
        }
    }

    /// Gives comparisons that were new at a level that has ended the values that they have still, and has the rows that
    /// were new there wait again.
    fn give_late(&mut self) -> Result<(), AllocError> {
        for place in 0..self.late.len() {
            let variable = self.late.get(place).copied().unwrap_or(0);
            if self.solver.trail.assignment(variable).is_none() {
                let meaning = self.variables.meaning(variable);
                self.give_value(variable, meaning)?;
            }
        }
        for row in self.rows..self.theory.rows.len() {
            self.theory.rows.put(row)?;
        }
        if self.solver.trail.level() == 0 {
            self.late.clear();
            self.rows = self.theory.rows.len();
        }
        Ok(())
    }

    /// Gives an atom without a value the one that bounds imply.
    fn imply(&mut self, variable: usize, atom: &Atom) -> Result<(), AllocError> {
        if let Some((positive, bound)) = self.theory.implied(atom) {
            self.solver
                .trail
                .assign(Literal { variable, positive }, Reason::Bound(bound))?;
        }
        Ok(())
    }

    /// Gives atoms of a column the values that its bounds imply.
    fn imply_all(&mut self, column: usize) -> Result<(), AllocError> {
        let count = self.theory.speaker_count(column);
        self.spend(count);
        for place in 0..count {
            let Some(variable) = self.theory.speaker(column, place) else {
                break;
            };
            if self.solver.trail.assignment(variable).is_none() {
                if let Meaning::Atom(atom) = self.variables.meaning(variable) {
                    self.imply(variable, &atom)?;
                }
            }
        }
        Ok(())
    }

    /// Gives a column a bound, if it is tighter than those so far. The clause that is false then, if
    /// one is.
    pub(crate) fn tighten(
        &mut self,
        column: usize,
        side: Side,
        constant: i128,
        cause: Cause,
    ) -> Result<Option<usize>, AllocError> {
        if !self.theory.bounds.is_tighter(column, side, constant) {
            return Ok(None);
        }
        self.theory.bounds.push(column, side, constant, cause)?;
        self.theory.rows.wake(column)?;
        match self.theory.bounds.constant(column, side.opposite()) {
            Some(other) if constant.saturating_add(other) < 0 => self.collision(column),
            _ => {
                self.imply_all(column)?;
                Ok(None)
            }
        }
    }

    /// The clause that is false where a column's bounds exclude each other.
    fn collision(&mut self, column: usize) -> Result<Option<usize>, AllocError> {
        let needs = Need::of_both(self.alloc, column)?;
        self.explain_conflict(needs)
    }

    /// Adds a clause. Its number, where it is false.
    pub fn add_clause(
        &mut self,
        literals: Vec<Literal>,
        origin: Origin,
    ) -> Result<Option<usize>, AllocError> {
        self.spend(literals.len());
        self.solver.add_clause(literals, origin)
    }

    /// Takes the levels after this one back.
    pub fn cancel(&mut self, level: usize) -> Result<(), AllocError> {
        self.solver.cancel(level)?;
        self.theory.bounds.cancel(level);
        self.graph.cancel(level)?;
        if level <= GROUND {
            self.give_late()?;
        }
        Ok(())
    }

    /// A decision level begins.
    pub fn open(&mut self) -> Result<(), AllocError> {
        self.solver.trail.open()?;
        self.graph.open()?;
        self.theory.bounds.open()
    }

    /// Adds the clause of a hypothesis. Its number, where it is false. The lowest level knows it by this clause from here
    /// on, even if it was known by others.
    pub fn assume(&mut self, formula: usize, number: usize) -> Result<Option<usize>, AllocError> {
        let literal = self.literal(formula, true)?;
        let clause = self.solver.book.len();
        let literals = vec![in self.alloc; literal]?;
        let conflict = self.add_clause(literals, Origin::Hypothesis(number))?;
        if conflict.is_none() {
            self.solver.trail.explain(literal.variable, clause);
            self.variables.set_unit(literal.variable, clause);
        }
        Ok(conflict)
    }

    /// The clause of the negated goal, which is not in force yet.
    pub fn goal_clause(&mut self, goal: usize) -> Result<usize, AllocError> {
        let literal = self.literal(goal, false)?;
        let literals = vec![in self.alloc; literal]?;
        self.solver.book.add(literals, Origin::Goal)
    }

    /// The level of the negated goal begins, whose clause this is. The clause, where it is false.
    pub fn stand(&mut self, clause: usize) -> Result<Option<usize>, AllocError> {
        let Some(literal) = self.solver.book.literal(clause, 0) else {
            return Ok(None);
        };
        match self.solver.trail.value(literal) {
            Some(true) => self.open()?,
            Some(false) => return Ok(Some(clause)),
            None => {
                self.open()?;
                self.solver.trail.assign(literal, Reason::Clause(clause))?;
            }
        }
        Ok(None)
    }

    /// Decides that a literal is true.
    pub fn decide(&mut self, literal: Literal) -> Result<(), AllocError> {
        self.open()?;
        self.solver.trail.assign(literal, Reason::Decision)
    }
}
