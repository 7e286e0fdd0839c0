//! Ground sets.

ghost use Rattle.std.specs.Prelude.{◌≡◌, ◌∷◌, [], length, map, not, slice_get, IfOk, OnOk, OnErr};
ghost use Rattle.std.specs.Option.{option_and_then};
ghost use Rattle.std.specs.List.{range_with_len};
ghost use Rattle.df_form.specs.Node.{Node as PureNode};
ghost use Rattle.df_form.specs.Clause.{yes, no};
ghost use Rattle.df_form.specs.Log.{step_of, Hypothesis, Goal, Connective};
ghost use Rattle.df_form.specs.Sequent.{Sequent as Claim};
ghost use Rattle.df_form.specs.SequentView.{sequent_of};
ghost use Rattle.df_form.specs.Sorting.{IsTable};
ghost use Rattle.df_clause.specs.Counting.{stands, with_clause};
ghost use Rattle.df_clause.specs.Lines.{lines_at, bound_by};
ghost use Rattle.df_clause.specs.GroundSet.{with_line, with_lines, with_meanings, sequent_set, hypothesis_lines};
ghost use Rattle.df_clause.specs.GroundView.{set_of};
ghost use Rattle.df_clause.specs.Keeping.{clause_of, with_line_if, Keeps, AddsLine};

use crate::clause::GroundClause;
use crate::clause_set::ClauseSet;
use crate::lines::{bound_by, connective_count};
use df_form::{Arena, Formula, Lit, NodeTable, Over, Sequent, Step};
use df_rules::{AxiomFault, connective};
use std::alloc::{AllocError, Global};

/// Clauses of a sequent: its hypotheses, its negated goal, what connectives mean, and instances of
/// schemas. Equal ones are there once.
#[derive(Drop)]
pub struct Ground<'a> {
    /// The nodes of the sequent, and those that the clauses make.
    pub nodes: Over<'a>,
    pub clauses: ClauseSet,
    /// The steps of a log, one for each clause in the same order, which add just these.
    pub lines: Vec<Step>,
}

fn one(alloc: Global, positive: bool, node: Formula) -> Result<Vec<Lit>, AllocError>
    ensures { IfOk result (λ clause. clause.items ≡ record { positive = positive; node = node } ∷ []) }
{
    Ok(vec![in alloc; Lit { positive, node }]?)
}

impl<'a> Ground<'a> {
    /// Adds a clause with its line, unless the same one is there. Whether it was new.
    fn add(
        &mut self,
        line: Step,
        bound: Option<Formula>,
        literals: Vec<Lit>,
    ) -> Result<bool, AllocError>
        ensures is_new { IfOk result (λ is_new. is_new ≡ not (stands self.old.clauses (clause_of bound literals.items))) }
        ensures clauses { OnOk result (self.new.clauses ≡ with_clause self.old.clauses (clause_of bound literals.items)) }
        ensures lines { IfOk result (λ is_new. map step_of self.new.lines.items ≡ with_line_if is_new (map step_of self.old.lines.items) (step_of line)) }
        ensures nodes { self.new.nodes ≡ self.old.nodes }
        ensures same_clauses { OnErr result (self.new.clauses ≡ self.old.clauses) }
        ensures same_lines { OnErr result (map step_of self.new.lines.items ≡ map step_of self.old.lines.items) }
    {
        // With this room the push cannot fail.
        self.lines.reserve(1)?;
        let is_new = self.clauses.insert(GroundClause { literals, bound })?;
        if !is_new {
            return Ok(false);
        }
        self.lines.push(line)?;
        Ok(true)
    }

    /// Keeps a clause for which the nodes from this number on were made, with its line and the equality to
    /// which it is bound, unless the same one is there: then, and where memory is refused, those nodes go.
    pub fn keep(
        &mut self,
        before: usize,
        line: Step,
        bound: Option<Formula>,
        literals: Vec<Lit>,
    ) -> Result<(), AllocError>
        ensures { Keeps before (step_of line) bound literals.items self.old self.new result }
    {
        match self.add(line, bound, literals) {
            Ok(is_new) => {
                if is_new {
                    return Ok(());
                }
                self.nodes.cut(before);
                Ok(())
            }
            Err(error) => {
                self.nodes.cut(before);
                Err(error)
            }
        }
    }

    /// Adds the clause of a hypothesis.
    fn add_hypothesis(
        &mut self,
        alloc: Global,
        number: usize,
        hypothesis: Formula,
    ) -> Result<(), AllocError>
        ensures { OnOk result ((s : Claim) → slice_get s.hypotheses number ≡ Some hypothesis → set_of self.new ≡ with_line s (set_of self.old) (Hypothesis number)) }
    {
        let before = self.nodes.len();
        let literals = one(alloc, true, hypothesis)?;
        self.keep(before, Step::Hypothesis(number), None, literals)
    }

    /// Adds the clause that a formula is false, which is the goal.
    fn add_goal(&mut self, alloc: Global, goal: Formula) -> Result<(), AllocError>
        ensures { OnOk result ((s : Claim) → s.goal ≡ goal → set_of self.new ≡ with_line s (set_of self.old) Goal) }
    {
        let before = self.nodes.len();
        let literals = one(alloc, false, goal)?;
        self.keep(before, Step::Goal, None, literals)
    }

    /// How many defining clauses the node of a number has.
    pub fn meaning_count(&self, number: usize) -> usize
        ensures { result ≡ length (lines_at self.now.nodes number) }
    {
        match self.nodes.get(number) {
            Some(node) => connective_count(&self.nodes, node),
            None => 0,
        }
    }

    /// The equality to which the defining clauses of a node are bound.
    fn bound_at(&self, number: usize) -> Option<Formula>
        ensures { result ≡ option_and_then (λ (node : PureNode). bound_by number node.op) (slice_get self.now.nodes number) }
    {
        match self.nodes.get(number) {
            Some(node) => bound_by(number, node.op),
            None => None,
        }
    }

    /// Adds a clause that the connective of a node means, if there is one of this number.
    pub fn add_connective(
        &mut self,
        alloc: Global,
        node: usize,
        clause: usize,
    ) -> Result<(), AllocError>
        ensures { AddsLine (Connective node clause) self.old self.new result }
    {
        let bound = self.bound_at(node);
        let before = self.nodes.len();
        match connective(alloc, &mut self.nodes, node, clause) {
            Ok(literals) => self.keep(before, Step::Connective { node, clause }, bound, literals),
            Err(AxiomFault::NoSuch) => Ok(()),
            Err(AxiomFault::Memory) => Err(AllocError),
        }
    }

    fn add_hypotheses(&mut self, alloc: Global, sequent: &Sequent) -> Result<(), AllocError>
        ensures { OnOk result (set_of self.new ≡ with_lines (sequent_of sequent.now) (set_of self.old) (hypothesis_lines (sequent_of sequent.now))) }
    {
        for (number, hypothesis) in sequent.hypotheses.as_slice().iter().enumerate() {
            self.add_hypothesis(alloc, number, *hypothesis)?;
        }
        Ok(())
    }

    /// Adds what the connective of a node means.
    fn add_meaning(&mut self, alloc: Global, number: usize) -> Result<(), AllocError>
        ensures { OnOk result ((s : Claim) → set_of self.new ≡ with_lines s (set_of self.old) (lines_at self.old.nodes number)) }
    {
        for clause in 0..self.meaning_count(number) {
            self.add_connective(alloc, number, clause)?;
        }
        Ok(())
    }

    /// Adds what the connectives of so many first nodes mean.
    fn add_meanings(&mut self, alloc: Global, count: usize) -> Result<(), AllocError>
        ensures { OnOk result ((s : Claim) → set_of self.new ≡ with_meanings s (set_of self.old) (range_with_len 0 count)) }
    {
        for number in 0..count {
            self.add_meaning(alloc, number)?;
        }
        Ok(())
    }
}

/// The clauses of a sequent: its hypotheses, its negated goal, and for each of its nodes, in the order of
/// numbers, all that its connective means.
pub fn clauses<'a>(alloc: Global, sequent: &'a Sequent<'a>) -> Result<Ground<'a>, AllocError>
    ensures set { IfOk result (λ g. set_of g ≡ sequent_set (sequent_of sequent.now)) }
    ensures table { IfOk result (λ g. IsTable g.nodes) }
{
    let mut ground = Ground {
        nodes: sequent.nodes.over(alloc),
        clauses: ClauseSet::new(alloc),
        lines: Vec::new(alloc),
    };
    ground.add_hypotheses(alloc, &*sequent)?;
    ground.add_goal(alloc, sequent.goal)?;
    ground.add_meanings(alloc, sequent.nodes.len())?;
    // The nodes are a table.
    let _nodes = ground.nodes.len();
    Ok(ground)
}
