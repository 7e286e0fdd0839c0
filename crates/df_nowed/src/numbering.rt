//! Formulas over nodes of their own, in postorder of first occurrence.

ghost use Rattle.std.proofs.Props.{props};
ghost use Rattle.std.specs.Prelude.{◌≡◌, ◌<◌, ◌≤◌, ◌+◌, ◌∷◌, ◌++◌, ℕ, [], Some, List, length, reverse, slice_get, OnOk, IfOk, IfSome};
ghost use Rattle.std.specs.List.{AllByRecursion};
ghost use Rattle.df_form.specs.Node.{node_of};
ghost use Rattle.df_nenc.specs.Growing.{Grows};
ghost use Rattle.df_nenc.specs.Standing.{IsTerm};
ghost use Rattle.df_nenc.specs.Tree.{tree_at, trees_at};
ghost use Rattle.df_nterm.specs.Term.{Truths};
ghost use Rattle.df_nterm.specs.Term as trees;
ghost use Rattle.df_nowed.specs.Counts.{AreCounts};
ghost use Rattle.df_nowed.specs.Renumbering.{AreTerms, Leads, LeadsOn, stack_of, hypotheses_of, steps_of, steps_left, all_steps_left};

use df_form::{Draft, Formula, Node, NodeTable, Nodes, Term, World};
use df_lang::Program;
use std::alloc::{AllocError, Global};

/// A node of which so many parts lie on the stack.
#[derive(Clone, Copy)]
struct Visit {
    node: Term,
    parts: usize,
}

/// A sequent that is being built of the formulas of a table.
#[derive(Drop)]
struct Renumbering<'a> {
    draft: Draft<'a>,
    /// The number in the draft of each node that was met, by its number in the table.
    terms: Vec<Option<Term>>,
}

impl<'a> Renumbering<'a> {
    /// The number in the draft of a node, if it was met.
    fn met(&self, term: Term) -> Option<Term>
        ensures { IfSome result (λ met. slice_get self.now.terms.items term ≡ Some (Some met)) }
    {
        match self.terms.get(term) {
            Some(met) => *met,
            None => None,
        }
    }

    /// Puts a term on the stack, or what is to be visited for it.
    fn meet(&mut self, table: &Nodes, term: Term, visits: &mut Vec<Visit>) -> Result<(), AllocError>
        requires below { term < length table.now }
        requires terms { AreTerms table.now self.old.draft.nodes self.old.terms.items }
        ensures leads { OnOk result (LeadsOn table.now (reverse visits.old.items) (stack_of self.old ++ tree_at table.now term ∷ []) (reverse visits.new.items) (stack_of self.new)) }
        ensures steps { OnOk result (all_steps_left table.now (reverse visits.new.items) ≤ steps_of (tree_at table.now term) + all_steps_left table.now (reverse visits.old.items)) }
        ensures nodes { self.new.draft.nodes ≡ self.old.draft.nodes }
        ensures terms { self.new.terms ≡ self.old.terms }
        ensures hypotheses { self.new.draft.hypotheses.items ≡ self.old.draft.hypotheses.items }
    {
        match self.met(term) {
            Some(met) => {
                self.draft.again(met)?;
                Ok(())
            }
            None => {
                visits.push(Visit {
                    node: term,
                    parts: 0,
                })?;
                Ok(())
            }
        }
    }

    /// Puts a node on the stack in place of its parts.
    fn apply(&mut self, table: &Nodes, term: Term, node: &Node) -> Result<(), AllocError>
        requires node { slice_get table.now term ≡ Some (node_of node.now) }
        requires terms { AreTerms table.now self.old.draft.nodes self.old.terms.items }
        requires parts { (front : List trees.Term) × (stack_of self.old ≡ front ++ trees_at table.now (node_of node.now).parts) }
        ensures stack { OnOk result ((front : List trees.Term) → stack_of self.old ≡ front ++ trees_at table.now (node_of node.now).parts → stack_of self.new ≡ front ++ tree_at table.now term ∷ []) }
        ensures terms { OnOk result (AreTerms table.now self.new.draft.nodes self.new.terms.items) }
        ensures grows { Grows self.old.draft.nodes self.new.draft.nodes }
        ensures hypotheses { self.new.draft.hypotheses.items ≡ self.old.draft.hypotheses.items }
    {
        let count = node.parts.len();
        self.draft.apply(node.op, count)?;
        let top = self.draft.stack.len() - 1;
        self.terms[term] = Some(self.draft.stack[top]);
        Ok(())
    }

    /// Goes on with a visit: to the next part, or to the node itself.
    fn step(
        &mut self,
        table: &Nodes,
        visit: Visit,
        visits: &mut Vec<Visit>,
    ) -> Result<(), AllocError>
        requires terms { AreTerms table.now self.old.draft.nodes self.old.terms.items }
        requires leads { (after : List trees.Term) × Leads table.now (visit ∷ reverse visits.old.items) (stack_of self.old) after }
        ensures leads { OnOk result (LeadsOn table.now (visit ∷ reverse visits.old.items) (stack_of self.old) (reverse visits.new.items) (stack_of self.new)) }
        ensures steps { OnOk result (all_steps_left table.now (reverse visits.new.items) < steps_left table.now visit + all_steps_left table.now (reverse visits.old.items)) }
        ensures terms { OnOk result (AreTerms table.now self.new.draft.nodes self.new.terms.items) }
        ensures grows { Grows self.old.draft.nodes self.new.draft.nodes }
        ensures hypotheses { self.new.draft.hypotheses.items ≡ self.old.draft.hypotheses.items }
    {
        match table.get(visit.node) {
            Some(node) => match node.parts.get(visit.parts) {
                Some(part) => {
                    visits.push(Visit {
                        node: visit.node,
                        parts: visit.parts + 1,
                    })?;
                    self.meet(table, *part, visits)?;
                    Ok(())
                }
                None => self.apply(table, visit.node, node),
            },
            None => unreachable!(),
        }
    }

    /// Puts a term on the empty stack.
    fn term(&mut self, alloc: Global, table: &Nodes, term: Term) -> Result<(), AllocError>
        requires below { term < length table.now }
        requires terms { AreTerms table.now self.old.draft.nodes self.old.terms.items }
        requires stack { self.old.draft.stack.items ≡ [] }
        ensures stack { OnOk result (stack_of self.new ≡ tree_at table.now term ∷ []) }
        ensures terms { OnOk result (AreTerms table.now self.new.draft.nodes self.new.terms.items) }
        ensures grows { Grows self.old.draft.nodes self.new.draft.nodes }
        ensures hypotheses { self.new.draft.hypotheses.items ≡ self.old.draft.hypotheses.items }
    {
        let mut visits = Vec::new(alloc);
        self.meet(table, term, &mut visits)?;
        while let Some(visit) = visits.pop() {
            self.step(table, visit, &mut visits)?;
        }
        Ok(())
    }

    /// A formula is the next hypothesis.
    fn assume(&mut self, alloc: Global, table: &Nodes, formula: Formula) -> Result<(), AllocError>
        requires formula { IsTerm Truths table.now formula }
        requires terms { AreTerms table.now self.old.draft.nodes self.old.terms.items }
        requires stack { self.old.draft.stack.items ≡ [] }
        ensures hypotheses { OnOk result (hypotheses_of self.new ≡ hypotheses_of self.old ++ tree_at table.now formula ∷ []) }
        ensures one { OnOk result ((h : ℕ) × (self.new.draft.hypotheses.items ≡ self.old.draft.hypotheses.items ++ h ∷ [])) }
        ensures grows { Grows self.old.draft.nodes self.new.draft.nodes }
        ensures stack { OnOk result (self.new.draft.stack.items ≡ []) }
        ensures terms { OnOk result (AreTerms table.now self.new.draft.nodes self.new.terms.items) }
    {
        self.term(alloc, table, formula)?;
        self.draft.assume()?;
        Ok(())
    }

    /// Formulas are the hypotheses. How many nodes there are before the first of them and behind each.
    fn assume_all(
        &mut self,
        alloc: Global,
        table: &Nodes,
        formulas: &[Formula],
    ) -> Result<Vec<usize>, AllocError>
        requires formulas { AllByRecursion (IsTerm Truths table.now) formulas.now }
        requires terms { AreTerms table.now self.old.draft.nodes self.old.terms.items }
        requires stack { self.old.draft.stack.items ≡ [] }
        requires hypotheses { self.old.draft.hypotheses.items ≡ [] }
        ensures hypotheses { OnOk result (hypotheses_of self.new ≡ trees_at table.now formulas.now) }
        ensures counts { IfOk result (λ counts. AreCounts self.new.draft.nodes self.new.draft.hypotheses.items counts.items) }
    {
        let mut counts = vec![in alloc; 0]?;
        for formula in formulas {
            self.assume(alloc, table, *formula)?;
            counts.push(self.draft.nodes.len())?;
        }
        Ok(counts)
    }
}

/// Formulas over nodes of their own, which are numbered in postorder of first occurrence.
#[derive(Drop)]
pub(crate) struct Numbering {
    pub nodes: Nodes,
    pub formulas: Vec<Formula>,
    /// How many nodes there are before the first formula and behind each.
    pub counts: Vec<usize>,
    pub ghost are_counts: { AreCounts nodes formulas.items counts.items } by { Prim.hlevel props },
}

/// Formulas of a table, over nodes of their own.
pub(crate) fn numbered(
    alloc: Global,
    program: &Program,
    table: &Nodes,
    formulas: &[Formula],
) -> Result<Numbering, AllocError>
    requires { AllByRecursion (IsTerm Truths table.now) formulas.now }
    ensures { IfOk result (λ numbering. trees_at numbering.nodes numbering.formulas.items ≡ trees_at table.now formulas.now) }
{
    let mut renumbering = Renumbering {
        draft: Draft::new(alloc, World { program }),
        terms: vec![in alloc; None; table.len()]?,
    };
    let counts = renumbering.assume_all(alloc, table, formulas)?;
    let Renumbering { draft, .. } = renumbering;
    let Draft {
        nodes,
        hypotheses,
        ..
    } = draft;
    Ok(Numbering {
        nodes,
        formulas: hypotheses,
        counts,
    })
}
