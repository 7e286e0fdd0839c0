//! Lines that are added to a log.

ghost use Rattle.std.specs.Prelude.{◌≡◌, ◌≤◌, ◌++◌, ◌∷◌, [], List, map, length, suc, true, false, Some, IfOk, OnOk, OnErr};
ghost use Rattle.df_form.specs.Sequent.{Sequent};
ghost use Rattle.df_form.specs.Clause.{Clause};
ghost use Rattle.df_form.specs.Node.{node_of};
ghost use Rattle.df_form.specs.Made.{made};
ghost use Rattle.df_form.specs.Sorting.{is_well_sorted};
ghost use Rattle.df_form.specs.Log.{step_of, combination_of};
ghost use Rattle.df_rules.specs.CongruenceLine.{congruence_line};
ghost use Rattle.df_rules.specs.Connective.{connective_line};
ghost use Rattle.df_form.specs.World.{World};
ghost use Rattle.df_rules.specs.Derivation.{after, is_foreign};
ghost use Rattle.df_rules.specs.Propagation.{propagation_line};
ghost use Rattle.df_row.specs.Linear.{linear_line};
ghost use Rattle.df_logbuild.specs.Front.{IsFront};
ghost use Rattle.df_logbuild.specs.Runs.{Runs, state_of};

use crate::derivation::Derivation;
use df_form::{Arena, Combination, Lit, Node, NodeTable, Pair, Step};
use std::alloc::AllocError;

impl<'a> Derivation<'a> {
    /// Adds a line that makes no node; its clause has the number that is told. An error adds nothing.
    fn add(&mut self, line: Step) -> Result<usize, AllocError>
        ensures number { IfOk result (λ number. number ≡ self.old.clauses) }
        ensures added { OnOk result ((s : Sequent) (clauses : List Clause) (clause : Clause) → Runs s self.old clauses → after s (state_of self.old clauses) (step_of line) ≡ Some (state_of self.old (clauses ++ clause ∷ [])) → Runs s self.new (clauses ++ clause ∷ [])) }
        ensures nodes { self.new.nodes ≡ self.old.nodes }
        ensures longer { OnOk result (length self.new.lines.items ≡ suc (length self.old.lines.items)) }
        ensures unchanged { OnErr result (self.new.lines.items ≡ self.old.lines.items) }
        ensures uncounted { OnErr result (self.new.clauses ≡ self.old.clauses) }
        ensures grows { IsFront self.old.lines.items self.new.lines.items }
    {
        self.lines.push(line)?;
        let number = self.clauses;
        self.clauses += 1;
        Ok(number)
    }

    /// Adds what follows from the clauses of these numbers by unit propagation, where it does.
    pub fn propagate(
        &mut self,
        clauses: Vec<usize>,
        conclusion: Vec<Lit>,
    ) -> Result<usize, AllocError>
        ensures number { IfOk result (λ number. number ≡ self.old.clauses) }
        ensures added { OnOk result ((s : Sequent) (all : List Clause) → Runs s self.old all → propagation_line self.old.nodes all clauses.items conclusion.items ≡ Some conclusion.items → Runs s self.new (all ++ conclusion.items ∷ [])) }
        ensures nodes { self.new.nodes ≡ self.old.nodes }
        ensures longer { OnOk result (length self.new.lines.items ≡ suc (length self.old.lines.items)) }
        ensures unchanged { OnErr result (self.new.lines.items ≡ self.old.lines.items) }
        ensures uncounted { OnErr result (self.new.clauses ≡ self.old.clauses) }
        ensures grows { IsFront self.old.lines.items self.new.lines.items }
    {
        self.add(Step::Propagation {
            clauses,
            conclusion,
        })
    }

    /// Adds a clause whose negation the combinations refute, where they do.
    pub fn refute(
        &mut self,
        conclusion: Vec<Lit>,
        combinations: Vec<Combination>,
    ) -> Result<usize, AllocError>
        ensures number { IfOk result (λ number. number ≡ self.old.clauses) }
        ensures added { OnOk result ((s : Sequent) (all : List Clause) → Runs s self.old all → linear_line self.old.nodes conclusion.items (map combination_of combinations.items) ≡ Some conclusion.items → Runs s self.new (all ++ conclusion.items ∷ [])) }
        ensures nodes { self.new.nodes ≡ self.old.nodes }
        ensures longer { OnOk result (length self.new.lines.items ≡ suc (length self.old.lines.items)) }
        ensures unchanged { OnErr result (self.new.lines.items ≡ self.old.lines.items) }
        ensures uncounted { OnErr result (self.new.clauses ≡ self.old.clauses) }
        ensures grows { IsFront self.old.lines.items self.new.lines.items }
    {
        self.add(Step::Linear {
            conclusion,
            combinations,
        })
    }

    /// Adds a clause whose negation congruence refutes by these pairs, where it does.
    pub fn congruence(
        &mut self,
        conclusion: Vec<Lit>,
        pairs: Vec<Pair>,
    ) -> Result<usize, AllocError>
        ensures number { IfOk result (λ number. number ≡ self.old.clauses) }
        ensures added { OnOk result ((s : Sequent) (all : List Clause) → Runs s self.old all → congruence_line self.old.nodes conclusion.items pairs.items ≡ Some conclusion.items → Runs s self.new (all ++ conclusion.items ∷ [])) }
        ensures nodes { self.new.nodes ≡ self.old.nodes }
        ensures longer { OnOk result (length self.new.lines.items ≡ suc (length self.old.lines.items)) }
        ensures unchanged { OnErr result (self.new.lines.items ≡ self.old.lines.items) }
        ensures uncounted { OnErr result (self.new.clauses ≡ self.old.clauses) }
        ensures grows { IsFront self.old.lines.items self.new.lines.items }
    {
        self.add(Step::Congruence { conclusion, pairs })
    }

    /// Adds the defining clause of this number of a connective, where it has one whose nodes all stand.
    pub fn define(&mut self, node: usize, clause: usize) -> Result<usize, AllocError>
        ensures number { IfOk result (λ number. number ≡ self.old.clauses) }
        ensures added { OnOk result ((s : Sequent) (all : List Clause) (literals : Clause) → Runs s self.old all → connective_line self.old.nodes node clause ≡ Some (record { nodes = self.old.nodes; clause = literals }) → Runs s self.new (all ++ literals ∷ [])) }
        ensures nodes { self.new.nodes ≡ self.old.nodes }
        ensures longer { OnOk result (length self.new.lines.items ≡ suc (length self.old.lines.items)) }
        ensures unchanged { OnErr result (self.new.lines.items ≡ self.old.lines.items) }
        ensures uncounted { OnErr result (self.new.clauses ≡ self.old.clauses) }
        ensures grows { IsFront self.old.lines.items self.new.lines.items }
    {
        self.add(Step::Connective { node, clause })
    }

    /// The number of a node, which a line makes where it does not stand yet. It is no free term and no test
    /// of a newtype, and is well sorted after the nodes. An error makes nothing.
    pub fn make(&mut self, node: Node) -> Result<usize, AllocError>
        requires sorted { is_well_sorted self.old.nodes (node_of node) ≡ true }
        requires own { (world : World) → is_foreign world (node_of node).op ≡ false }
        ensures made { IfOk result (λ number. made self.old.nodes (node_of node) ≡ record { nodes = self.new.nodes; number = number }) }
        ensures runs { OnOk result ((s : Sequent) (all : List Clause) → Runs s self.old all → Runs s self.new all) }
        ensures unchanged { OnErr result (self.new.nodes ≡ self.old.nodes) }
        ensures lines { OnErr result (self.new.lines.items ≡ self.old.lines.items) }
        ensures longer { length self.old.lines.items ≤ length self.new.lines.items }
        ensures clauses { self.new.clauses ≡ self.old.clauses }
        ensures grows { IsFront self.old.lines.items self.new.lines.items }
    {
        let before = self.nodes.len();
        self.lines.reserve(1)?;
        let number = self.nodes.add(node.op, node.parts.as_slice())?;
        if self.nodes.len() > before {
            self.lines.push(Step::Make(node))?;
        }
        Ok(number)
    }
}
