//! Clauses, expressions and measures of a place.
#![tactic(auto, using(df_nenc::proofs::Growing::grows_not, df_nenc::proofs::Growing::grows_then, crate::proofs::Growing::ledger_stays, crate::proofs::Growing::measured_stay))]

ghost use Rattle.std.specs.Prelude.{◌≡◌, List, ◌∷◌, [], true, length, map, OnOk, IfOk};
ghost use Rattle.df_lang.specs.ExprView.{expr_of};
ghost use Rattle.df_lang.specs.declared.ty.Ty as types;
ghost use Rattle.df_lang.specs.Program.{Program};
ghost use Rattle.df_lang.specs.StmtView.{clause_of};
ghost use Rattle.df_lang.specs.Typing.{are_exprs};
ghost use Rattle.df_nenc.specs.Growing.{Grows};
ghost use Rattle.df_nenc.specs.Standing.{AreLocals};
ghost use Rattle.df_nenc.specs.Tree.{trees_at, trees_in};
ghost use Rattle.df_nledger.specs.Clauses.{place_at, AreClauses, AreValues};
ghost use Rattle.df_nledger.specs.Ledger.{ledger_of, way_of, saying};
ghost use Rattle.df_npass.specs.Methods.{require_all};
ghost use Rattle.df_npass.specs.Statements as pure;
ghost use Rattle.df_nterm.specs.Expressions.{term_of};

use crate::ledger::Ledger;
use df_base::Pos;
use df_form::{Kind, Term};
use df_lang::{Clause, Expr};
use std::alloc::{AllocError, Global};

impl Ledger {
    /// A clause has a value and is true: it is owed.
    fn assert_clause(
        &mut self,
        alloc: Global,
        terms: &[Term],
        pos: Pos,
        kind: Kind,
        clause: &Clause,
    ) -> Result<(), AllocError>
        requires { AreClauses self.old.nodes terms.now (clause_of clause.now ∷ []) }
        ensures ledger { OnOk result (ledger_of self.new ≡ saying (pure.assert_clauses (λ clause. pos) kind (way_of self.old terms.now) (clause_of clause.now ∷ [])) (ledger_of self.old)) }
        ensures grows { Grows self.old.nodes self.new.nodes }
    {
        let formula = self.value(alloc, terms, &clause.condition)?;
        self.assert(alloc, pos, kind, formula)
    }

    /// Clauses are owed: at this place, or where each begins.
    #[tactic(auto, using(crate::proofs::Repeated::saying_from, crate::proofs::Repeated::saying_first, crate::proofs::Repeated::saying_done))]
    pub fn assert_clauses(
        &mut self,
        alloc: Global,
        terms: &[Term],
        place: Option<Pos>,
        kind: Kind,
        clauses: &[Clause],
    ) -> Result<(), AllocError>
        requires { AreClauses self.old.nodes terms.now (map clause_of clauses.now) }
        ensures ledger { OnOk result (ledger_of self.new ≡ saying (pure.assert_clauses (place_at place) kind (way_of self.old terms.now) (map clause_of clauses.now)) (ledger_of self.old)) }
        ensures grows { Grows self.old.nodes self.new.nodes }
    {
        for clause in clauses {
            let pos = place.unwrap_or(clause.pos);
            self.assert_clause(alloc, terms, pos, kind, clause)?;
        }
        Ok(())
    }

    /// A clause has a value and is true: it is known.
    fn assume_clause(
        &mut self,
        alloc: Global,
        terms: &[Term],
        clause: &Clause,
    ) -> Result<(), AllocError>
        requires { AreClauses self.old.nodes terms.now (clause_of clause.now ∷ []) }
        ensures ledger { OnOk result (ledger_of self.new ≡ saying (pure.assume_clauses (way_of self.old terms.now) (clause_of clause.now ∷ [])) (ledger_of self.old)) }
        ensures grows { Grows self.old.nodes self.new.nodes }
    {
        let formula = self.known_value(alloc, terms, &clause.condition)?;
        self.assume(alloc, formula)
    }

    /// Clauses are known.
    #[tactic(auto, using(crate::proofs::Repeated::saying_from, crate::proofs::Repeated::saying_first, crate::proofs::Repeated::saying_done))]
    pub fn assume_clauses(
        &mut self,
        alloc: Global,
        terms: &[Term],
        clauses: &[Clause],
    ) -> Result<(), AllocError>
        requires { AreClauses self.old.nodes terms.now (map clause_of clauses.now) }
        ensures ledger { OnOk result (ledger_of self.new ≡ saying (pure.assume_clauses (way_of self.old terms.now) (map clause_of clauses.now)) (ledger_of self.old)) }
        ensures grows { Grows self.old.nodes self.new.nodes }
    {
        for clause in clauses {
            self.assume_clause(alloc, terms, clause)?;
        }
        Ok(())
    }

    /// A precondition has a value, which is owed, and is true, which is known.
    fn require(&mut self, alloc: Global, terms: &[Term], clause: &Clause) -> Result<(), AllocError>
        requires { AreClauses self.old.nodes terms.now (clause_of clause.now ∷ []) }
        ensures ledger { OnOk result (ledger_of self.new ≡ saying (require_all (way_of self.old terms.now) (clause_of clause.now ∷ [])) (ledger_of self.old)) }
        ensures grows { Grows self.old.nodes self.new.nodes }
    {
        let formula = self.value(alloc, terms, &clause.condition)?;
        self.assume(alloc, formula)
    }

    /// Each precondition has a value, and is true.
    #[tactic(auto, using(crate::proofs::Repeated::saying_from, crate::proofs::Repeated::saying_first, crate::proofs::Repeated::saying_done))]
    pub fn require_all(
        &mut self,
        alloc: Global,
        terms: &[Term],
        clauses: &[Clause],
    ) -> Result<(), AllocError>
        requires { AreClauses self.old.nodes terms.now (map clause_of clauses.now) }
        ensures ledger { OnOk result (ledger_of self.new ≡ saying (require_all (way_of self.old terms.now) (map clause_of clauses.now)) (ledger_of self.old)) }
        ensures grows { Grows self.old.nodes self.new.nodes }
    {
        for clause in clauses {
            self.require(alloc, terms, clause)?;
        }
        Ok(())
    }

    /// The terms of expressions, each of which is owed to have a value.
    pub(crate) fn values(
        &mut self,
        alloc: Global,
        terms: &[Term],
        exprs: &[Expr],
    ) -> Result<Vec<Term>, AllocError>
        requires { AreValues self.old.nodes terms.now (map expr_of exprs.now) }
        ensures ledger { OnOk result (ledger_of self.new ≡ saying (pure.assert_exprs (way_of self.old terms.now) (map expr_of exprs.now)) (ledger_of self.old)) }
        ensures values { IfOk result (λ values. trees_at self.new.nodes values.items ≡ map (term_of (trees_in self.old.nodes terms.now)) (map expr_of exprs.now)) }
        ensures locals { IfOk result (λ values. (program : Program) (all tys : List types.Ty) → AreLocals self.old.nodes all terms.now → are_exprs program all tys (map expr_of exprs.now) ≡ true → AreLocals self.new.nodes tys values.items) }
        ensures many { IfOk result (λ values. length values.items ≡ length exprs.now) }
        ensures grows { Grows self.old.nodes self.new.nodes }
    {
        let mut values = Vec::new(alloc);
        for expr in exprs {
            let value = self.value(alloc, terms, expr)?;
            values.push(value)?;
        }
        Ok(values)
    }
}
