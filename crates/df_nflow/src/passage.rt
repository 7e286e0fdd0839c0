//! Passing over methods.
#![tactic(auto, using(df_nenc::proofs::Growing::grows_not, df_nenc::proofs::Growing::grows_then, df_nenc::proofs::Growing::term_stays, df_nledger::proofs::Growing::ledger_stays, crate::proofs::Waiting::passed_stays, crate::proofs::Passing::is_passed, df_nledger::proofs::Growing::measured_stay))]

ghost use Rattle.std.proofs.Props.{props};
ghost use Rattle.std.specs.Prelude.{◌≡◌, ◌++◌, [], List, true, map, Some, OnOk, IfOk};
ghost use Rattle.df_lang.specs.DeclView.{method_of};
ghost use Rattle.df_lang.specs.Program.{method_at};
ghost use Rattle.df_lang.specs.View.{program_of};
ghost use Rattle.df_nflow.specs.Joining.{AllThere};
ghost use Rattle.df_nenc.specs.Growing.{Grows};
ghost use Rattle.df_nflow.specs.Methods.{IsTypedMethod, also_returns, at_end, begun, ended_over, owed_at};
ghost use Rattle.df_nflow.specs.PassedView.{standing_of};
ghost use Rattle.df_nflow.specs.Standing.{Standing, also, way_if, Passes, Joins};
ghost use Rattle.df_nflow.specs.Typed.{are_at};
ghost use Rattle.df_nflow.specs.Views.{AreArrived, arrivals_in};
ghost use Rattle.df_nlocals.specs.Views.{changed_in};
ghost use Rattle.df_nflow.specs.Ways.{Arrive, arrival};
ghost use Rattle.df_nledger.specs.Said.{said_in, AreSaid};
ghost use Rattle.df_npass.specs.Methods.{locals_of, locals_from, pass_method};
ghost use Rattle.df_npass.specs.Rules.{Way, paths_of, any_path as any_of, join as joined};
ghost use Rattle.df_npass.specs.Statements.{Flow, ways_of};

use crate::passed::Passed;
use crate::way::{Arrived, Exits, Onward};
use df_form::{Kind, Nodes};
use df_lang::{DeclId, Method, Program};
use df_nledger::{Ledger, Said, Setting};
use df_nlocals::{Changed, exits, locals};
use std::alloc::{AllocError, Global};
use std::mem;

/// What is said of a declaration, over its nodes.
#[derive(Drop)]
pub struct Passage {
    pub nodes: Nodes,
    pub said: Vec<Said>,
    pub ghost are_said: { AreSaid nodes said.items } by { Prim.hlevel props },
}

impl Passed {
    /// What was said, over its nodes.
    fn into_passage(self) -> Passage
        ensures { said_in result.nodes result.said.items ≡ (standing_of self).said }
    {
        Passage {
            nodes: self.ledger.nodes,
            said: self.ledger.said,
        }
    }

    /// Any arguments, of which what callers owe is asked for, and the measure on entry.
    fn begin(alloc: Global, method: &Method) -> Result<Passed, AllocError>
        requires { IsTypedMethod (method_of method.now) }
        ensures { IfOk result (λ passed. standing_of passed ≡ begun (method_of method.now)) }
    {
        let types = locals(alloc, method)?;
        let mut ledger = Ledger::new(alloc);
        let mut terms = ledger.any_values(alloc, &method.parameters)?;
        ledger.unset(alloc, &types, &mut terms)?;
        ledger.require_all(alloc, &terms, &method.preconditions)?;
        let entry = ledger.method_measure(alloc, &terms, method)?;
        Ok(Passed {
            ledger,
            types,
            terms,
            entry,
            trail: Vec::new(alloc),
            breaks: Vec::new(alloc),
            returns: Vec::new(alloc),
        })
    }

    /// The end of the body leads out of the method too, where runs go on to it.
    fn leave_at_end(
        &mut self,
        alloc: Global,
        exits: &[Changed],
        onward: Onward,
    ) -> Result<(), AllocError>
        requires { are_at self.old.types.items (changed_in exits.now) ≡ true }
        ensures standing { OnOk result (standing_of self.new ≡ also_returns (map (arrival (changed_in exits.now)) (ways_of (way_if onward.goes_on (standing_of self.old).way))) (standing_of self.old)) }
        ensures nodes { self.new.ledger.nodes ≡ self.old.ledger.nodes }
    {
        if !onward.goes_on {
            return Ok(());
        }
        let way = self.arrived(alloc, exits, Vec::new(alloc))?;
        self.returns.push(way)?;
        Ok(())
    }

    /// The ways that lead out of the method. The locals have again the terms that they had at its beginning.
    fn ways_out(&mut self, alloc: Global) -> Result<Vec<Arrived>, AllocError>
        ensures standing { OnOk result (standing_of self.new ≡ at_end (standing_of self.old)) }
        ensures ways { IfOk result (λ ways. arrivals_in self.new.ledger.nodes ways.items ≡ (standing_of self.old).returns) }
        ensures are { IfOk result (λ ways. AreArrived self.new.ledger.nodes self.new.types.items ways.items) }
        ensures nodes { self.new.ledger.nodes ≡ self.old.ledger.nodes }
    {
        self.rewind(alloc, 0)?;
        Ok(mem::replace(&mut self.returns, Vec::new(alloc)))
    }

    /// The ways out come together. Whether any run comes there is answered.
    fn join_ways_out(&mut self, alloc: Global, exits: &[Changed]) -> Result<bool, AllocError>
        requires exits { are_at self.old.types.items (changed_in exits.now) ≡ true }
        requires there { AllThere 0 (changed_in exits.now) (standing_of self.old).returns }
        ensures joins { IfOk result (λ goes_on. (ways : List Way) → Arrive (changed_in exits.now) (standing_of self.old).returns ways
            → Joins (at_end (standing_of self.old)) (joined (any_of (paths_of ways)) (at_end (standing_of self.old)).way.env (changed_in exits.now) ways (standing_of self.old).fresh) (standing_of self.new) goes_on) }
        ensures grows { Grows self.old.ledger.nodes self.new.ledger.nodes }
    {
        let ways = self.ways_out(alloc)?;
        self.join_all(alloc, exits, &ways)
    }

    /// The postconditions are owed, where a run comes here.
    fn owe_postconditions(
        &mut self,
        alloc: Global,
        goes_on: bool,
        method: &Method,
    ) -> Result<(), AllocError>
        requires typed { IsTypedMethod (method_of method.now) }
        requires types { self.old.types.items ≡ locals_of (method_of method.now) }
        ensures said { OnOk result (standing_of self.new ≡ also (owed_at (method_of method.now).postconditions (way_if goes_on (standing_of self.old).way)) (standing_of self.old)) }
    {
        if !goes_on {
            return Ok(());
        }
        self.ledger.assert_clauses(
            alloc,
            &self.terms,
            None,
            Kind::Ensures,
            &method.postconditions,
        )
    }

    /// At the end of the body and at each `return` the postconditions are owed.
    fn end(
        &mut self,
        alloc: Global,
        exits: &[Changed],
        onward: Onward,
        method: &Method,
    ) -> Result<(), AllocError>
        requires typed { IsTypedMethod (method_of method.now) }
        requires types { self.old.types.items ≡ locals_of (method_of method.now) }
        requires exits { changed_in exits.now ≡ locals_from 0 ((method_of method.now).parameters ++ (method_of method.now).results) }
        requires returns { (ways : List Way) × Arrive (changed_in exits.now) (standing_of self.old).returns ways }
        ensures ended { OnOk result ((start : Standing) (flow : Flow) → Passes [] (changed_in exits.now) start flow (standing_of self.old) onward.goes_on onward.loses → start.trail ≡ [] → start.returns ≡ []
            → (standing_of self.new).said ≡ start.said ++ (flow.said ++ ended_over start.way.env (changed_in exits.now) (method_of method.now).postconditions flow)) }
    {
        self.leave_at_end(alloc, exits, onward)?;
        let goes_on = self.join_ways_out(alloc, exits)?;
        self.owe_postconditions(alloc, goes_on, method)
    }
}

/// What passing over a method of a program says, in the order of evaluation.
pub fn method(
    alloc: Global,
    program: &Program,
    groups: &[usize],
    number: DeclId,
    method: &Method,
) -> Result<Passage, AllocError>
    requires { method_at (program_of program.now) number ≡ Some (method_of method.now) }
    ensures { IfOk result (λ passage. said_in passage.nodes passage.said.items ≡ pass_method (program_of program.now) groups.now number (method_of method.now)) }
{
    let setting = Setting {
        alloc,
        program,
        groups,
        number,
    };
    let in_method = exits(alloc, method)?;
    let mut passed = Passed::begin(alloc, method)?;
    let outermost = Exits {
        in_loop: &[],
        in_method: &in_method,
    };
    let onward = passed.stmts(&setting, outermost, &method.body)?;
    passed.end(alloc, &in_method, onward, method)?;
    Ok(passed.into_passage())
}
