//! Passing over statements.
#![tactic(auto, using(df_nenc::proofs::Growing::grows_not, df_nenc::proofs::Growing::grows_then, df_nenc::proofs::Growing::term_stays, df_nledger::proofs::Growing::ledger_stays, crate::proofs::Waiting::passed_stays, crate::proofs::Passing::is_passed, df_nledger::proofs::Growing::measured_stay))]

ghost use Rattle.std.specs.Prelude.{◌≡◌, Bool, ◌≤◌, ◌++◌, ◌||◌, ◌∷◌, [], List, true, false, if◌then◌else◌, length, map, drop, None, Some, OnOk, IfOk};
ghost use Rattle.std.specs.List.{flat_map, list_all};
ghost use Rattle.df_groups.specs.Parts.{stmts_in, branches_in};
ghost use Rattle.df_lang.specs.ExprView.{expr_of};
ghost use Rattle.df_lang.specs.Measures.{loop_measure};
ghost use Rattle.df_lang.specs.Stmt.{Stmts, While};
ghost use Rattle.df_lang.specs.StmtView.{clause_of, operand_of, stmt_of};
ghost use Rattle.df_lang.specs.View.{program_of};
ghost use Rattle.df_lang.specs.declared.ty.Ty.TheVariants as types;
ghost use Rattle.df_lang.specs.Typing.{are_clauses, are_measures, is_expr};
ghost use Rattle.df_meaning.specs.declared.kind.Kind.TheVariants as kinds;
ghost use Rattle.df_nenc.specs.Growing.{Grows};
ghost use Rattle.df_meaning.specs.Modular.{Changed as ChangedLocal};
ghost use Rattle.df_nenc.specs.Standing.{IsTerm, Stands};
ghost use Rattle.df_nenc.specs.Tree.{path_in, tree_at};
ghost use Rattle.df_nflow.specs.Branches.{Ended, Parts};
ghost use Rattle.df_nflow.specs.Joining.{AllThere, paths_in};
ghost use Rattle.df_nledger.specs.Ledger.{ledger_of};
ghost use Rattle.df_nflow.specs.Loops.{any_turn, loop_head, loop_past, turned_if, past_loop, join_past};
ghost use Rattle.df_nflow.specs.PassedView.{standing_of};
ghost use Rattle.df_nledger.specs.Said.{HasPath};
ghost use Rattle.df_nflow.specs.Standing.{Standing, also, at_path, Moves, Passes, Joins};
ghost use Rattle.df_nflow.specs.Typed.{are_at, is_operand_over, is_over, are_over, are_branches_over};
ghost use Rattle.df_nflow.specs.Views.{AreArrived, ArePaths, arrivals_in, all_ended_in};
ghost use Rattle.df_nlocals.specs.Views.{changed_in};
ghost use Rattle.df_nledger.specs.Setting.{setting_of};
ghost use Rattle.df_nflow.specs.Ways.{Arrive, arrival};
ghost use Rattle.df_nmeas.specs.Measuring.{AreMembers, decreases_in, measured_in};
ghost use Rattle.df_npass.specs.Rules as rules;
ghost use Rattle.df_npass.specs.Rules.{any_path as any_of};
ghost use Rattle.df_npass.specs.Statements as pure;
ghost use Rattle.df_nterm.specs.Expressions.{term_of};
ghost use Rattle.df_nterm.specs.Measuring.{measured};
ghost use Rattle.df_nterm.specs.Term.{Truths, negation as negated};

use crate::join::any_path;
use crate::passed::Passed;
use crate::way::{Arrived, Exits, Onward};
use df_base::Pos;
use df_form::{Formula, Kind};
use df_lang::{Branch, Clause, Expr, Measure, Operand, Stmt};
use df_nenc::negation;
use df_nledger::{Ledger, Setting};
use df_nlocals::{Changed, outside, outside_if};
use df_nmeas::Measured;
use std::alloc::{AllocError, Global};

/// What the branches of an `if` lead to: the ways at their ends, and whether some runs that came may not go on.
#[derive(Drop)]
struct Parted {
    arrived: Vec<Arrived>,
    loses: bool,
}

impl Parted {
    /// Another branch leads to these too.
    fn add(&mut self, other: Parted) -> Result<(), AllocError>
        ensures arrived { OnOk result (self.new.arrived.items ≡ self.old.arrived.items ++ other.arrived.items) }
        ensures loses { OnOk result (self.new.loses ≡ (self.old.loses || other.loses)) }
    {
        let mut arrived = other.arrived;
        self.arrived.append(&mut arrived)?;
        self.loses = self.loses || other.loses;
        Ok(())
    }
}

/// All runs go on.
fn on() -> Onward
    ensures goes_on { result.goes_on ≡ true }
    ensures loses { result.loses ≡ false }
{
    Onward {
        goes_on: true,
        loses: false,
    }
}

/// No run goes on.
fn off() -> Onward
    ensures goes_on { result.goes_on ≡ false }
    ensures loses { result.loses ≡ true }
{
    Onward {
        goes_on: false,
        loses: true,
    }
}

/// The way at the end of a branch, where runs go on there.
fn ended(alloc: Global, goes_on: bool, way: Arrived) -> Result<Vec<Arrived>, AllocError>
    ensures { IfOk result (λ arrived. arrived.items ≡ (if goes_on then way ∷ [] else [])) }
{
    let mut arrived = Vec::new(alloc);
    if goes_on {
        arrived.push(way)?;
    }
    Ok(arrived)
}

/// The formula of the runs that come behind branches: of those that go on there, or of all that came before.
fn path_behind(
    ledger: &mut Ledger,
    alloc: Global,
    before: Option<Formula>,
    parted: &Parted,
) -> Result<Option<Formula>, AllocError>
    requires before { HasPath ledger.old.nodes before }
    requires arrived { ArePaths ledger.old.nodes parted.now.arrived.items }
    ensures ledger { OnOk result (ledger_of ledger.new ≡ ledger_of ledger.old) }
    ensures path { IfOk result (λ path. path_in ledger.new.nodes path ≡ (if parted.now.loses then any_of (paths_in (arrivals_in ledger.old.nodes parted.now.arrived.items)) else path_in ledger.old.nodes before)) }
    ensures is_path { IfOk result (λ path. HasPath ledger.new.nodes path) }
    ensures grows { Grows ledger.old.nodes ledger.new.nodes }
{
    if parted.loses {
        any_path(ledger, alloc, &parted.arrived)
    } else {
        Ok(before)
    }
}

impl Passed {
    /// An operand has a value.
    fn operand(&mut self, setting: &Setting, operand: &Operand) -> Result<(), AllocError>
        requires { is_operand_over (program_of setting.now.program.now) self.old.types.items (operand_of operand.now) ≡ true }
        ensures said { OnOk result (standing_of self.new ≡ also (pure.assert_operand (standing_of self.old).way (operand_of operand.now)) (standing_of self.old)) }
        ensures grows { Grows self.old.ledger.nodes self.new.ledger.nodes }
    {
        match operand {
            Operand::Text(_) => Ok(()),
            Operand::Value { value, .. } => {
                self.ledger.value(setting.alloc, &self.terms, value)?;
                Ok(())
            }
        }
    }

    /// Operands have values.
    fn print(&mut self, setting: &Setting, operands: &[Operand]) -> Result<(), AllocError>
        requires { list_all (is_operand_over (program_of setting.now.program.now) self.old.types.items) (map operand_of operands.now) ≡ true }
        ensures said { OnOk result (standing_of self.new ≡ also (flat_map (pure.assert_operand (standing_of self.old).way) (map operand_of operands.now)) (standing_of self.old)) }
        ensures grows { Grows self.old.ledger.nodes self.new.ledger.nodes }
    {
        for operand in operands {
            self.operand(setting, operand)?;
        }
        Ok(())
    }

    /// A condition has a value and is true: it is owed.
    fn assert(&mut self, setting: &Setting, pos: Pos, condition: &Expr) -> Result<(), AllocError>
        requires { is_expr (program_of setting.now.program.now) self.old.types.items types.Bool (expr_of condition.now) ≡ true }
        ensures moves { OnOk result (Moves (standing_of self.old) (pure.saying (pure.assert_expr (standing_of self.old).way (expr_of condition.now) ++ rules.assert (standing_of self.old).way.path pos kinds.Assert (term_of (standing_of self.old).way.env (expr_of condition.now))) (standing_of self.old).fresh (standing_of self.old).way) (standing_of self.new)) }
        ensures grows { Grows self.old.ledger.nodes self.new.ledger.nodes }
    {
        let formula = self.ledger.value(setting.alloc, &self.terms, condition)?;
        self.ledger
            .assert(setting.alloc, pos, Kind::Assert, formula)
    }

    /// The formula of a guard, which is owed to have a value.
    fn guard(&mut self, setting: &Setting, guard: &Expr) -> Result<Formula, AllocError>
        requires { is_expr (program_of setting.now.program.now) self.old.types.items types.Bool (expr_of guard.now) ≡ true }
        ensures said { OnOk result (standing_of self.new ≡ also (pure.assert_expr (standing_of self.old).way (expr_of guard.now)) (standing_of self.old)) }
        ensures stands { IfOk result (λ n. Stands self.new.ledger.nodes (term_of (standing_of self.old).way.env (expr_of guard.now)) n) }
        ensures formula { IfOk result (λ n. IsTerm Truths self.new.ledger.nodes n) }
        ensures grows { Grows self.old.ledger.nodes self.new.ledger.nodes }
    {
        self.ledger.value(setting.alloc, &self.terms, guard)
    }

    /// Locals have any values of their types.
    fn havoc(&mut self, alloc: Global, changed: &[Changed]) -> Result<(), AllocError>
        requires { are_at self.old.types.items (changed_in changed.now) ≡ true }
        ensures moves { OnOk result (Moves (standing_of self.old) (rules.havoc (changed_in changed.now) (standing_of self.old).fresh (standing_of self.old).way) (standing_of self.new)) }
        ensures grows { Grows self.old.ledger.nodes self.new.ledger.nodes }
    {
        for one in changed {
            let term = self.ledger.any(alloc, one.ty)?;
            self.give(one.local, term)?;
        }
        Ok(())
    }

    /// Runs come here of which the formula is true too.
    fn enter(&mut self, alloc: Global, formula: Formula) -> Result<(), AllocError>
        requires { IsTerm Truths self.old.ledger.nodes formula }
        ensures standing { OnOk result (standing_of self.new ≡ at_path (Some (rules.narrowed_path (standing_of self.old).way.path (tree_at self.old.ledger.nodes formula))) (standing_of self.old)) }
        ensures grows { Grows self.old.ledger.nodes self.new.ledger.nodes }
    {
        let path = self.ledger.narrowed(alloc, formula)?;
        self.ledger.path = Some(path);
        Ok(())
    }

    /// The formula of the runs that come here, of which another one is false.
    fn past(&mut self, alloc: Global, formula: Formula) -> Result<Formula, AllocError>
        requires { IsTerm Truths self.old.ledger.nodes formula }
        ensures standing { OnOk result (standing_of self.new ≡ standing_of self.old) }
        ensures stands { IfOk result (λ n. Stands self.new.ledger.nodes (rules.narrowed_path (standing_of self.old).way.path (negated (tree_at self.old.ledger.nodes formula))) n) }
        ensures formula { IfOk result (λ n. IsTerm Truths self.new.ledger.nodes n) }
        ensures grows { Grows self.old.ledger.nodes self.new.ledger.nodes }
    {
        let negated = negation(alloc, &mut self.ledger.nodes, formula)?;
        self.ledger.narrowed(alloc, negated)
    }

    /// A guard has a value, and runs come here of which it is true: the formula of those that pass its branch by.
    fn enter_branch(&mut self, setting: &Setting, guard: &Expr) -> Result<Formula, AllocError>
        requires { is_expr (program_of setting.now.program.now) self.old.types.items types.Bool (expr_of guard.now) ≡ true }
        ensures standing { OnOk result (standing_of self.new ≡ at_path (rules.narrowed (standing_of self.old).way (term_of (standing_of self.old).way.env (expr_of guard.now))).path (also (pure.assert_expr (standing_of self.old).way (expr_of guard.now)) (standing_of self.old))) }
        ensures stands { IfOk result (λ n. Stands self.new.ledger.nodes (rules.narrowed_path (standing_of self.old).way.path (negated (term_of (standing_of self.old).way.env (expr_of guard.now)))) n) }
        ensures formula { IfOk result (λ n. IsTerm Truths self.new.ledger.nodes n) }
        ensures grows { Grows self.old.ledger.nodes self.new.ledger.nodes }
    {
        let formula = self.guard(setting, guard)?;
        let past = self.past(setting.alloc, formula)?;
        self.enter(setting.alloc, formula)?;
        Ok(past)
    }

    /// A way out of the loop around.
    fn leave_loop(&mut self, alloc: Global, exits: Exits) -> Result<Onward, AllocError>
        requires { are_at self.old.types.items (changed_in exits.in_loop.now) ≡ true }
        ensures passes { IfOk result (λ onward. Passes (changed_in exits.entry.in_loop.now) (changed_in exits.entry.in_method.now) (standing_of self.old) (record { said = []; fresh = (standing_of self.old).fresh; way = None; breaks = (standing_of self.old).way ∷ []; returns = []; loses = true }) (standing_of self.new) onward.goes_on onward.loses) }
        ensures grows { Grows self.old.ledger.nodes self.new.ledger.nodes }
    {
        let way = self.arrived(alloc, exits.in_loop, Vec::new(alloc))?;
        self.breaks.push(way)?;
        Ok(off())
    }

    /// A way out of the method.
    pub(crate) fn leave_method(&mut self, alloc: Global, exits: Exits) -> Result<Onward, AllocError>
        requires { are_at self.old.types.items (changed_in exits.in_method.now) ≡ true }
        ensures passes { IfOk result (λ onward. Passes (changed_in exits.entry.in_loop.now) (changed_in exits.entry.in_method.now) (standing_of self.old) (record { said = []; fresh = (standing_of self.old).fresh; way = None; breaks = []; returns = (standing_of self.old).way ∷ []; loses = true }) (standing_of self.new) onward.goes_on onward.loses) }
        ensures grows { Grows self.old.ledger.nodes self.new.ledger.nodes }
    {
        let way = self.arrived(alloc, exits.in_method, Vec::new(alloc))?;
        self.returns.push(way)?;
        Ok(off())
    }

    /// A statement: what is owed and known in it, in the order of evaluation. Behind it the locals have their new terms,
    /// and the ways out of the loop around and of the method wait. Whether runs go on to the next statement is answered,
    /// and whether some that came may not.
    #[cycle(stmt)]
    fn stmt(&mut self, setting: &Setting, exits: Exits, stmt: &Stmt) -> Result<Onward, AllocError>
        requires typed { is_over (program_of setting.now.program.now) self.old.types.items (stmt_of stmt.now) ≡ true }
        requires in_loop { are_at self.old.types.items (changed_in exits.in_loop.now) ≡ true }
        requires in_method { are_at self.old.types.items (changed_in exits.in_method.now) ≡ true }
        ensures passes { IfOk result (λ onward. Passes (changed_in exits.entry.in_loop.now) (changed_in exits.entry.in_method.now) (standing_of self.old) (pure.pass_stmt (setting_of setting.now (standing_of self.old).entry) (standing_of self.old).way (stmt_of stmt.now) (standing_of self.old).fresh) (standing_of self.new) onward.goes_on onward.loses) }
        ensures grows { Grows self.old.ledger.nodes self.new.ledger.nodes }
    {
        match stmt {
            Stmt::Block { body, .. } => self.stmts(setting, exits, body),
            Stmt::Var { update, .. } => {
                self.optional(setting, update)?;
                Ok(on())
            }
            Stmt::Assign { update, .. } => {
                self.update(setting, update)?;
                Ok(on())
            }
            Stmt::Call(call) => {
                self.call(setting, call)?;
                Ok(on())
            }
            Stmt::If {
                branches,
                otherwise,
            } => {
                let changed = outside_if(setting.alloc, branches, otherwise)?;
                let before = self.ledger.path;
                let mut parted = self.branches(setting, exits, &changed, branches)?;
                parted.add(self.branch(setting, exits, &changed, otherwise)?)?;
                self.rejoin(setting.alloc, before, &changed, &parted)
            }
            Stmt::While {
                pos,
                guard,
                invariants,
                decreases,
                body,
            } => self.looping(setting, exits, body, *pos, guard, invariants, decreases),
            Stmt::Break { .. } => self.leave_loop(setting.alloc, exits),
            Stmt::Return { update, .. } => self.return_with(setting, exits, update),
            Stmt::Assert { pos, condition } => {
                self.assert(setting, *pos, condition)?;
                Ok(on())
            }
            Stmt::Print { operands, .. } => {
                self.print(setting, operands)?;
                Ok(on())
            }
        }
    }

    /// Statements in order, as far as a run goes on.
    #[cycle(stmt)]
    pub(crate) fn stmts(
        &mut self,
        setting: &Setting,
        exits: Exits,
        stmts: &Vec<Stmt>,
    ) -> Result<Onward, AllocError>
        requires typed { are_over (program_of setting.now.program.now) self.old.types.items (stmts_in stmts.now.items) ≡ true }
        requires in_loop { are_at self.old.types.items (changed_in exits.in_loop.now) ≡ true }
        requires in_method { are_at self.old.types.items (changed_in exits.in_method.now) ≡ true }
        ensures passes { IfOk result (λ onward. Passes (changed_in exits.entry.in_loop.now) (changed_in exits.entry.in_method.now) (standing_of self.old) (pure.pass_all (setting_of setting.now (standing_of self.old).entry) (standing_of self.old).way (stmts_in stmts.now.items) (standing_of self.old).fresh) (standing_of self.new) onward.goes_on onward.loses) }
        ensures grows { Grows self.old.ledger.nodes self.new.ledger.nodes }
    {
        let mut loses = false;
        for stmt in stmts {
            let onward = self.stmt(setting, exits, stmt)?;
            loses = loses || onward.loses;
            if !onward.goes_on {
                return Ok(Onward {
                    goes_on: false,
                    loses,
                });
            }
        }
        Ok(Onward {
            goes_on: true,
            loses,
        })
    }

    /// A branch: behind it the locals have the terms again that they have here.
    #[cycle(stmt)]
    fn branch(
        &mut self,
        setting: &Setting,
        exits: Exits,
        changed: &[Changed],
        body: &Vec<Stmt>,
    ) -> Result<Parted, AllocError>
        requires typed { are_over (program_of setting.now.program.now) self.old.types.items (stmts_in body.now.items) ≡ true }
        requires in_loop { are_at self.old.types.items (changed_in exits.in_loop.now) ≡ true }
        requires in_method { are_at self.old.types.items (changed_in exits.in_method.now) ≡ true }
        requires changed { are_at self.old.types.items (changed_in changed.now) ≡ true }
        ensures parts { IfOk result (λ parted. Parts (changed_in changed.now) (changed_in exits.entry.in_loop.now) (changed_in exits.entry.in_method.now) (standing_of self.old) (pure.last_of (pure.pass_all (setting_of setting.now (standing_of self.old).entry) (standing_of self.old).way (stmts_in body.now.items) (standing_of self.old).fresh)) (standing_of self.new) (all_ended_in self.new.ledger.nodes parted.arrived.items) parted.loses) }
        ensures arrived { IfOk result (λ parted. AreArrived self.new.ledger.nodes self.new.types.items parted.arrived.items) }
        ensures grows { Grows self.old.ledger.nodes self.new.ledger.nodes }
    {
        let mark = self.trail.len();
        let onward = self.stmts(setting, exits, body)?;
        self.end_branch(setting.alloc, mark, changed, onward)
    }

    /// Each branch where its guard is true and those before it are false: it leads to where all are false.
    #[cycle(stmt)]
    fn branches(
        &mut self,
        setting: &Setting,
        exits: Exits,
        changed: &[Changed],
        branches: &Vec<Branch>,
    ) -> Result<Parted, AllocError>
        requires typed { are_branches_over (program_of setting.now.program.now) self.old.types.items (branches_in branches.now.items) ≡ true }
        requires in_loop { are_at self.old.types.items (changed_in exits.in_loop.now) ≡ true }
        requires in_method { are_at self.old.types.items (changed_in exits.in_method.now) ≡ true }
        requires changed { are_at self.old.types.items (changed_in changed.now) ≡ true }
        ensures parts { IfOk result (λ parted. (otherwise : Stmts) (last : Standing) (ended : List Ended) (lost : Bool) → Parts (changed_in changed.now) (changed_in exits.entry.in_loop.now) (changed_in exits.entry.in_method.now) (standing_of self.new) (pure.last_of (pure.pass_all (setting_of setting.now (standing_of self.old).entry) (standing_of self.new).way otherwise (standing_of self.new).fresh)) last ended lost
            → Parts (changed_in changed.now) (changed_in exits.entry.in_loop.now) (changed_in exits.entry.in_method.now) (standing_of self.old) (pure.pass_branches (setting_of setting.now (standing_of self.old).entry) (standing_of self.old).way (branches_in branches.now.items) (λ way. pure.pass_all (setting_of setting.now (standing_of self.old).entry) way otherwise) (standing_of self.old).fresh) last (all_ended_in self.new.ledger.nodes parted.arrived.items ++ ended) (parted.loses || lost)) }
        ensures types { OnOk result ((standing_of self.new).types ≡ (standing_of self.old).types) }
        ensures entry { OnOk result ((standing_of self.new).entry ≡ (standing_of self.old).entry) }
        ensures arrived { IfOk result (λ parted. AreArrived self.new.ledger.nodes self.new.types.items parted.arrived.items) }
        ensures grows { Grows self.old.ledger.nodes self.new.ledger.nodes }
    {
        let mut parted = Parted {
            arrived: Vec::new(setting.alloc),
            loses: false,
        };
        for branch in branches {
            let past = self.enter_branch(setting, &branch.guard)?;
            parted.add(self.branch(setting, exits, changed, &branch.body)?)?;
            self.ledger.path = Some(past);
        }
        Ok(parted)
    }

    /// A loop: its invariants are owed before it. Then the locals that its body changes have any values that keep the
    /// invariants, and where the guard is true the body is passed once, behind which the invariants are owed again, and
    /// that the measure has fallen. Behind the loop come the runs of which the guard is false, and those of its breaks.
    #[cycle(stmt)]
    fn looping(
        &mut self,
        setting: &Setting,
        exits: Exits,
        body: &Vec<Stmt>,
        pos: Pos,
        guard: &Expr,
        invariants: &Vec<Clause>,
        decreases: &Option<Vec<Measure>>,
    ) -> Result<Onward, AllocError>
        requires typed { is_over (program_of setting.now.program.now) self.old.types.items (While pos (expr_of guard.now) (map clause_of invariants.now.items) (decreases_in decreases.now) (stmts_in body.now.items)) ≡ true }
        requires in_method { are_at self.old.types.items (changed_in exits.in_method.now) ≡ true }
        ensures passes { IfOk result (λ onward. Passes (changed_in exits.entry.in_loop.now) (changed_in exits.entry.in_method.now) (standing_of self.old) (pure.pass_stmt (setting_of setting.now (standing_of self.old).entry) (standing_of self.old).way (While pos (expr_of guard.now) (map clause_of invariants.now.items) (decreases_in decreases.now) (stmts_in body.now.items)) (standing_of self.old).fresh) (standing_of self.new) onward.goes_on onward.loses) }
        ensures grows { Grows self.old.ledger.nodes self.new.ledger.nodes }
    {
        let changed = outside(setting.alloc, body)?;
        let (past, before) = self.begin_loop(setting, &changed, guard, invariants, decreases)?;
        let mark = self.trail.len();
        let first = self.breaks.len();
        let inside = Exits {
            in_loop: &changed,
            in_method: exits.in_method,
        };
        let onward = self.stmts(setting, inside, body)?;
        self.turn_if(
            setting,
            onward.goes_on,
            pos,
            guard,
            invariants,
            decreases,
            &before,
        )?;
        let goes_on = self.end_loop(setting.alloc, mark, first, past, &changed)?;
        Ok(Onward {
            goes_on,
            loses: true,
        })
    }
}

impl Passed {
    /// A branch ends: the locals have the terms again that they had when the trail was so long.
    fn end_branch(
        &mut self,
        alloc: Global,
        mark: usize,
        changed: &[Changed],
        onward: Onward,
    ) -> Result<Parted, AllocError>
        requires mark { mark ≤ length self.old.trail.items }
        requires changed { are_at self.old.types.items (changed_in changed.now) ≡ true }
        ensures parts { IfOk result (λ parted. (in_loop in_method : List ChangedLocal) (before : Standing) (flow : pure.Flow) → Passes in_loop in_method before flow (standing_of self.old) onward.goes_on onward.loses → mark ≡ length before.trail
            → Parts (changed_in changed.now) in_loop in_method before (pure.last_of flow) (standing_of self.new) (all_ended_in self.new.ledger.nodes parted.arrived.items) parted.loses) }
        ensures arrived { IfOk result (λ parted. AreArrived self.new.ledger.nodes self.new.types.items parted.arrived.items) }
        ensures nodes { self.new.ledger.nodes ≡ self.old.ledger.nodes }
    {
        let mut way = self.arrived(alloc, changed, Vec::new(alloc))?;
        way.ahead = self.rewind(alloc, mark)?;
        let arrived = ended(alloc, onward.goes_on, way)?;
        Ok(Parted {
            arrived,
            loses: onward.loses,
        })
    }

    /// Where all branches have been passed, their ways come together.
    fn rejoin(
        &mut self,
        alloc: Global,
        before: Option<Formula>,
        changed: &[Changed],
        parted: &Parted,
    ) -> Result<Onward, AllocError>
        requires before { HasPath self.old.ledger.nodes before }
        requires changed { are_at self.old.types.items (changed_in changed.now) ≡ true }
        requires arrived { AreArrived self.old.ledger.nodes self.old.types.items parted.now.arrived.items }
        requires there { AllThere 0 (changed_in changed.now) (arrivals_in self.old.ledger.nodes parted.now.arrived.items) }
        ensures passes { IfOk result (λ onward. (in_loop in_method : List ChangedLocal) (start : Standing) (all : pure.Parted) → Parts (changed_in changed.now) in_loop in_method start all (standing_of self.old) (all_ended_in self.old.ledger.nodes parted.now.arrived.items) parted.now.loses → path_in self.old.ledger.nodes before ≡ start.way.path
            → Passes in_loop in_method start (pure.rejoined (changed_in changed.now) start.way all) (standing_of self.new) onward.goes_on onward.loses) }
        ensures grows { Grows self.old.ledger.nodes self.new.ledger.nodes }
    {
        let path = path_behind(&mut self.ledger, alloc, before, parted)?;
        let goes_on = self.join_branches(alloc, path, changed, &parted.arrived)?;
        Ok(Onward {
            goes_on,
            loses: parted.loses,
        })
    }

    /// Invariants are owed before a loop, and known of any values of the locals that it changes.
    fn any_turn(
        &mut self,
        setting: &Setting,
        changed: &[Changed],
        invariants: &[Clause],
    ) -> Result<(), AllocError>
        requires changed { are_at self.old.types.items (changed_in changed.now) ≡ true }
        requires invariants { are_clauses (program_of setting.now.program.now) self.old.types.items (map clause_of invariants.now) ≡ true }
        ensures moves { OnOk result (Moves (standing_of self.old) (any_turn (changed_in changed.now) (map clause_of invariants.now) (standing_of self.old).way (standing_of self.old).fresh) (standing_of self.new)) }
        ensures grows { Grows self.old.ledger.nodes self.new.ledger.nodes }
    {
        let alloc = setting.alloc;
        self.ledger
            .assert_clauses(alloc, &self.terms, None, Kind::Entry, invariants)?;
        self.havoc(alloc, changed)?;
        self.ledger.assume_clauses(alloc, &self.terms, invariants)
    }

    /// What is owed and known before the body of a loop, up to its measure, where the guard is true: the formula of the
    /// runs that pass the loop by, and the measure.
    fn begin_loop(
        &mut self,
        setting: &Setting,
        changed: &[Changed],
        guard: &Expr,
        invariants: &[Clause],
        decreases: &Option<Vec<Measure>>,
    ) -> Result<(Formula, Vec<Measured>), AllocError>
        requires changed { are_at self.old.types.items (changed_in changed.now) ≡ true }
        requires guard { is_expr (program_of setting.now.program.now) self.old.types.items types.Bool (expr_of guard.now) ≡ true }
        requires invariants { are_clauses (program_of setting.now.program.now) self.old.types.items (map clause_of invariants.now) ≡ true }
        requires measures { are_measures (program_of setting.now.program.now) self.old.types.items (decreases_in decreases.now) ≡ true }
        ensures moves { OnOk result (Moves (standing_of self.old) (loop_head (changed_in changed.now) (expr_of guard.now) (map clause_of invariants.now) (loop_measure (expr_of guard.now) (decreases_in decreases.now)) (standing_of self.old).way (standing_of self.old).fresh) (standing_of self.new)) }
        ensures past { IfOk result (λ pair. Stands self.new.ledger.nodes (loop_past (changed_in changed.now) (expr_of guard.now) (standing_of self.old).way (standing_of self.old).fresh) pair.0) }
        ensures formula { IfOk result (λ pair. IsTerm Truths self.new.ledger.nodes pair.0) }
        ensures measured { IfOk result (λ pair. measured_in self.new.ledger.nodes pair.1.items ≡ measured (standing_of self.new).way.env (loop_measure (expr_of guard.now) (decreases_in decreases.now))) }
        ensures are { IfOk result (λ pair. AreMembers self.new.ledger.nodes pair.1.items) }
        ensures grows { Grows self.old.ledger.nodes self.new.ledger.nodes }
    {
        self.any_turn(setting, changed, invariants)?;
        let past = self.enter_branch(setting, guard)?;
        let before = self
            .ledger
            .loop_measure(setting.alloc, &self.terms, guard, decreases)?;
        Ok((past, before))
    }

    /// Behind the body the invariants are owed again, and that the measure has fallen.
    fn turn(
        &mut self,
        setting: &Setting,
        pos: Pos,
        guard: &Expr,
        invariants: &[Clause],
        decreases: &Option<Vec<Measure>>,
        before: &[Measured],
    ) -> Result<(), AllocError>
        requires guard { is_expr (program_of setting.now.program.now) self.old.types.items types.Bool (expr_of guard.now) ≡ true }
        requires invariants { are_clauses (program_of setting.now.program.now) self.old.types.items (map clause_of invariants.now) ≡ true }
        requires measures { are_measures (program_of setting.now.program.now) self.old.types.items (decreases_in decreases.now) ≡ true }
        requires before { AreMembers self.old.ledger.nodes before.now }
        ensures said { OnOk result (standing_of self.new ≡ also (pure.assert_turn pos (map clause_of invariants.now) (loop_measure (expr_of guard.now) (decreases_in decreases.now)) (measured_in self.old.ledger.nodes before.now) (standing_of self.old).way) (standing_of self.old)) }
        ensures grows { Grows self.old.ledger.nodes self.new.ledger.nodes }
    {
        let alloc = setting.alloc;
        self.ledger
            .assert_clauses(alloc, &self.terms, None, Kind::Turn, invariants)?;
        let now = self
            .ledger
            .loop_measure(alloc, &self.terms, guard, decreases)?;
        self.ledger.assert_below(alloc, pos, &now, before)
    }

    /// That is owed where runs go on behind the body.
    fn turn_if(
        &mut self,
        setting: &Setting,
        goes_on: bool,
        pos: Pos,
        guard: &Expr,
        invariants: &[Clause],
        decreases: &Option<Vec<Measure>>,
        before: &[Measured],
    ) -> Result<(), AllocError>
        requires guard { is_expr (program_of setting.now.program.now) self.old.types.items types.Bool (expr_of guard.now) ≡ true }
        requires invariants { are_clauses (program_of setting.now.program.now) self.old.types.items (map clause_of invariants.now) ≡ true }
        requires measures { are_measures (program_of setting.now.program.now) self.old.types.items (decreases_in decreases.now) ≡ true }
        requires before { AreMembers self.old.ledger.nodes before.now }
        ensures said { OnOk result (standing_of self.new ≡ also (turned_if goes_on (pure.assert_turn pos (map clause_of invariants.now) (loop_measure (expr_of guard.now) (decreases_in decreases.now)) (measured_in self.old.ledger.nodes before.now)) (standing_of self.old).way) (standing_of self.old)) }
        ensures grows { Grows self.old.ledger.nodes self.new.ledger.nodes }
    {
        if goes_on {
            self.turn(setting, pos, guard, invariants, decreases, before)
        } else {
            Ok(())
        }
    }

    /// The way past a loop and those of its breaks. The locals have again the terms that they had before its body.
    fn ways_past(
        &mut self,
        alloc: Global,
        mark: usize,
        first: usize,
        past: Formula,
        changed: &[Changed],
    ) -> Result<Vec<Arrived>, AllocError>
        requires mark { mark ≤ length self.old.trail.items }
        requires first { first ≤ length self.old.breaks.items }
        requires past { IsTerm Truths self.old.ledger.nodes past }
        requires changed { are_at self.old.types.items (changed_in changed.now) ≡ true }
        ensures standing { OnOk result (standing_of self.new ≡ past_loop mark first (tree_at self.old.ledger.nodes past) (standing_of self.old)) }
        ensures ways { IfOk result (λ ways. arrivals_in self.new.ledger.nodes ways.items ≡ arrival (changed_in changed.now) (standing_of self.new).way ∷ drop first (standing_of self.old).breaks) }
        ensures are { IfOk result (λ ways. AreArrived self.new.ledger.nodes self.new.types.items ways.items) }
        ensures nodes { self.new.ledger.nodes ≡ self.old.ledger.nodes }
    {
        self.rewind(alloc, mark)?;
        self.ledger.path = Some(past);
        let mut ways = Vec::new(alloc);
        ways.push(self.arrived(alloc, changed, Vec::new(alloc))?)?;
        let mut breaks = self.breaks.split_off(first)?;
        ways.append(&mut breaks)?;
        Ok(ways)
    }

    /// Behind the loop come the runs that pass it by, and those of its breaks: whether there are any is answered.
    fn end_loop(
        &mut self,
        alloc: Global,
        mark: usize,
        first: usize,
        past: Formula,
        changed: &[Changed],
    ) -> Result<bool, AllocError>
        requires mark { mark ≤ length self.old.trail.items }
        requires first { first ≤ length self.old.breaks.items }
        requires past { IsTerm Truths self.old.ledger.nodes past }
        requires changed { are_at self.old.types.items (changed_in changed.now) ≡ true }
        requires there { AllThere 0 (changed_in changed.now) (drop first (standing_of self.old).breaks) }
        ensures passes { IfOk result (λ goes_on. (ways : List rules.Way) → Arrive (changed_in changed.now) (drop first (standing_of self.old).breaks) ways
            → Joins (past_loop mark first (tree_at self.old.ledger.nodes past) (standing_of self.old)) (join_past (changed_in changed.now) (past_loop mark first (tree_at self.old.ledger.nodes past) (standing_of self.old)) ways) (standing_of self.new) goes_on) }
        ensures grows { Grows self.old.ledger.nodes self.new.ledger.nodes }
    {
        let ways = self.ways_past(alloc, mark, first, past, changed)?;
        self.join_all(alloc, changed, &ways)
    }
}
