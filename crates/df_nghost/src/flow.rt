//! The way through a body, statement by statement.

ghost use Rattle.std.specs.Prelude.{◌≡◌, ◌++◌, map, flat_map, OnOk};
ghost use Rattle.std.specs.Option.{option_map};
ghost use Rattle.df_lang.specs.ExprView.{expr_of};
ghost use Rattle.df_lang.specs.StmtView.{stmt_of, update_of, call_of, clause_of, measure_of, operand_of};
ghost use Rattle.df_lang.specs.DeclView.{method_of};
ghost use Rattle.df_lang.specs.Assignment as pure;
ghost use Rattle.df_nghost.specs.mirror.Parts.{stmts_in, branches_in};
ghost use Rattle.df_nghost.specs.mirror.Known.{Extends, IsBack, assigned_of};
ghost use Rattle.df_nghost.specs.mirror.Way.{known, ways_of, look, updated, returned, way_of, go, go_all, go_branches, turned};

use crate::assigned::Assigned;
use crate::join::Join;
use crate::reads::{
    Use, first_of_arguments, first_of_clauses, first_of_measure, first_of_operands,
    first_of_results, first_of_sources, first_use,
};
use df_base::{Global, Memory, Pos};
use df_lang::{Branch, Call, Clause, Expr, Measure, Method, Operand, Stmt, Update};

/// What is known at a point of a body. After want of memory it is of no use, and is dropped.
#[derive(Drop)]
pub(crate) struct Flow {
    pub(crate) assigned: Assigned,
    /// The first use, of those so far, of a local without a value.
    pub(crate) first: Option<Use>,
    pub(crate) alloc: Global,
}

impl Flow {
    /// An expression is evaluated.
    fn read(&mut self, expr: &Expr)
        ensures known { known self.new ≡ look (known self.old) (pure.reads (expr_of expr.now)) }
        ensures same { self.new.assigned ≡ self.old.assigned }
    {
        self.first = first_use(&self.assigned, self.first, expr);
    }

    /// A call is made.
    fn call(&mut self, call: &Call)
        ensures known { known self.new ≡ look (known self.old) (pure.reads_of_call (call_of call.now)) }
        ensures same { self.new.assigned ≡ self.old.assigned }
    {
        self.first = first_of_arguments(&self.assigned, self.first, &call.arguments);
    }

    /// What stands before a turn of a loop is evaluated.
    fn head(&mut self, guard: &Expr, invariants: &Vec<Clause>, decreases: &Option<Vec<Measure>>)
        ensures known { known self.new ≡ look (known self.old) (pure.reads (expr_of guard.now) ++ pure.reads_of_clauses (map clause_of invariants.now.items) ++ pure.reads_of_measures (option_map (λ measures. map measure_of measures.items) decreases.now)) }
        ensures same { self.new.assigned ≡ self.old.assigned }
    {
        let first = first_use(&self.assigned, self.first, guard);
        let first = first_of_clauses(&self.assigned, first, invariants);
        self.first = first_of_measure(&self.assigned, first, decreases);
    }

    /// Operands are printed.
    fn print(&mut self, operands: &Vec<Operand>)
        ensures known { known self.new ≡ look (known self.old) (flat_map pure.reads_of_operand (map operand_of operands.now.items)) }
        ensures same { self.new.assigned ≡ self.old.assigned }
    {
        self.first = first_of_operands(&self.assigned, self.first, operands);
    }

    /// The method returns at `pos`, and its results are used there.
    pub(crate) fn results(&mut self, method: &Method, pos: Pos)
        ensures known { known self.new ≡ look (known self.old) (pure.results_at (method_of method.now) pos) }
        ensures same { self.new.assigned ≡ self.old.assigned }
    {
        let found = self.first;
        self.first = first_of_results(
            &self.assigned,
            found,
            &method.parameters,
            &method.results,
            pos,
        );
    }

    /// The right sides are evaluated, and their values go to the targets.
    fn update(&mut self, update: &Update) -> Result<(), Memory>
        ensures known { OnOk result (known self.new ≡ updated (known self.old) (Some (update_of update.now))) }
        ensures extends { OnOk result (Extends self.old.assigned self.new.assigned) }
    {
        self.first = first_of_sources(&self.assigned, self.first, &update.sources);
        self.assigned.assign_targets(&update.targets)
    }

    /// The same, where there is an update.
    fn optional(&mut self, update: &Option<Update>) -> Result<(), Memory>
        ensures known { OnOk result (known self.new ≡ updated (known self.old) (option_map update_of update.now)) }
        ensures extends { OnOk result (Extends self.old.assigned self.new.assigned) }
    {
        match update {
            Some(update) => self.update(update),
            None => Ok(()),
        }
    }

    /// The method returns at `pos`, behind the update, and no path goes on.
    fn return_at(
        &mut self,
        method: &Method,
        pos: Pos,
        update: &Option<Update>,
    ) -> Result<(), Memory>
        ensures known { OnOk result (known self.new ≡ returned (look (updated (known self.old) (option_map update_of update.now)) (pure.results_at (method_of method.now) pos))) }
        ensures extends { OnOk result (Extends self.old.assigned self.new.assigned) }
    {
        self.optional(update)?;
        self.results(method, pos);
        self.assigned.leave();
        Ok(())
    }

    /// One statement is run.
    #[cycle(flow)]
    fn stmt(&mut self, method: &Method, stmt: &Stmt) -> Result<(), Memory>
        ensures known { OnOk result (known self.new ≡ go (method_of method.now) (known self.old) (stmt_of stmt.now)) }
        ensures extends { OnOk result (Extends self.old.assigned self.new.assigned) }
    {
        match stmt {
            Stmt::Block { body, .. } => self.stmts(method, body)?,
            Stmt::Var { update, .. } => self.optional(update)?,
            Stmt::Assign { update, .. } => self.update(update)?,
            Stmt::Call(call) => self.call(call),
            Stmt::If {
                branches,
                otherwise,
            } => {
                let mut join = Join::new(self.alloc);
                self.branches(method, branches, &mut join)?;
                self.way(method, otherwise, &mut join)?;
                self.assigned.go_on(&join)?;
            }
            Stmt::While {
                guard,
                invariants,
                decreases,
                body,
                ..
            } => {
                self.head(guard, invariants, decreases);
                self.turn(method, body)?;
            }
            Stmt::Break { .. } => self.assigned.leave(),
            Stmt::Return { pos, update } => self.return_at(method, *pos, update)?,
            Stmt::Assert { condition, .. } => self.read(condition),
            Stmt::Print { operands, .. } => self.print(operands),
        }
        Ok(())
    }

    /// Statements are run in order.
    #[cycle(flow)]
    pub(crate) fn stmts(&mut self, method: &Method, stmts: &Vec<Stmt>) -> Result<(), Memory>
        ensures known { OnOk result (known self.new ≡ go_all (method_of method.now) (known self.old) (stmts_in stmts.now.items)) }
        ensures extends { OnOk result (Extends self.old.assigned self.new.assigned) }
    {
        for stmt in stmts {
            self.stmt(method, stmt)?;
        }
        Ok(())
    }

    /// A loop's body is run once. Behind the loop is known what was before it.
    #[cycle(flow)]
    fn turn(&mut self, method: &Method, body: &Vec<Stmt>) -> Result<(), Memory>
        ensures known { OnOk result (known self.new ≡ turned (known self.old) (go_all (method_of method.now) (known self.old) (stmts_in body.now.items))) }
        ensures back { OnOk result (IsBack self.old.assigned self.new.assigned) }
    {
        let count = self.assigned.taken.len();
        let reached = self.assigned.reached;
        self.stmts(method, body)?;
        self.assigned.back(count, reached);
        Ok(())
    }

    /// Each branch is run, and joins.
    #[cycle(flow)]
    fn branches(
        &mut self,
        method: &Method,
        branches: &Vec<Branch>,
        join: &mut Join,
    ) -> Result<(), Memory>
        ensures ways { OnOk result (ways_of self.old.assigned join.new self.new.first ≡ go_branches (method_of method.now) (assigned_of self.old.assigned) (ways_of self.old.assigned join.old self.old.first) (branches_in branches.now.items)) }
        ensures back { OnOk result (IsBack self.old.assigned self.new.assigned) }
    {
        for branch in branches {
            self.read(&branch.guard);
            self.way(method, &branch.body, join)?;
        }
        Ok(())
    }

    /// Statements are run on a way of their own, which joins; then the flow is back where it began.
    #[cycle(flow)]
    fn way(&mut self, method: &Method, stmts: &Vec<Stmt>, join: &mut Join) -> Result<(), Memory>
        ensures ways { OnOk result (ways_of self.old.assigned join.new self.new.first ≡ way_of (ways_of self.old.assigned join.old self.old.first) (go_all (method_of method.now) (known self.old) (stmts_in stmts.now.items))) }
        ensures back { OnOk result (IsBack self.old.assigned self.new.assigned) }
    {
        let count = self.assigned.taken.len();
        let reached = self.assigned.reached;
        self.stmts(method, stmts)?;
        join.add(&self.assigned, count)?;
        self.assigned.back(count, reached);
        Ok(())
    }
}
