//! Expressions, statements and methods without ghosts.

ghost use Rattle.std.specs.Prelude.{◌≡◌, zero, length, map, option_map, IfOk};
ghost use Rattle.df_lang.specs.ExprView as source;
ghost use Rattle.df_lang.specs.StmtView as source_stmt;
ghost use Rattle.df_lang.specs.DeclView as source_decl;
ghost use Rattle.df_lang.specs.Program.{as_method};
ghost use Rattle.df_lang.specs.View.{program_of};
ghost use Rattle.df_nplain.specs.Kind as kinds;
ghost use Rattle.df_nplain.specs.ExprView as plain;
ghost use Rattle.df_nplain.specs.StmtView as plain_stmt;
ghost use Rattle.df_nplain.specs.MethodView as plain_view;
ghost use Rattle.df_nerase.specs.Views.{addend_of, factor_of, member_of, link_of, branch_of};
ghost use Rattle.df_nerase.specs.mirror.Numbers.{numbers_from};
ghost use Rattle.df_nerase.specs.Erasing as erasing;
ghost use Rattle.df_nerase.specs.Erasing.{methods_among};

use crate::numbers::Numbers;
use df_lang::{
    Addend, Branch, Call, Decl, Expr, Factor, Link, Member, Method, Operand, Param, Program,
    Source, Stmt, Ty, Update, Variable,
};
use df_nplain::{Kind, Range};
use std::alloc::{AllocError, Global};

/// What makes the parts of a program without ghosts.
#[derive(Drop)]
pub(crate) struct Eraser<'a> {
    pub alloc: Global,
    pub program: &'a Program,
    pub numbers: Numbers,
    pub ghost are_numbers: { numbers.before.items ≡ numbers_from 0 (program_of program.now).decls },
    pub ghost are_all: { numbers.all ≡ length (methods_among (program_of program.now).decls) },
}

impl<'a> Eraser<'a> {
    ghost use Rattle.df_nerase.specs.Eraser.{program_in};

    fn range(&self, ty: Ty) -> Range
        ensures { kinds.range_of result ≡ erasing.range_of (program_in self.now) ty }
    {
        match ty {
            Ty::Newtype(id) => match self.program.decls.get(id) {
                Some(Decl::Newtype(newtype)) => Range::Between(newtype.interval),
                Some(Decl::Method(_)) => Range::Unbounded,
                None => Range::Unbounded,
            },
            Ty::Int => Range::Unbounded,
            Ty::Nat => Range::Unbounded,
            Ty::Bool => Range::Unbounded,
            Ty::Char => Range::Unbounded,
        }
    }

    fn kind(&self, ty: Ty) -> Kind
        ensures { kinds.kind_of result ≡ erasing.kind_of (program_in self.now) ty }
    {
        match ty {
            Ty::Bool => Kind::Truth,
            Ty::Char => Kind::Character,
            Ty::Newtype(_) => Kind::Number(self.range(ty)),
            Ty::Int => Kind::Number(self.range(ty)),
            Ty::Nat => Kind::Number(self.range(ty)),
        }
    }

    /// The number of a method among methods.
    fn number(&self, id: usize) -> usize
        ensures { result ≡ erasing.method_number (program_in self.now) id }
    {
        match self.numbers.before.get(id) {
            Some(number) => *number,
            None => self.numbers.all,
        }
    }

    #[cycle(expr)]
    fn expr(&self, e: &Expr) -> Result<df_nplain::Expr, AllocError>
        ensures { IfOk result (λ erased. plain.expr_of erased ≡ erasing.erase_expr (program_in self.now) (source.expr_of e.now)) }
    {
        match e {
            Expr::Number { value, .. } => Ok(df_nplain::Expr::Number(*value)),
            Expr::Truth { value, .. } => Ok(df_nplain::Expr::Truth(*value)),
            Expr::Character { code, .. } => Ok(df_nplain::Expr::Character(*code)),
            Expr::Local { local, .. } => Ok(df_nplain::Expr::Local(*local)),
            Expr::Negate { ty, operand, .. } => {
                let operand = self.boxed(operand)?;
                Ok(df_nplain::Expr::Negate {
                    range: self.range(*ty),
                    operand,
                })
            }
            Expr::Not { operand, .. } => Ok(df_nplain::Expr::Not(self.boxed(operand)?)),
            Expr::Sum { ty, first, rest } => {
                let first = self.boxed(first)?;
                let rest = self.addends(rest)?;
                Ok(df_nplain::Expr::Sum {
                    range: self.range(*ty),
                    first,
                    rest,
                })
            }
            Expr::Product { ty, first, rest } => {
                let first = self.boxed(first)?;
                let rest = self.factors(rest)?;
                Ok(df_nplain::Expr::Product {
                    range: self.range(*ty),
                    first,
                    rest,
                })
            }
            Expr::Junction {
                junction,
                first,
                rest,
            } => {
                let first = self.boxed(first)?;
                let rest = self.members(rest)?;
                Ok(df_nplain::Expr::Junction {
                    junction: *junction,
                    first,
                    rest,
                })
            }
            Expr::Implies { first, rest, .. } => {
                let first = self.boxed(first)?;
                let rest = self.members(rest)?;
                Ok(df_nplain::Expr::Implies { first, rest })
            }
            Expr::Iff { first, rest } => {
                let first = self.boxed(first)?;
                let rest = self.members(rest)?;
                Ok(df_nplain::Expr::Iff { first, rest })
            }
            Expr::Chain { first, rest, .. } => {
                let first = self.boxed(first)?;
                let rest = self.links(rest)?;
                Ok(df_nplain::Expr::Chain { first, rest })
            }
            Expr::As {
                source,
                target,
                operand,
                ..
            } => {
                let operand = self.boxed(operand)?;
                Ok(df_nplain::Expr::As {
                    source: self.kind(*source),
                    target: self.kind(*target),
                    operand,
                })
            }
            Expr::Convert { operand, .. } => self.expr(operand),
        }
    }

    #[cycle(expr)]
    fn boxed(&self, e: &Expr) -> Result<Box<df_nplain::Expr>, AllocError>
        ensures { IfOk result (λ erased. plain.expr_of erased.value ≡ erasing.erase_expr (program_in self.now) (source.expr_of e.now)) }
    {
        let erased = self.expr(e)?;
        Ok(Box::new(self.alloc, erased)?)
    }

    #[cycle(expr)]
    fn addends(&self, rest: &Vec<Addend>) -> Result<Vec<df_nplain::Addend>, AllocError>
        ensures { IfOk result (λ erased. plain.addends_of (map plain.addend_of erased.items) ≡ erasing.erase_addends (program_in self.now) (source.addends_of (map addend_of rest.now.items))) }
    {
        let mut erased = Vec::with_capacity(self.alloc, rest.len())?;
        for addend in rest {
            let operand = self.expr(&addend.operand)?;
            erased.push(df_nplain::Addend {
                operator: addend.operator,
                operand,
            })?;
        }
        Ok(erased)
    }

    #[cycle(expr)]
    fn factors(&self, rest: &Vec<Factor>) -> Result<Vec<df_nplain::Factor>, AllocError>
        ensures { IfOk result (λ erased. plain.factors_of (map plain.factor_of erased.items) ≡ erasing.erase_factors (program_in self.now) (source.factors_of (map factor_of rest.now.items))) }
    {
        let mut erased = Vec::with_capacity(self.alloc, rest.len())?;
        for factor in rest {
            let operand = self.expr(&factor.operand)?;
            erased.push(df_nplain::Factor {
                operator: factor.operator,
                operand,
            })?;
        }
        Ok(erased)
    }

    #[cycle(expr)]
    fn members(&self, rest: &Vec<Member>) -> Result<Vec<df_nplain::Expr>, AllocError>
        ensures { IfOk result (λ erased. plain.members_of (map plain.expr_of erased.items) ≡ erasing.erase_members (program_in self.now) (source.members_of (map member_of rest.now.items))) }
    {
        let mut erased = Vec::with_capacity(self.alloc, rest.len())?;
        for member in rest {
            let operand = self.expr(&member.operand)?;
            erased.push(operand)?;
        }
        Ok(erased)
    }

    #[cycle(expr)]
    fn links(&self, rest: &Vec<Link>) -> Result<Vec<df_nplain::Link>, AllocError>
        ensures { IfOk result (λ erased. plain.links_of (map plain.link_of erased.items) ≡ erasing.erase_links (program_in self.now) (source.links_of (map link_of rest.now.items))) }
    {
        let mut erased = Vec::with_capacity(self.alloc, rest.len())?;
        for link in rest {
            let operand = self.expr(&link.operand)?;
            erased.push(df_nplain::Link {
                comparison: link.comparison,
                operand,
            })?;
        }
        Ok(erased)
    }

    fn operand(&self, operand: &Operand) -> Result<df_nplain::Operand, AllocError>
        ensures { IfOk result (λ erased. plain_stmt.operand_of erased ≡ erasing.erase_operand (program_in self.now) (source_stmt.operand_of operand.now)) }
    {
        match operand {
            Operand::Text(characters) => Ok(df_nplain::Operand::Text(characters.clone()?)),
            Operand::Value { ty, value } => {
                let value = self.expr(value)?;
                Ok(df_nplain::Operand::Value {
                    kind: self.kind(*ty),
                    value,
                })
            }
        }
    }

    fn operands(&self, all: &Vec<Operand>) -> Result<Vec<df_nplain::Operand>, AllocError>
        ensures { IfOk result (λ erased. map plain_stmt.operand_of erased.items ≡ map (erasing.erase_operand (program_in self.now)) (map source_stmt.operand_of all.now.items)) }
    {
        let mut erased = Vec::with_capacity(self.alloc, all.len())?;
        for operand in all {
            erased.push(self.operand(operand)?)?;
        }
        Ok(erased)
    }

    fn exprs(&self, all: &Vec<Expr>) -> Result<Vec<df_nplain::Expr>, AllocError>
        ensures { IfOk result (λ erased. map plain.expr_of erased.items ≡ map (erasing.erase_expr (program_in self.now)) (map source.expr_of all.now.items)) }
    {
        let mut erased = Vec::with_capacity(self.alloc, all.len())?;
        for one in all {
            erased.push(self.expr(one)?)?;
        }
        Ok(erased)
    }

    fn call(&self, call: &Call) -> Result<df_nplain::Call, AllocError>
        ensures { IfOk result (λ erased. plain_stmt.call_of erased ≡ erasing.erase_call (program_in self.now) (source_stmt.call_of call.now)) }
    {
        let arguments = self.exprs(&call.arguments)?;
        Ok(df_nplain::Call {
            callee: self.number(call.callee),
            arguments,
        })
    }

    fn source(&self, source: &Source) -> Result<df_nplain::Source, AllocError>
        ensures { IfOk result (λ erased. plain_stmt.source_of erased ≡ erasing.erase_source (program_in self.now) (source_stmt.source_of source.now)) }
    {
        match source {
            Source::Value { value, .. } => Ok(df_nplain::Source::Value(self.expr(value)?)),
            Source::Call { call, .. } => Ok(df_nplain::Source::Call(self.call(call)?)),
        }
    }

    fn update(&self, update: &Update) -> Result<df_nplain::Update, AllocError>
        ensures { IfOk result (λ erased. plain_stmt.update_of erased ≡ erasing.erase_update (program_in self.now) (source_stmt.update_of update.now)) }
    {
        let mut targets = Vec::with_capacity(self.alloc, update.targets.len())?;
        for target in &update.targets {
            targets.push(target.local)?;
        }
        let sources = self.sources(&update.sources)?;
        Ok(df_nplain::Update { targets, sources })
    }

    fn sources(&self, all: &Vec<Source>) -> Result<Vec<df_nplain::Source>, AllocError>
        ensures { IfOk result (λ erased. map plain_stmt.source_of erased.items ≡ map (erasing.erase_source (program_in self.now)) (map source_stmt.source_of all.now.items)) }
    {
        let mut erased = Vec::with_capacity(self.alloc, all.len())?;
        for one in all {
            erased.push(self.source(one)?)?;
        }
        Ok(erased)
    }

    fn optional(&self, update: &Option<Update>) -> Result<Option<df_nplain::Update>, AllocError>
        ensures { IfOk result (λ erased. option_map plain_stmt.update_of erased ≡ option_map (erasing.erase_update (program_in self.now)) (option_map source_stmt.update_of update.now)) }
    {
        match update {
            None => Ok(None),
            Some(update) => Ok(Some(self.update(update)?)),
        }
    }

    fn variables(&self, all: &Vec<Variable>) -> Result<Vec<df_nplain::Variable>, AllocError>
        ensures { IfOk result (λ erased. map plain_stmt.variable_of erased.items ≡ map (erasing.erase_variable (program_in self.now)) (map source_stmt.variable_of all.now.items)) }
    {
        let mut erased = Vec::with_capacity(self.alloc, all.len())?;
        for variable in all {
            erased.push(df_nplain::Variable {
                local: variable.local,
                kind: self.kind(variable.ty),
            })?;
        }
        Ok(erased)
    }

    #[cycle(stmt)]
    fn stmt(&self, stmt: &Stmt) -> Result<Option<df_nplain::Stmt>, AllocError>
        ensures { IfOk result (λ erased. option_map plain_stmt.stmt_of erased ≡ erasing.erase_stmt (program_in self.now) (source_stmt.stmt_of stmt.now)) }
    {
        match stmt {
            Stmt::Block { body, .. } => Ok(Some(df_nplain::Stmt::Block(self.stmts(body)?))),
            Stmt::Var {
                variables,
                update,
                ..
            } => {
                let variables = self.variables(variables)?;
                let update = self.optional(update)?;
                Ok(Some(df_nplain::Stmt::Var { variables, update }))
            }
            Stmt::Assign { update, .. } => {
                Ok(Some(df_nplain::Stmt::Assign(self.update(update)?)))
            }
            Stmt::Call(call) => Ok(Some(df_nplain::Stmt::Call(self.call(call)?))),
            Stmt::If {
                branches,
                otherwise,
            } => {
                let branches = self.branches(branches)?;
                let otherwise = self.stmts(otherwise)?;
                Ok(Some(df_nplain::Stmt::If {
                    branches,
                    otherwise,
                }))
            }
            Stmt::While { guard, body, .. } => {
                let body = self.stmts(body)?;
                let guard = self.expr(guard)?;
                Ok(Some(df_nplain::Stmt::While { guard, body }))
            }
            Stmt::Break { .. } => Ok(Some(df_nplain::Stmt::Break)),
            Stmt::Return { update, .. } => {
                Ok(Some(df_nplain::Stmt::Return(self.optional(update)?)))
            }
            Stmt::Assert { .. } => Ok(None),
            Stmt::Print { operands, .. } => {
                Ok(Some(df_nplain::Stmt::Print(self.operands(operands)?)))
            }
        }
    }

    #[cycle(stmt)]
    fn stmts(&self, all: &Vec<Stmt>) -> Result<Vec<df_nplain::Stmt>, AllocError>
        ensures { IfOk result (λ erased. plain_stmt.stmts_of (map plain_stmt.stmt_of erased.items) ≡ erasing.erase_stmts (program_in self.now) (source_stmt.stmts_of (map source_stmt.stmt_of all.now.items))) }
    {
        let mut erased = Vec::with_capacity(self.alloc, all.len())?;
        for one in all {
            if let Some(kept) = self.stmt(one)? {
                erased.push(kept)?;
            }
        }
        Ok(erased)
    }

    #[cycle(stmt)]
    fn branches(&self, all: &Vec<Branch>) -> Result<Vec<df_nplain::Branch>, AllocError>
        ensures { IfOk result (λ erased. plain_stmt.branches_of (map plain_stmt.branch_of erased.items) ≡ erasing.erase_branches (program_in self.now) (source_stmt.branches_of (map branch_of all.now.items))) }
    {
        let mut erased = Vec::with_capacity(self.alloc, all.len())?;
        for branch in all {
            erased.push(self.branch(branch)?)?;
        }
        Ok(erased)
    }

    #[cycle(stmt)]
    fn branch(&self, branch: &Branch) -> Result<df_nplain::Branch, AllocError>
        ensures guard { IfOk result (λ erased. (plain_stmt.branch_of erased).guard ≡ erasing.erase_expr (program_in self.now) (branch_of branch.now).guard) }
        ensures body { IfOk result (λ erased. (plain_stmt.branch_of erased).body ≡ erasing.erase_stmts (program_in self.now) (branch_of branch.now).body) }
    {
        let body = self.stmts(&branch.body)?;
        let guard = self.expr(&branch.guard)?;
        Ok(df_nplain::Branch { guard, body })
    }

    fn kinds(&self, params: &Vec<Param>) -> Result<Vec<Kind>, AllocError>
        ensures { IfOk result (λ erased. map kinds.kind_of erased.items ≡ erasing.kinds_of (program_in self.now) (map source_decl.param_of params.now.items)) }
    {
        let mut erased = Vec::with_capacity(self.alloc, params.len())?;
        for param in params {
            erased.push(self.kind(param.ty))?;
        }
        Ok(erased)
    }

    fn method(&self, method: &Method) -> Result<df_nplain::Method, AllocError>
        ensures { IfOk result (λ erased. plain_view.method_of erased ≡ erasing.erase_method (program_in self.now) (source_decl.method_of method.now)) }
    {
        Ok(df_nplain::Method {
            text: method.declared.text.clone()?,
            parameters: self.kinds(&method.parameters)?,
            results: self.kinds(&method.results)?,
            body: self.stmts(&method.body)?,
        })
    }

    fn decl(&self, decl: &Decl) -> Result<Option<df_nplain::Method>, AllocError>
        ensures { IfOk result (λ erased. option_map plain_view.method_of erased ≡ option_map (erasing.erase_method (program_in self.now)) (as_method (source_decl.decl_of decl.now))) }
    {
        match decl {
            Decl::Newtype(_) => Ok(None),
            Decl::Method(method) => Ok(Some(self.method(method)?)),
        }
    }

    /// All methods.
    pub fn methods(&self) -> Result<Vec<df_nplain::Method>, AllocError>
        ensures { IfOk result (λ erased. map plain_view.method_of erased.items ≡ (erasing.erased (program_in self.now)).methods) }
    {
        let mut erased = Vec::with_capacity(self.alloc, self.numbers.all)?;
        for decl in &self.program.decls {
            if let Some(method) = self.decl(decl)? {
                erased.push(method)?;
            }
        }
        Ok(erased)
    }
}
