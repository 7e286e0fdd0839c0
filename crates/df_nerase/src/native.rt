//! The first node that breaks a rule on what compiles. What is found is handed on in the order of the text.

ghost use Rattle.std.specs.Prelude.{◌≡◌, None, map, fold};
ghost use Rattle.std.specs.Option.{option_map};
ghost use Rattle.df_lang.specs.ExprView.{expr_of, addends_of, factors_of, members_of, links_of};
ghost use Rattle.df_lang.specs.StmtView.{operand_of, call_of, source_of, update_of, variable_of, stmt_of, stmts_of, branches_of};
ghost use Rattle.df_lang.specs.DeclView.{param_of, method_of, decl_of};
ghost use Rattle.df_lang.specs.View.{program_of};
ghost use Rattle.df_lang.specs.Newtype.{is_unbounded as unbounded};
ghost use Rattle.df_nerase.specs.Views.{addend_of, factor_of, member_of, link_of, branch_of};
ghost use Rattle.df_nerase.specs.First.{number_of};
ghost use Rattle.df_nerase.specs.mirror.Finding as mirror;
ghost use Rattle.df_nerase.specs.mirror.Finding.{rule_of, found_of};

use df_base::Pos;
use df_lang::{
    Addend, Arrow, Branch, Call, Decl, Expr, Factor, Link, Member, Method, Operand, Param, Program,
    Source, Stmt, Ty, Update, Variable,
};

/// The rules on what compiles.
#[derive(Clone, Copy, PartialEq, Eq)]
pub(crate) enum Rule {
    /// On the types of places.
    Places,
    /// On whole numbers without bounds.
    Integers,
    /// On forms of expressions.
    Forms,
}

/// A rule that is broken, and where.
#[derive(Clone, Copy, PartialEq, Eq)]
pub(crate) struct Broken {
    pub rule: Rule,
    pub pos: Pos,
}

impl Rule {
    pub fn number(self) -> u8
        ensures { result ≡ number_of (rule_of self) }
    {
        match self {
            Rule::Places => 1,
            Rule::Integers => 2,
            Rule::Forms => 3,
        }
    }
}

/// What was found before, or else that the rule is broken there.
fn or_else(found: Option<Broken>, rule: Rule, pos: Pos) -> Option<Broken>
    ensures { found_of result ≡ mirror.or_broken (found_of found) (rule_of rule) pos }
{
    match found {
        None => Some(Broken { rule, pos }),
        Some(before) => Some(before),
    }
}

fn if_int(found: Option<Broken>, ty: Ty, pos: Pos) -> Option<Broken>
    ensures { found_of result ≡ mirror.find_int (found_of found) ty pos }
{
    match ty {
        Ty::Int => or_else(found, Rule::Integers, pos),
        Ty::Newtype(_) => found,
        Ty::Nat => found,
        Ty::Bool => found,
        Ty::Char => found,
    }
}

fn if_int_elsewhere(found: Option<Broken>, is_operand: bool, ty: Ty, pos: Pos) -> Option<Broken>
    ensures { found_of result ≡ mirror.find_int_elsewhere (found_of found) is_operand ty pos }
{
    if is_operand {
        found
    } else {
        if_int(found, ty, pos)
    }
}

fn if_nat(found: Option<Broken>, ty: Ty, pos: Pos) -> Option<Broken>
    ensures { found_of result ≡ mirror.find_nat (found_of found) ty pos }
{
    match ty {
        Ty::Nat => or_else(found, Rule::Forms, pos),
        Ty::Newtype(_) => found,
        Ty::Int => found,
        Ty::Bool => found,
        Ty::Char => found,
    }
}

/// In an expression that is an operand of a comparison or of `as`, or stands elsewhere.
#[cycle(expr)]
fn expr(found: Option<Broken>, is_operand: bool, e: &Expr) -> Option<Broken>
    ensures { found_of result ≡ mirror.find (found_of found) is_operand (expr_of e.now) }
{
    match e {
        Expr::Number { ty, pos, .. } => if_int_elsewhere(found, is_operand, *ty, *pos),
        Expr::Truth { .. } => found,
        Expr::Character { .. } => found,
        Expr::Local { .. } => found,
        Expr::Negate { ty, pos, operand } => {
            let found = expr(found, false, operand);
            if_int(found, *ty, *pos)
        }
        Expr::Not { operand, .. } => expr(found, false, operand),
        Expr::Sum { ty, first, rest } => {
            let found = expr(found, false, first);
            addends(found, *ty, rest)
        }
        Expr::Product { ty, first, rest } => {
            let found = expr(found, false, first);
            factors(found, *ty, rest)
        }
        Expr::Junction { first, rest, .. } => {
            let found = expr(found, false, first);
            members(found, rest)
        }
        Expr::Implies { arrow, first, rest } => match arrow {
            Arrow::Implies => {
                let found = expr(found, false, first);
                members(found, rest)
            }
            Arrow::Explies => {
                let found = turned(found, rest);
                expr(found, false, first)
            }
        },
        Expr::Iff { first, rest } => {
            let found = expr(found, false, first);
            members(found, rest)
        }
        Expr::Chain { first, rest, .. } => {
            let found = expr(found, true, first);
            links(found, rest)
        }
        Expr::As {
            target,
            pos,
            operand,
            ..
        } => {
            let found = expr(found, true, operand);
            let found = if_int_elsewhere(found, is_operand, *target, *pos);
            if_nat(found, *target, *pos)
        }
        Expr::Convert { operand, .. } => expr(found, is_operand, operand),
    }
}

#[cycle(expr)]
fn addends(found: Option<Broken>, ty: Ty, rest: &Vec<Addend>) -> Option<Broken>
    ensures { found_of result ≡ mirror.find_in_addends (found_of found) ty (addends_of (map addend_of rest.now.items)) }
{
    let mut found = found;
    for addend in rest {
        let inside = expr(found, false, &addend.operand);
        found = if_int(inside, ty, addend.pos);
    }
    found
}

#[cycle(expr)]
fn factors(found: Option<Broken>, ty: Ty, rest: &Vec<Factor>) -> Option<Broken>
    ensures { found_of result ≡ mirror.find_in_factors (found_of found) ty (factors_of (map factor_of rest.now.items)) }
{
    let mut found = found;
    for factor in rest {
        let inside = expr(found, false, &factor.operand);
        found = if_int(inside, ty, factor.pos);
    }
    found
}

#[cycle(expr)]
fn members(found: Option<Broken>, rest: &Vec<Member>) -> Option<Broken>
    ensures { found_of result ≡ mirror.find_in_members (found_of found) (members_of (map member_of rest.now.items)) }
{
    let mut found = found;
    for member in rest {
        found = expr(found, false, &member.operand);
    }
    found
}

/// Of members that stand in the text from the last to the first.
#[cycle(expr)]
fn turned(found: Option<Broken>, rest: &Vec<Member>) -> Option<Broken>
    ensures { found_of result ≡ mirror.find_in_turned (found_of found) (members_of (map member_of rest.now.items)) }
{
    let mut found = found;
    for place in (0..rest.len()).rev() {
        found = expr(found, false, &rest[place].operand);
    }
    found
}

#[cycle(expr)]
fn links(found: Option<Broken>, rest: &Vec<Link>) -> Option<Broken>
    ensures { found_of result ≡ mirror.find_in_links (found_of found) (links_of (map link_of rest.now.items)) }
{
    let mut found = found;
    for link in rest {
        found = expr(found, true, &link.operand);
    }
    found
}

fn printed(found: Option<Broken>, operand: &Operand) -> Option<Broken>
    ensures { found_of result ≡ mirror.find_in_operand (found_of found) (operand_of operand.now) }
{
    match operand {
        Operand::Text(_) => found,
        Operand::Value { value, .. } => expr(found, false, value),
    }
}

fn all_printed(found: Option<Broken>, all: &Vec<Operand>) -> Option<Broken>
    ensures { found_of result ≡ fold mirror.find_in_operand (found_of found) (map operand_of all.now.items) }
{
    let mut found = found;
    for operand in all {
        found = printed(found, operand);
    }
    found
}

fn call(found: Option<Broken>, call: &Call) -> Option<Broken>
    ensures { found_of result ≡ mirror.find_in_call (found_of found) (call_of call.now) }
{
    let mut found = found;
    for argument in &call.arguments {
        found = expr(found, false, argument);
    }
    found
}

fn source(found: Option<Broken>, source: &Source) -> Option<Broken>
    ensures { found_of result ≡ mirror.find_in_source (found_of found) (source_of source.now) }
{
    match source {
        Source::Value { value, .. } => expr(found, false, value),
        Source::Call { call: called, .. } => call(found, called),
    }
}

fn sources(found: Option<Broken>, all: &Vec<Source>) -> Option<Broken>
    ensures { found_of result ≡ fold mirror.find_in_source (found_of found) (map source_of all.now.items) }
{
    let mut found = found;
    for one in all {
        found = source(found, one);
    }
    found
}

fn update(found: Option<Broken>, update: &Option<Update>) -> Option<Broken>
    ensures { found_of result ≡ mirror.find_in_update (found_of found) (option_map update_of update.now) }
{
    match update {
        None => found,
        Some(update) => sources(found, &update.sources),
    }
}

fn is_unbounded(ty: Ty) -> bool
    ensures { result ≡ unbounded ty }
{
    match ty {
        Ty::Newtype(_) => false,
        Ty::Int => true,
        Ty::Nat => true,
        Ty::Bool => false,
        Ty::Char => false,
    }
}

fn place(found: Option<Broken>, is_ghost: bool, ty: Ty, pos: Pos) -> Option<Broken>
    ensures { found_of result ≡ mirror.find_at_place (found_of found) is_ghost ty pos }
{
    if !is_ghost && is_unbounded(ty) {
        or_else(found, Rule::Places, pos)
    } else {
        found
    }
}

fn variables(found: Option<Broken>, all: &Vec<Variable>) -> Option<Broken>
    ensures { found_of result ≡ fold mirror.find_in_variable (found_of found) (map variable_of all.now.items) }
{
    let mut found = found;
    for variable in all {
        found = place(found, variable.is_ghost, variable.ty, variable.pos);
    }
    found
}

fn params(found: Option<Broken>, all: &Vec<Param>) -> Option<Broken>
    ensures { found_of result ≡ fold mirror.find_in_param (found_of found) (map param_of all.now.items) }
{
    let mut found = found;
    for param in all {
        found = place(found, param.is_ghost, param.ty, param.declared.pos);
    }
    found
}

#[cycle(stmt)]
fn stmt(found: Option<Broken>, stmt: &Stmt) -> Option<Broken>
    ensures { found_of result ≡ mirror.find_in (found_of found) (stmt_of stmt.now) }
{
    match stmt {
        Stmt::Block { body, .. } => stmts(found, body),
        Stmt::Var {
            variables: all,
            update: given,
            ..
        } => {
            let found = variables(found, all);
            update(found, given)
        }
        Stmt::Assign { update, .. } => sources(found, &update.sources),
        Stmt::Call(called) => call(found, called),
        Stmt::If {
            branches: all,
            otherwise,
        } => {
            let found = branches(found, all);
            stmts(found, otherwise)
        }
        Stmt::While { guard, body, .. } => {
            let found = expr(found, false, guard);
            stmts(found, body)
        }
        Stmt::Break { .. } => found,
        Stmt::Return { update: given, .. } => update(found, given),
        Stmt::Assert { .. } => found,
        Stmt::Print { operands, .. } => all_printed(found, operands),
    }
}

#[cycle(stmt)]
fn stmts(found: Option<Broken>, all: &Vec<Stmt>) -> Option<Broken>
    ensures { found_of result ≡ mirror.find_in_all (found_of found) (stmts_of (map stmt_of all.now.items)) }
{
    let mut found = found;
    for one in all {
        found = stmt(found, one);
    }
    found
}

#[cycle(stmt)]
fn branches(found: Option<Broken>, all: &Vec<Branch>) -> Option<Broken>
    ensures { found_of result ≡ mirror.find_in_branches (found_of found) (branches_of (map branch_of all.now.items)) }
{
    let mut found = found;
    for branch in all {
        let guarded = expr(found, false, &branch.guard);
        found = stmts(guarded, &branch.body);
    }
    found
}

fn method(found: Option<Broken>, method: &Method) -> Option<Broken>
    ensures { found_of result ≡ mirror.find_in_method (found_of found) (method_of method.now) }
{
    let found = params(found, &method.parameters);
    let found = params(found, &method.results);
    stmts(found, &method.body)
}

fn decl(found: Option<Broken>, decl: &Decl) -> Option<Broken>
    ensures { found_of result ≡ mirror.find_in_decl (found_of found) (decl_of decl.now) }
{
    match decl {
        Decl::Newtype(_) => found,
        Decl::Method(declared) => method(found, declared),
    }
}

/// The first node that breaks a rule.
pub(crate) fn first_broken(program: &Program) -> Option<Broken>
    ensures { found_of result ≡ fold mirror.find_in_decl None (program_of program.now).decls }
{
    let mut found = None;
    for declared in &program.decls {
        found = decl(found, declared);
    }
    found
}
