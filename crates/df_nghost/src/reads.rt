//! The uses of locals.

ghost use Rattle.std.specs.Prelude.{◌≡◌, length, map, flat_map};
ghost use Rattle.std.specs.Option.{option_map};
ghost use Rattle.df_lang.specs.ExprView.{expr_of};
ghost use Rattle.df_lang.specs.StmtView.{operand_of, source_of, clause_of, measure_of};
ghost use Rattle.df_lang.specs.DeclView.{param_of};
ghost use Rattle.df_lang.specs.Assignment as pure;
ghost use Rattle.df_ntyping.specs.Least.{by_number};
ghost use Rattle.df_nghost.specs.mirror.Parts.{addends_in, factors_in, members_in, links_in};
ghost use Rattle.df_nghost.specs.mirror.Known.{assigned_of};
ghost use Rattle.df_nghost.specs.mirror.Uses as uses;

use crate::assigned::Assigned;
use df_base::{Name, Pos};
use df_lang::{Addend, Clause, Expr, Factor, Link, Measure, Member, Operand, Param, Source};

/// A local that must have a value, and where.
#[derive(Clone, Copy, PartialEq, Eq)]
pub(crate) struct Use {
    pub(crate) local: usize,
    pub(crate) name: Name,
    pub(crate) pos: Pos,
}

/// The first numbers decide, or where they are equal the rest does.
fn by_number(one: usize, other: usize, rest: bool) -> bool
    ensures { result ≡ by_number one other rest }
{
    one < other || one == other && rest
}

/// Whether the one use is told before the other: by their places, their locals, their names.
fn precedes(one: Use, other: Use) -> bool
    ensures { result ≡ uses.precedes one other }
{
    let by_local = by_number(one.local, other.local, one.name < other.name);
    let by_col = by_number(one.pos.col as usize, other.pos.col as usize, by_local);
    by_number(one.pos.line as usize, other.pos.line as usize, by_col)
}

/// The one that is told first.
fn earlier(first: Option<Use>, used: Use) -> Option<Use>
    ensures { result ≡ uses.earlier first used }
{
    match first {
        Some(found) if !precedes(used, found) => first,
        _ => Some(used),
    }
}

/// The first use without a value: one that was found, or this.
fn first_of_use(assigned: &Assigned, first: Option<Use>, used: Use) -> Option<Use>
    ensures { result ≡ uses.first_with (pure.has_value (assigned_of assigned.now) used.local) first used }
{
    if assigned.has_value(used.local) {
        first
    } else {
        earlier(first, used)
    }
}

/// The first use without a value: one that was found, or one of the expression.
#[cycle(reads)]
pub(crate) fn first_use(assigned: &Assigned, first: Option<Use>, expr: &Expr) -> Option<Use>
    ensures { result ≡ uses.pick (assigned_of assigned.now) first (pure.reads (expr_of expr.now)) }
{
    match expr {
        Expr::Number { .. } | Expr::Truth { .. } | Expr::Character { .. } => first,
        Expr::Local { local, name, pos } => {
            let used = Use {
                local: *local,
                name: *name,
                pos: *pos,
            };
            first_of_use(assigned, first, used)
        }
        Expr::Negate { operand, .. }
        | Expr::Not { operand, .. }
        | Expr::As { operand, .. }
        | Expr::Convert { operand, .. } => first_use(assigned, first, operand),
        Expr::Sum {
            first: left,
            rest,
            ..
        } => {
            let first = first_use(assigned, first, left);
            first_of_addends(assigned, first, rest)
        }
        Expr::Product {
            first: left,
            rest,
            ..
        } => {
            let first = first_use(assigned, first, left);
            first_of_factors(assigned, first, rest)
        }
        Expr::Junction {
            first: left,
            rest,
            ..
        }
        | Expr::Implies {
            first: left,
            rest,
            ..
        }
        | Expr::Iff { first: left, rest } => {
            let first = first_use(assigned, first, left);
            first_of_members(assigned, first, rest)
        }
        Expr::Chain {
            first: left,
            rest,
            ..
        } => {
            let first = first_use(assigned, first, left);
            first_of_links(assigned, first, rest)
        }
    }
}

/// The first use without a value: one that was found, or one of the operands.
#[cycle(reads)]
fn first_of_addends(assigned: &Assigned, first: Option<Use>, addends: &Vec<Addend>) -> Option<Use>
    ensures { result ≡ uses.pick (assigned_of assigned.now) first (pure.reads_of_addends (addends_in addends.now.items)) }
{
    let mut first = first;
    for addend in addends {
        first = first_use(assigned, first, &addend.operand);
    }
    first
}

/// The first use without a value: one that was found, or one of the operands.
#[cycle(reads)]
fn first_of_factors(assigned: &Assigned, first: Option<Use>, factors: &Vec<Factor>) -> Option<Use>
    ensures { result ≡ uses.pick (assigned_of assigned.now) first (pure.reads_of_factors (factors_in factors.now.items)) }
{
    let mut first = first;
    for factor in factors {
        first = first_use(assigned, first, &factor.operand);
    }
    first
}

/// The first use without a value: one that was found, or one of the operands.
#[cycle(reads)]
fn first_of_members(assigned: &Assigned, first: Option<Use>, members: &Vec<Member>) -> Option<Use>
    ensures { result ≡ uses.pick (assigned_of assigned.now) first (pure.reads_of_members (members_in members.now.items)) }
{
    let mut first = first;
    for member in members {
        first = first_use(assigned, first, &member.operand);
    }
    first
}

/// The first use without a value: one that was found, or one of the operands.
#[cycle(reads)]
fn first_of_links(assigned: &Assigned, first: Option<Use>, links: &Vec<Link>) -> Option<Use>
    ensures { result ≡ uses.pick (assigned_of assigned.now) first (pure.reads_of_links (links_in links.now.items)) }
{
    let mut first = first;
    for link in links {
        first = first_use(assigned, first, &link.operand);
    }
    first
}

/// The first use without a value: one that was found, or one of the arguments.
pub(crate) fn first_of_arguments(
    assigned: &Assigned,
    first: Option<Use>,
    arguments: &Vec<Expr>,
) -> Option<Use>
    ensures { result ≡ uses.pick (assigned_of assigned.now) first (flat_map pure.reads (map expr_of arguments.now.items)) }
{
    let mut first = first;
    for argument in arguments {
        first = first_use(assigned, first, argument);
    }
    first
}

/// The first use without a value: one that was found, or one of a right side.
fn first_of_source(assigned: &Assigned, first: Option<Use>, source: &Source) -> Option<Use>
    ensures { result ≡ uses.pick (assigned_of assigned.now) first (pure.reads_of_source (source_of source.now)) }
{
    match source {
        Source::Value { value, .. } => first_use(assigned, first, value),
        Source::Call { call, .. } => first_of_arguments(assigned, first, &call.arguments),
    }
}

/// The first use without a value: one that was found, or one of right sides.
pub(crate) fn first_of_sources(
    assigned: &Assigned,
    first: Option<Use>,
    sources: &Vec<Source>,
) -> Option<Use>
    ensures { result ≡ uses.pick (assigned_of assigned.now) first (flat_map pure.reads_of_source (map source_of sources.now.items)) }
{
    let mut first = first;
    for source in sources {
        first = first_of_source(assigned, first, source);
    }
    first
}

/// The first use without a value: one that was found, or one of the conditions.
pub(crate) fn first_of_clauses(
    assigned: &Assigned,
    first: Option<Use>,
    clauses: &Vec<Clause>,
) -> Option<Use>
    ensures { result ≡ uses.pick (assigned_of assigned.now) first (pure.reads_of_clauses (map clause_of clauses.now.items)) }
{
    let mut first = first;
    for clause in clauses {
        first = first_use(assigned, first, &clause.condition);
    }
    first
}

/// The first use without a value: one that was found, or one of the members of a measure.
fn first_of_values(assigned: &Assigned, first: Option<Use>, measures: &Vec<Measure>) -> Option<Use>
    ensures { result ≡ uses.pick (assigned_of assigned.now) first (uses.reads_of_all (map measure_of measures.now.items)) }
{
    let mut first = first;
    for measure in measures {
        first = first_use(assigned, first, &measure.value);
    }
    first
}

/// The first use without a value: one that was found, or one of a measure.
pub(crate) fn first_of_measure(
    assigned: &Assigned,
    first: Option<Use>,
    decreases: &Option<Vec<Measure>>,
) -> Option<Use>
    ensures { result ≡ uses.pick (assigned_of assigned.now) first (pure.reads_of_measures (option_map (λ measures. map measure_of measures.items) decreases.now)) }
{
    match decreases {
        Some(measures) => first_of_values(assigned, first, measures),
        None => first,
    }
}

/// The first use without a value: one that was found, or one of what is printed.
fn first_of_operand(assigned: &Assigned, first: Option<Use>, operand: &Operand) -> Option<Use>
    ensures { result ≡ uses.pick (assigned_of assigned.now) first (pure.reads_of_operand (operand_of operand.now)) }
{
    match operand {
        Operand::Text(_) => first,
        Operand::Value { value, .. } => first_use(assigned, first, value),
    }
}

/// The first use without a value: one that was found, or one of what is printed.
pub(crate) fn first_of_operands(
    assigned: &Assigned,
    first: Option<Use>,
    operands: &Vec<Operand>,
) -> Option<Use>
    ensures { result ≡ uses.pick (assigned_of assigned.now) first (flat_map pure.reads_of_operand (map operand_of operands.now.items)) }
{
    let mut first = first;
    for operand in operands {
        first = first_of_operand(assigned, first, operand);
    }
    first
}

/// Whether a use was found at an earlier place.
fn is_found_before(first: Option<Use>, pos: Pos) -> bool
    ensures { result ≡ uses.is_found_before first pos }
{
    match first {
        Some(found) => {
            let by_col = (found.pos.col as usize) < pos.col as usize;
            by_number(found.pos.line as usize, pos.line as usize, by_col)
        }
        None => false,
    }
}

/// The first use without a value: one that was found, or one of the results of a method, used at `pos`. They
/// are numbered behind the parameters.
fn first_of_each_result(
    assigned: &Assigned,
    first: Option<Use>,
    parameters: &[Param],
    results: &[Param],
    pos: Pos,
) -> Option<Use>
    ensures { result ≡ uses.pick (assigned_of assigned.now) first (pure.results_from pos (length parameters.now) (map param_of results.now)) }
{
    let mut first = first;
    for (index, param) in results.iter().enumerate() {
        let used = Use {
            local: parameters.len() + index,
            name: param.declared.name,
            pos,
        };
        first = first_of_use(assigned, first, used);
    }
    first
}

/// The same. The results are not looked at one by one where each has a value, or an earlier use was found.
pub(crate) fn first_of_results(
    assigned: &Assigned,
    first: Option<Use>,
    parameters: &[Param],
    results: &[Param],
    pos: Pos,
) -> Option<Use>
    ensures { result ≡ uses.pick (assigned_of assigned.now) first (pure.results_from pos (length parameters.now) (map param_of results.now)) }
{
    if assigned.has_results(parameters.len(), results.len()) || is_found_before(first, pos) {
        return first;
    }
    first_of_each_result(assigned, first, parameters, results, pos)
}
