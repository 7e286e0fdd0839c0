//! The graph of calls.

ghost use Rattle.std.specs.Prelude.{◌≡◌, ◌++◌, IfOk, OnOk};
ghost use Rattle.df_types.specs.DeclView.{head_of, decl_of};
ghost use Rattle.df_types.specs.View.{program_of};
ghost use Rattle.df_types.specs.Gathering.{contract_expressions};
ghost use Rattle.df_types.specs.Calls as calls;
ghost use Rattle.df_groups2.specs.GraphView.{lists_of};
ghost use Rattle.df_groups2.specs.Calls.{calls_of};
ghost use Rattle.df_groups2.specs.Parts.{calls_in};

use crate::expressions::of_expr;
use crate::graph::Graph;
use crate::statements::{of_demands, of_measure, of_stmts, of_typed};
use df_base::{Global, Memory};
use df_types::{Decl, Head, Program};

/// Adds what the contract of a declaration calls.
fn of_head(callees: &mut Vec<usize>, head: &Head) -> Result<(), Memory>
    ensures { OnOk result (callees.new.items ≡ callees.old.items ++ calls_in (contract_expressions (head_of head.now))) }
{
    of_demands(callees, &head.preconditions)?;
    of_typed(callees, &head.frame)?;
    of_measure(callees, &head.decreases)?;
    of_demands(callees, &head.postconditions)
}

/// What a declaration calls.
fn callees_of(alloc: Global, decl: &Decl) -> Result<Vec<usize>, Memory>
    ensures { IfOk result (λ callees. callees.items ≡ calls.callees (decl_of decl.now)) }
{
    let mut callees = Vec::new(alloc);
    match decl {
        Decl::Newtype(_) | Decl::Datatype(_) | Decl::Class(_) => {}
        Decl::Function(function) => {
            of_head(&mut callees, &function.head)?;
            of_expr(&mut callees, &function.value)?;
        }
        Decl::Method(method) => {
            of_head(&mut callees, &method.head)?;
            of_stmts(&mut callees, &method.body)?;
        }
    }
    Ok(callees)
}

/// The graph whose vertices are the declarations, and whose edges are the calls.
pub(crate) fn call_graph(alloc: Global, program: &Program) -> Result<Graph, Memory>
    ensures { IfOk result (λ graph. lists_of graph ≡ calls_of (program_of program.now)) }
{
    let mut targets = Vec::with_capacity(alloc, program.decls.len())?;
    for decl in &program.decls {
        targets.push(callees_of(alloc, decl)?)?;
    }
    Ok(Graph { targets })
}
