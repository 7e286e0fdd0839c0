//! The graph of calls.

ghost use Rattle.std.specs.Prelude.{◌≡◌, IfOk};
ghost use Rattle.df_lang.specs.DeclView.{decl_of};
ghost use Rattle.df_lang.specs.View.{program_of};
ghost use Rattle.df_groups.specs.GraphView.{lists_of};
ghost use Rattle.df_groups.specs.Calls.{callees_in, calls_of};

use crate::callees::of_stmts;
use crate::graph::Graph;
use df_base::{Global, Memory};
use df_lang::{Decl, Program};

/// What a declaration calls.
fn callees_of(alloc: Global, decl: &Decl) -> Result<Vec<usize>, Memory>
    ensures { IfOk result (λ callees. callees.items ≡ callees_in (decl_of decl.now)) }
{
    let mut callees = Vec::new(alloc);
    match decl {
        Decl::Newtype(_) => {}
        Decl::Method(method) => of_stmts(&mut callees, &method.body)?,
    }
    Ok(callees)
}

/// The graph whose vertices are the declarations, and whose edges are the calls.
pub(crate) fn call_graph(alloc: Global, program: &Program) -> Result<Graph, Memory>
    ensures { IfOk result (λ graph. lists_of graph ≡ calls_of (program_of program.now)) }
{
    let mut targets = Vec::with_capacity(alloc, program.decls.len())?;
    for decl in &program.decls {
        targets.push(callees_of(alloc, decl)?)?;
    }
    Ok(Graph { targets })
}
