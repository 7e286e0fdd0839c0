//! Names: what a file declares, and which names have no meaning where they stand, or two.
#![tactic(auto)]

ghost use Rattle.std.specs.Prelude.{◌≡◌, IfOk, OnOk, IfErr};
ghost use Rattle.df_base.specs.Refusing.{IfRefused};
ghost use Rattle.df_ntree.specs.File.{file_of};
ghost use Rattle.df_ntree.specs.FileSpelling.{IsFile};
ghost use Rattle.df_ntyping.specs.Table.{table_of};
ghost use Rattle.df_ntyping.specs.FileNodes.{file_nodes};
ghost use Rattle.df_ntyping.specs.FileElaboration.{HasNames};
ghost use Rattle.df_ntyping.specs.Least.{IsToldIn};

mod declarations;
mod expressions;
mod globals;
mod scope;
mod statements;
mod tables;

use df_base::{Global, Stop};
use df_ntree::File;
use globals::globals_in;
pub use scope::{Mark, Scope};
pub use tables::{Method, Signature, Table};

/// The table of a file in which each name has one meaning where it stands. It is refused for the
/// least name that has none, or that is declared twice in one scope.
pub fn table(alloc: Global, file: &File) -> Result<Table, Stop>
    requires { IsFile (file_of file.now) }
    ensures table { IfOk result (λ table. table ≡ table_of (file_of file.now)) }
    ensures named { OnOk result (HasNames (file_of file.now)) }
    ensures refused { IfErr result (IfRefused (IsToldIn 0 (file_nodes (file_of file.now)))) }
{
    let globals = globals_in(alloc, &file.declarations)?;
    declarations::declarations(alloc, &globals, &file.declarations)
}
