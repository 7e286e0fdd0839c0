//! Files.

ghost use Rattle.std.specs.Prelude.{◌≡◌, map, IfOk, IfErr};
ghost use Rattle.std.specs.List.{AllByRecursion};
ghost use Rattle.df_base.specs.Refusing.{IfRefused};
ghost use Rattle.df_lang.specs.DeclView.{decl_of};
ghost use Rattle.df_lang.specs.View.{program_of};
ghost use Rattle.df_ntree.specs.File as source;
ghost use Rattle.df_ntyping.specs.FileElaboration.{HasNames, ElaboratesFile};
ghost use Rattle.df_ntyping.specs.FileNodes.{file_nodes};
ghost use Rattle.df_ntyping.specs.Laws.{IsDeclaredByText, AreTexts};
ghost use Rattle.df_ntyping.specs.Least.{IsToldIn};
ghost use Rattle.df_ntyping.specs.Literals.{IsReadFile};
ghost use Rattle.df_ntyping.specs.Table.{table_of};
ghost use Rattle.df_ntexpr.specs.Replies.{Replies};
ghost use Rattle.df_ntdecl.specs.mirror.Declarations.{declaration_in, declarations_in};

use crate::methods::method;
use crate::newtypes::newtype;
use df_base::{Global, Names, Stop};
use df_lang::{Decl, Program};
use df_nnames::Table;
use df_ntree::{Declaration, File};

/// The declaration of the program.
fn declaration(
    alloc: Global,
    table: &Table,
    names: &Names,
    declaration: &Declaration,
) -> Result<Decl, Stop>
    requires { IsDeclaredByText names.now (source.declaration_of declaration.now) }
    ensures { Replies decl_of result (declaration_in names.now table.now (source.declaration_of declaration.now)) }
{
    match declaration {
        Declaration::Newtype(tree) => {
            let typed = newtype(alloc, names, tree)?;
            Ok(Decl::Newtype(typed))
        }
        Declaration::Method(tree) => {
            let typed = method(alloc, names, table, tree)?;
            Ok(Decl::Method(typed))
        }
    }
}

/// The declarations of the program.
fn declarations(
    alloc: Global,
    table: &Table,
    names: &Names,
    all: &[Declaration],
) -> Result<Vec<Decl>, Stop>
    requires { AllByRecursion (IsDeclaredByText names.now) (map source.declaration_of all.now) }
    ensures { Replies (λ v. map decl_of v.items) result (declarations_in names.now table.now (map source.declaration_of all.now)) }
{
    let mut decls = Vec::new(alloc);
    for each in all {
        let one = declaration(alloc, table, names, each)?;
        decls.push(one)?;
    }
    Ok(decls)
}

/// The program of a file in which each name has one meaning, by the table of what it declares; or the
/// least rule of typing that it breaks.
pub fn elaborate(alloc: Global, file: &File, table: &Table, names: &Names) -> Result<Program, Stop>
    requires grammar { IsReadFile (source.file_of file.now) }
    requires table { table.now ≡ table_of (source.file_of file.now) }
    requires named { HasNames (source.file_of file.now) }
    requires texts { AreTexts names.now (source.file_of file.now) }
    ensures elaborated { IfOk result (λ program. ElaboratesFile names.now (source.file_of file.now) (program_of program)) }
    ensures refused { IfErr result (IfRefused (IsToldIn 1 (file_nodes (source.file_of file.now)))) }
{
    let decls = declarations(alloc, table, names, &file.declarations)?;
    Ok(Program::new(decls))
}
