//! A source, read.

ghost use Rattle.std.specs.Prelude.{◌≡◌, [], IfOk, IfErr};
ghost use Rattle.df_base.specs.Refusing.{IfRefused};
ghost use Rattle.df_lang.specs.View.{program_of};
ghost use Rattle.df_ntree.specs.File.{file_of};
ghost use Rattle.df_nfront.specs.Source.{IsRead, IsElaborated, IsLawful};
ghost use Rattle.df_nfront.specs.Refused.{IsRefused};

use df_base::{Global, Names, Stop};
use df_lang::Program;
use df_nghost::{Checked, check};
use df_nnames::table;
use df_npdecl::parse;
use df_ntdecl::elaborate;
use df_ntree::File;
use df_tok::tokens;

/// The file of a source.
fn spelled(alloc: Global, source: &[u8], names: &mut Names) -> Result<File, Stop>
    requires { names.old ≡ [] }
    ensures read { IfOk result (λ file. IsRead source.now names.new (file_of file)) }
    ensures refused { IfErr result (IfRefused (IsRefused source.now names.new)) }
{
    let tokens = tokens(alloc, source, names)?;
    parse(alloc, &tokens)
}

/// The typed program of a source, before its locals are followed.
fn elaborated(alloc: Global, source: &[u8], names: &mut Names) -> Result<Program, Stop>
    requires { names.old ≡ [] }
    ensures elaborated { IfOk result (λ program. IsElaborated source.now names.new (program_of program)) }
    ensures refused { IfErr result (IfRefused (IsRefused source.now names.new)) }
{
    let file = spelled(alloc, source, names)?;
    let table = table(alloc, &file)?;
    elaborate(alloc, &file, &table, names)
}

/// The program of a source, with the names of the source, of which there are none before. The source is
/// refused for the first rule that it breaks.
pub fn read(alloc: Global, source: &[u8], names: &mut Names) -> Result<Checked, Stop>
    requires { names.old ≡ [] }
    ensures lawful { IfOk result (λ checked. IsLawful source.now (program_of checked.program)) }
    // Want of memory says nothing.
    ensures refused { IfErr result (IfRefused (IsRefused source.now names.new)) }
{
    let program = elaborated(alloc, source, names)?;
    match check(alloc, program) {
        Ok(checked) => Ok(checked),
        Err(rejected) => Err(rejected.stop),
    }
}
