//! What names mean outside methods.

ghost use Rattle.std.specs.Prelude.{◌≡◌, map, IfOk, OnOk};
ghost use Rattle.df_ntree.specs.File.{declaration_of};
ghost use Rattle.df_nnames.specs.Globals.{no_globals, with_newtype, with_method, with_declaration, globals_from};
ghost use Rattle.df_nnames.specs.Meanings.{meanings_of};

use df_base::{Global, Name};
use df_lang::DeclId;
use df_ntree::Declaration;
use indexmap::{IndexMap, IndexSet};
use std::alloc::AllocError;

/// The names that a file declares. Of declarations of one name the first counts.
#[derive(Drop)]
pub(crate) struct Globals {
    newtypes: IndexMap<Name, DeclId>,
    methods: IndexSet<Name>,
}

impl Globals {
    /// Nothing is declared.
    fn new(alloc: Global) -> Globals
        ensures { meanings_of result ≡ no_globals }
    {
        Globals {
            newtypes: IndexMap::new(alloc),
            methods: IndexSet::new(alloc),
        }
    }

    /// The newtype of the name.
    pub fn newtype(&self, name: Name) -> Option<DeclId>
        ensures { result ≡ (meanings_of self.now).newtype name }
    {
        self.newtypes.get(&name).copied()
    }

    /// Whether a method has the name.
    pub fn is_method(&self, name: Name) -> bool
        ensures { result ≡ (meanings_of self.now).is_method name }
    {
        self.methods.contains(&name)
    }

    /// One more newtype, unless one of the name is there.
    fn add_newtype(&mut self, name: Name, id: DeclId) -> Result<(), AllocError>
        ensures { OnOk result (meanings_of self.new ≡ with_newtype (meanings_of self.old) name id) }
    {
        if self.newtype(name).is_none() {
            self.newtypes.insert(name, id)?;
        }
        Ok(())
    }

    /// One more method.
    fn add_method(&mut self, name: Name) -> Result<(), AllocError>
        ensures { OnOk result (meanings_of self.new ≡ with_method (meanings_of self.old) name) }
    {
        self.methods.insert(name)?;
        Ok(())
    }

    /// One more declaration, of this number.
    fn add(&mut self, id: DeclId, declaration: &Declaration) -> Result<(), AllocError>
        ensures { OnOk result (meanings_of self.new ≡ with_declaration (meanings_of self.old) id (declaration_of declaration.now)) }
    {
        match declaration {
            Declaration::Newtype(newtype) => self.add_newtype(newtype.name.name, id),
            Declaration::Method(method) => self.add_method(method.name.name),
        }
    }
}

/// The names that declarations declare.
pub(crate) fn globals_in(alloc: Global, all: &[Declaration]) -> Result<Globals, AllocError>
    ensures { IfOk result (λ globals. meanings_of globals ≡ globals_from 0 (map declaration_of all.now)) }
{
    let mut globals = Globals::new(alloc);
    for (id, declaration) in all.iter().enumerate() {
        globals.add(id, declaration)?;
    }
    Ok(globals)
}
