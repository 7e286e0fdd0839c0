//! What a file declares.

ghost use Rattle.std.specs.Prelude.{◌≡◌, ◌∷◌, [], ◌++◌, None, option_map, option_copied, is_some, OnOk};
ghost use Rattle.df_ntyping.specs.Table.{newtype_of, method_of, type_of};
ghost use Rattle.df_ntyping.specs.Types.{basic_type};
ghost use Rattle.df_nnames.specs.Table.{no_table, named, with_newtype, with_method};
ghost use Rattle.df_nnames.specs.Listing.{is_declared};

use df_base::{Global, Name};
use df_lang::{DeclId, Ty};
use df_ntree::{BasicType, TreeType};
use indexmap::IndexMap;
use std::alloc::AllocError;
use std::marker::Model;

/// The types of parameters and of results.
#[derive(Drop)]
pub struct Signature {
    pub parameters: Vec<Ty>,
    pub results: Vec<Ty>,
}

/// A method: its place among the declarations of the file, counted from 0, and its signature.
#[derive(Drop)]
pub struct Method {
    pub id: DeclId,
    pub signature: Signature,
}

/// What a file declares: newtypes, each known by its place among the declarations, and methods.
#[derive(Drop)]
pub struct Table {
    newtypes: IndexMap<Name, DeclId>,
    methods: IndexMap<Name, Method>,
}

impl Model for Table {
    ghost use Rattle.std.specs.Prelude.{map};
    ghost use Rattle.df_ntyping.specs.Table.{Table as Declared};
    ghost use Rattle.df_nnames.specs.Table.{named_type, named_method};

    ghost Value = { Declared };

    ghost view = { λ t. record { newtypes = map named_type t.newtypes.entries; methods = map named_method t.methods.entries } };
}

/// The type that is a word.
pub(crate) fn basic_type(basic: BasicType) -> Ty
    ensures { result ≡ basic_type basic }
{
    match basic {
        BasicType::Int => Ty::Int,
        BasicType::Nat => Ty::Nat,
        BasicType::Bool => Ty::Bool,
        BasicType::Char => Ty::Char,
    }
}

impl Table {
    /// Nothing is declared.
    pub(crate) fn new(alloc: Global) -> Table
        ensures { result ≡ no_table }
    {
        Table {
            newtypes: IndexMap::new(alloc),
            methods: IndexMap::new(alloc),
        }
    }

    /// The newtype of the name.
    pub fn newtype(&self, name: Name) -> Option<DeclId>
        ensures { result ≡ newtype_of self.now.newtypes name }
    {
        self.newtypes.get(&name).copied()
    }

    /// The method of the name.
    pub fn method(&self, name: Name) -> Option<&Method>
        ensures { option_map (named name) (option_copied result) ≡ method_of self.now.methods name }
    {
        self.methods.get(&name)
    }

    /// The type that is written so, if its name is that of a newtype.
    pub fn ty(&self, ty: &TreeType) -> Option<Ty>
        ensures { result ≡ type_of self.now.newtypes ty.now }
    {
        match ty {
            TreeType::Basic { basic, .. } => Some(basic_type(*basic)),
            TreeType::Named(ident) => self.newtype(ident.name).map(Ty::Newtype),
        }
    }

    /// Whether a newtype or a method has the name.
    pub(crate) fn is_declared(&self, name: Name) -> bool
        ensures { result ≡ is_declared self.now name }
    {
        self.newtype(name).is_some() || self.method(name).is_some()
    }

    /// One more newtype, whose name is new.
    pub(crate) fn add_newtype(&mut self, name: Name, id: DeclId) -> Result<(), AllocError>
        requires { newtype_of self.old.newtypes name ≡ None }
        ensures { OnOk result (self.new ≡ with_newtype self.old name id) }
    {
        self.newtypes.insert(name, id)?;
        Ok(())
    }

    /// One more method, whose name is new.
    pub(crate) fn add_method(&mut self, name: Name, method: Method) -> Result<(), AllocError>
        requires { method_of self.old.methods name ≡ None }
        ensures { OnOk result (self.new ≡ with_method self.old name method) }
    {
        self.methods.insert(name, method)?;
        Ok(())
    }
}
