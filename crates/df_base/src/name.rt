//! Names, numbered in order of their first use.

ghost use Rattle.std.specs.Prelude.{◌≡◌, ℕ, [], ◌^◌, ◌<◌, length, slice_get, IfOk, OnOk, OnErr};

use crate::memory::Memory;
use indexmap::IndexSet;
use std::alloc::Global;
use std::marker::Model;

/// A name of the source: its number in the `Names` that interned it.
pub type Name = u32;

/// The texts of the names, each once, in order of first use.
#[derive(Drop)]
pub struct Names {
    texts: IndexSet<String>,
    alloc: Global,
}

impl Model for Names {
    ghost use Rattle.std.specs.Prelude.{ℕ, List, map, string_bytes};

    ghost Value = { List (List ℕ) };

    ghost view = { λ n. map string_bytes n.texts.keys };

    ghost use Rattle.df_base.specs.Names.{IsDistinct};

    ghost invariant = { λ n. IsDistinct (map string_bytes n.texts.keys) };
}

impl Names {
    ghost use Rattle.df_base.specs.Names.{with_text, IsDistinct};

    /// No names yet.
    pub fn new(alloc: Global) -> Result<Names, Memory>
        ensures { IfOk result (λ names. names ≡ []) }
    {
        Ok(Names {
            texts: IndexSet::new(alloc),
            alloc,
        })
    }

    /// The name of a text: the one that it has, or the next number.
    pub fn intern(&mut self, text: &str) -> Result<Name, Memory>
        requires { length self.old < 2 ^ 32 }
        ensures name { IfOk result (λ name. slice_get self.new name ≡ Some text.now) }
        ensures names { OnOk result (self.new ≡ with_text self.old text.now) }
        ensures distinct { IsDistinct self.new }
        ensures err { OnErr result (self.new ≡ self.old) }
    {
        if let Some(number) = self.texts.get_index_of(text) {
            return Ok(number as Name);
        }
        let (number, _) = self.texts.insert_full(String::from_str(self.alloc, text)?)?;
        Ok(number as Name)
    }

    /// How many names there are.
    pub fn len(&self) -> usize
        ensures len { result ≡ length self.now }
        ensures distinct { IsDistinct self.now }
    {
        self.texts.len()
    }

    /// The text of a name.
    pub fn text(&self, name: Name) -> &str
        requires { name < length self.now }
        ensures { slice_get self.now name ≡ Some result.now }
    {
        self.texts.get_index(name as usize).unwrap().as_str()
    }
}
