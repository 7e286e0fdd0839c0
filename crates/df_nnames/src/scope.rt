//! Scopes of locals: which local a name means.

ghost use Rattle.std.specs.Prelude.{◌≡◌, ◌+◌, ◌<◌, ◌≤◌, false, not, length, is_some, IfSome, IfNone, IfOk, OnOk, OnErr};
ghost use Rattle.df_nnames.specs.Scope.{no_locals, all_locals, enter, declare, leave, IsLocal};
ghost use Rattle.df_ntyping.specs.rules.Names.{is_among};
ghost use Rattle.df_nnames.specs.Latest.{last_of};

use df_base::{Global, Name};
use indexmap::IndexMap;
use std::alloc::AllocError;
use std::marker::Model;

/// A local, and the one of the same name that it hides.
#[derive(Clone, Copy, PartialEq, Eq)]
pub(crate) struct Local {
    name: Name,
    hidden: Option<usize>,
}

/// The locals in scope. A local is known by its number: they count from 0 in the order of their
/// declarations.
#[derive(Drop)]
pub struct Scope {
    locals: Vec<Local>,
    /// How many of them stand in the scopes around the innermost one.
    outer: usize,
    /// The last local of each name.
    latest: IndexMap<Name, usize>,
}

impl Model for Scope {
    ghost use Rattle.std.specs.Prelude.{◌≤◌, length, take, drop, nat_eq};
    ghost use Rattle.indexmap.specs.IndexMap.{get};
    ghost use Rattle.df_nnames.specs.Scope.{Scope as Locals};
    ghost use Rattle.df_nnames.specs.Latest.{names_of, IsIndex};

    ghost Value = { Locals };

    ghost view = { λ s. record { outer = take s.outer (names_of s.locals.items); inner = drop s.outer (names_of s.locals.items) } };

    ghost invariant = { λ s. (s.outer ≤ length s.locals.items) × IsIndex (get nat_eq s.latest) s.locals.items };
}

/// What `leave` needs of the scope before.
#[derive(Clone, Copy, PartialEq, Eq)]
pub struct Mark {
    pub outer: usize,
}

impl Scope {
    /// One scope, and no locals.
    pub fn new(alloc: Global) -> Scope
        ensures { result ≡ no_locals }
    {
        Scope {
            locals: Vec::new(alloc),
            outer: 0,
            latest: IndexMap::new(alloc),
        }
    }

    /// The local that the name means.
    pub fn find(&self, name: Name) -> Option<usize>
        ensures number { result ≡ last_of (all_locals self.now) name }
        ensures local { IfSome result (λ number. IsLocal (all_locals self.now) name number) }
        ensures among { is_some result ≡ is_among (all_locals self.now) name }
        ensures none { IfNone result (is_among (all_locals self.now) name ≡ false) }
    {
        self.latest.get(&name).copied()
    }

    /// Whether the name means a local.
    pub fn has(&self, name: Name) -> bool
        ensures { result ≡ is_among (all_locals self.now) name }
    {
        self.find(name).is_some()
    }

    /// Whether the innermost scope has no local of this name.
    pub fn is_new(&self, name: Name) -> bool
        ensures { result ≡ not (is_among self.now.inner name) }
    {
        match self.find(name) {
            Some(number) => number < self.outer,
            None => true,
        }
    }

    /// One more local. For want of memory nothing changes.
    pub fn declare(&mut self, name: Name) -> Result<(), AllocError>
        ensures ok { OnOk result (self.new ≡ declare self.old name) }
        ensures err { OnErr result (self.new ≡ self.old) }
    {
        // With this room the push cannot fail.
        self.locals.reserve(1)?;
        let hidden = self.latest.insert(name, self.locals.len())?;
        self.locals.push(Local { name, hidden })?;
        Ok(())
    }

    /// A scope begins inside.
    pub fn enter(&mut self) -> Mark
        ensures scope { self.new ≡ enter self.old }
        ensures mark { result.outer ≡ length self.old.outer }
    {
        let mark = Mark { outer: self.outer };
        self.outer = self.locals.len();
        mark
    }

    /// The innermost scope ends, with its locals.
    pub fn leave(&mut self, mark: Mark)
        requires { mark.outer ≤ length self.old.outer }
        ensures { self.new ≡ leave self.old mark.outer }
    {
        while self.outer < self.locals.len() {
            self.forget();
        }
        self.outer = mark.outer;
    }

    /// Takes the last local away.
    fn forget(&mut self)
        requires { 0 < length self.old.inner }
        ensures outer { self.new.outer ≡ self.old.outer }
        ensures inner { length self.new.inner + 1 ≡ length self.old.inner }
    {
        let Some(local) = self.locals.pop() else {
            return;
        };
        match local.hidden {
            Some(number) => {
                if let Some(latest) = self.latest.get_mut(&local.name) {
                    *latest = number;
                }
            }
            None => {
                self.latest.swap_remove(&local.name);
            }
        }
    }
}
