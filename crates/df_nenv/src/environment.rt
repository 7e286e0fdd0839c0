//! Where a node stands.

ghost use Rattle.std.specs.Prelude.{◌≡◌, ◌≤◌, ◌<◌, ◌^◌, ◌++◌, ◌∷◌, [], length, slice_get, option_map, option_copied, map, Some, OnOk};
ghost use Rattle.df_ntyping.specs.Environment as pure;
ghost use Rattle.df_ntyping.specs.FileNodes.{empty_environment};
ghost use Rattle.df_ntyping.specs.LocalTypes.{if_open, at_number, fix_meaning};
ghost use Rattle.df_ntyping.specs.Meaning.{called_signature, as_method, meaning_of};
ghost use Rattle.df_ntyping.specs.rules.Names as rules;
ghost use Rattle.df_ntree.specs.Expr as tree;
ghost use Rattle.df_nnames.specs.Table.{signature_of};
ghost use Rattle.df_nenv.specs.Environments.{local_of, role_of, inferred_of, with_result, left, renumbered, in_a_loop, callee_from};

use df_base::{Global, Name};
use df_lang::Ty;
use df_nnames::{Mark, Method, Scope, Signature, Table};
use df_ntree::{Expr, TreeType};
use std::alloc::AllocError;
use std::marker::Model;

/// What declares a local: parameters keep their values.
#[derive(Clone, Copy, PartialEq, Eq)]
pub enum Role {
    Parameter,
    Result,
    Variable,
}

/// A local: its name, and its own number in its method.
#[derive(Clone, Copy, PartialEq, Eq)]
pub struct Local {
    pub name: Name,
    pub number: usize,
    pub role: Role,
}

/// What fixes the type of a local. Without a type and a value it takes that of its first assignment,
/// unless it is used before.
#[derive(Clone, Copy, PartialEq, Eq)]
pub enum Inferred {
    Open,
    Used,
    Fixed(Option<Ty>),
}

/// Whether this fixes no type.
fn is_open(inferred: Inferred) -> bool
    ensures { result ≡ rules.is_unfixed (Some (inferred_of inferred)) }
{
    match inferred {
        Inferred::Open | Inferred::Used => true,
        Inferred::Fixed(_) => false,
    }
}

/// What fixes a type from here on, where this fixes it so.
fn fixed(before: Inferred, fixing: Inferred) -> Inferred
    ensures { inferred_of result ≡ if_open (Some (inferred_of before)) (inferred_of fixing) }
{
    match before {
        Inferred::Open => fixing,
        Inferred::Used | Inferred::Fixed(_) => before,
    }
}

/// Where a node stands: what the file declares, which locals are in scope, what is known of their
/// types, and what is around it.
#[derive(Drop)]
pub struct Environment<'t> {
    table: &'t Table,
    /// Which local a name means.
    scope: Scope,
    /// Those in scope, in the order of their declarations.
    locals: Vec<Local>,
    /// How many of them stand in the scopes around the innermost one.
    outer: usize,
    /// The names of the method's locals so far, by their numbers.
    names: Vec<Name>,
    /// What fixes the types of the method's locals, by their numbers.
    types: Vec<Inferred>,
    /// The results of the method.
    results: Vec<Local>,
    in_loop: bool,
}

impl<'t> Model for Environment<'t> {
    ghost use Rattle.std.specs.Prelude.{◌≡◌, length, map, take, drop};
    ghost use Rattle.df_nnames.specs.Scope.{all_locals};
    ghost use Rattle.df_ntyping.specs.Environment.{Environment as Value_of_environment};
    ghost use Rattle.df_nenv.specs.Environments.{local_of, inferred_of, names_of};

    ghost Value = { Value_of_environment };

    ghost view = { λ e. record { table = e.table.now; outer = map local_of (take (length e.scope.outer) e.locals.items); inner = map local_of (drop (length e.scope.outer) e.locals.items); next = length e.names.items; types = map inferred_of e.types.items; results = map local_of e.results.items; in_loop = e.in_loop } };

    ghost invariant = { λ e. (all_locals e.scope ≡ names_of e.locals.items) × (e.outer ≡ length e.scope.outer) };
}

impl<'t> Environment<'t> {
    /// No locals yet.
    pub fn new(alloc: Global, table: &'t Table) -> Environment<'t>
        ensures { result ≡ empty_environment table.now }
    {
        Environment {
            table,
            scope: Scope::new(alloc),
            locals: Vec::new(alloc),
            outer: 0,
            names: Vec::new(alloc),
            types: Vec::new(alloc),
            results: Vec::new(alloc),
            in_loop: false,
        }
    }
}

impl Environment<'_> {
    ghost use Rattle.std.specs.Prelude.{map, option_map};
    ghost use Rattle.df_ntyping.specs.Environment.{locals_of, local_type};
    ghost use Rattle.df_ntyping.specs.Table.{type_of};
    ghost use Rattle.df_ntyping.specs.Meaning as meaning;
    ghost use Rattle.df_nenv.specs.Environments.{local_of};
    ghost use Rattle.df_ntyping.specs.mirror.Looking.{local_in};

    /// The last local of the name that is in scope.
    pub fn last_local(&self, name: Name) -> Option<Local>
        ensures { option_map local_of result ≡ meaning.last_local (locals_of self.now) name }
    {
        let place = self.scope.find(name)?;
        Some(self.locals[place])
    }

    /// The type of the local of this number, if it is known.
    pub fn local_type(&self, number: usize) -> Option<Ty>
        ensures { result ≡ local_type self.now number }
    {
        match self.types.get(number) {
            Some(Inferred::Fixed(ty)) => *ty,
            _ => None,
        }
    }

    /// The number and the type of the local that the name means.
    pub fn local(&self, name: Name) -> Option<(usize, Option<Ty>)>
        ensures { result ≡ local_in self.now name }
    {
        match self.last_local(name) {
            Some(local) => Some((local.number, self.local_type(local.number))),
            None => None,
        }
    }

    /// The type that is written so.
    pub fn type_of(&self, tree: TreeType) -> Option<Ty>
        ensures { result ≡ type_of self.now.table.newtypes tree }
    {
        self.table.ty(&tree)
    }

    /// The number that the next local gets.
    pub fn next_number(&self) -> usize
        ensures value { result ≡ self.now.next }
        ensures small { result < 2 ^ 63 }
    {
        self.names.len()
    }

    /// Whether nothing fixes the type of the local of this number.
    pub fn is_unfixed(&self, number: usize) -> bool
        ensures { result ≡ rules.is_unfixed (slice_get self.now.types number) }
    {
        match self.types.get(number) {
            Some(inferred) => is_open(*inferred),
            None => false,
        }
    }

    /// The results of the method.
    pub fn results(&self) -> &[Local]
        ensures { map local_of result.now ≡ self.now.results }
    {
        &self.results
    }

    /// Whether a loop is around.
    pub fn in_loop(&self) -> bool
        ensures { result ≡ self.now.in_loop }
    {
        self.in_loop
    }

    /// Whether a loop is around from here on.
    pub fn set_loop(&mut self, in_loop: bool)
        ensures { self.new ≡ in_a_loop self.old in_loop }
    {
        self.in_loop = in_loop;
    }

    /// One more local.
    pub fn declare(&mut self, role: Role, name: Name) -> Result<(), AllocError>
        ensures { OnOk result (self.new ≡ pure.declare self.old (role_of role) name) }
    {
        let number = self.names.len();
        // With this room the push cannot fail.
        self.locals.reserve(1)?;
        self.names.push(name)?;
        self.scope.declare(name)?;
        self.locals.push(Local { name, number, role })?;
        Ok(())
    }

    /// One more local, which is a result of the method.
    pub fn declare_result(&mut self, name: Name) -> Result<(), AllocError>
        ensures { OnOk result (self.new ≡ with_result self.old name) }
    {
        let number = self.names.len();
        self.declare(Role::Result, name)?;
        self.results.push(Local {
            name,
            number,
            role: Role::Result,
        })?;
        Ok(())
    }

    /// What fixes the type of the local behind those of which that is known.
    pub fn push_type(&mut self, inferred: Inferred) -> Result<(), AllocError>
        ensures { OnOk result (self.new ≡ pure.with_types self.old (self.old.types ++ inferred_of inferred ∷ [])) }
    {
        self.types.push(inferred)?;
        Ok(())
    }

    /// This fixes the type of the local of the number, where nothing does yet.
    fn fix_local(&mut self, number: usize, fixing: Inferred)
        ensures { self.new ≡ pure.with_types self.old (at_number number (inferred_of fixing) self.old.types) }
    {
        if number < self.types.len() {
            self.types[number] = fixed(self.types[number], fixing);
        }
    }

    /// This fixes the type of the local that the name means, where nothing does yet.
    pub fn fix(&mut self, name: Name, fixing: Inferred)
        ensures { self.new ≡ pure.with_types self.old (fix_meaning (meaning_of self.old name) (inferred_of fixing) self.old.types) }
    {
        if let Some(local) = self.last_local(name) {
            self.fix_local(local.number, fixing);
        }
    }

    /// A scope begins inside.
    pub fn enter(&mut self) -> Mark
        ensures scope { self.new ≡ pure.enter self.old }
        ensures mark { result.outer ≡ length self.old.outer }
    {
        let mark = self.scope.enter();
        self.outer = self.locals.len();
        mark
    }

    /// The innermost scope ends, with its locals.
    pub fn leave(&mut self, mark: Mark)
        requires { mark.outer ≤ length self.old.outer }
        ensures { self.new ≡ left self.old mark.outer }
    {
        self.scope.leave(mark);
        self.locals.truncate(self.outer);
        self.outer = mark.outer;
    }

    /// The next local gets this number, which another one had.
    pub fn renumber(&mut self, next: usize)
        requires { next ≤ self.old.next }
        ensures { self.new ≡ renumbered self.old next }
    {
        self.names.truncate(next);
    }

    /// The method that the name means.
    pub fn method(&self, name: Name) -> Option<&Method>
        ensures { option_map callee_from (option_copied result) ≡ as_method (meaning_of self.now name) }
    {
        if self.last_local(name).is_some() {
            return None;
        }
        self.table.method(name)
    }
}

/// The signature of the method that is called, if what stands before the arguments is the name of one.
pub fn called<'e>(env: &'e Environment<'_>, callee: &Expr) -> Option<&'e Signature>
    ensures { option_map (λ s. signature_of s.now) result ≡ called_signature env.now (tree.expr_of callee.now) }
{
    let Expr::Name(ident) = callee else {
        return None;
    };
    if env.last_local(ident.name).is_some() {
        return None;
    }
    match env.table.method(ident.name) {
        Some(method) => Some(&method.signature),
        None => None,
    }
}
