//! What is passed over.

ghost use Rattle.std.specs.Prelude.{◌≡◌};
ghost use Rattle.std.specs.Option.{option_map};
ghost use Rattle.df_lang.specs.DeclView.{method_of};
ghost use Rattle.df_lang.specs.Groups.{group_at};
ghost use Rattle.df_lang.specs.Program.{method_at};
ghost use Rattle.df_lang.specs.View.{program_of};
ghost use Rattle.df_npass.specs.Statements.{grouped_with};

use df_lang::{Decl, DeclId, Method, Program};
use std::alloc::Global;

/// The declaration that is passed over, by its number, and the group of each declaration of the program.
#[derive(Clone, Copy)]
pub struct Setting<'a> {
    pub alloc: Global,
    pub program: &'a Program,
    pub groups: &'a [usize],
    pub number: DeclId,
}

impl<'a> Setting<'a> {
    /// The method of a number.
    pub(crate) fn method(&self, number: DeclId) -> Option<&'a Method>
        ensures { option_map (λ method. method_of method.now) result ≡ method_at (program_of self.now.program.now) number }
    {
        match self.program.decls.get(number) {
            Some(Decl::Method(method)) => Some(method),
            Some(Decl::Newtype(_)) | None => None,
        }
    }

    /// Whether a declaration is in the group of the one that is passed over.
    pub(crate) fn is_inside(&self, number: DeclId) -> bool
        ensures { result ≡ grouped_with (program_of self.now.program.now) self.now.groups.now self.now.number number }
    {
        number < self.program.decls.len() && self.group(self.number) == self.group(number)
    }

    fn group(&self, number: DeclId) -> usize
        ensures { result ≡ group_at self.now.groups.now number }
    {
        match self.groups.get(number) {
            Some(group) => *group,
            None => 0,
        }
    }
}
