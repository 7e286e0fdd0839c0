//! What formulas know of the program that they speak of.

ghost use Rattle.std.specs.Prelude.{◌≡◌};
ghost use Rattle.std.specs.Option.{option_map};
ghost use Rattle.df_form.specs.World.{world_of, ends_at, ends_of_decl};
ghost use Rattle.df_form.specs.WorldView.{ends_of};
ghost use Rattle.df_lang.specs.DeclView.{decl_of};

use df_lang::{Decl, Interval, Program};

/// What formulas know of the program that they speak of: the interval of each newtype, by the number of its declaration.
#[derive(Clone, Copy)]
pub struct World<'a> {
    pub program: &'a Program,
}

/// The interval of a declaration, if it is a newtype.
fn interval_of(decl: &Decl) -> Option<Interval>
    ensures { option_map ends_of result ≡ ends_of_decl (decl_of decl.now) }
{
    match decl {
        Decl::Newtype(newtype) => Some(newtype.interval),
        Decl::Method(_) => None,
    }
}

impl<'a> World<'a> {
    /// The interval of the newtype with this number, if there is one.
    pub fn interval(self, number: usize) -> Option<Interval>
        ensures { option_map ends_of result ≡ ends_at (world_of self.entry) number }
    {
        match self.program.decls.get(number) {
            Some(decl) => interval_of(decl),
            None => None,
        }
    }
}
