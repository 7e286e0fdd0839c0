//! Theories, which hold literals.

ghost use Rattle.std.specs.Prelude.{◌≡◌, ◌≤◌, ◌∷◌, ◌++◌, [], true, length, take, List, IfOk, OnOk, OnErr};
ghost use Rattle.df_form.specs.declared.log.Lit.{Lit};
ghost use Rattle.df_form.specs.Node.{Node};
ghost use Rattle.df_form.specs.Sorting.{is_formula};
ghost use Rattle.df_cong.specs.Theory.{IsAnswer};

use crate::answer::{Answer, Mark};
use df_form::Lit;
use std::alloc::AllocError;

/// A theory: it holds literals, and tells whether they contradict one another.
pub trait Theory {
    /// The nodes that its literals are of.
    ghost table: { Self → List Node };

    /// The literals that it holds, in the order in which they came.
    ghost literals: { Self → List Lit };

    /// Holds one more literal, and answers for all that it holds then. An error leaves those that it held.
    fn assert_lit(&mut self, literal: Lit) -> Result<Answer, AllocError>
        requires { is_formula (table self.old) literal.node ≡ true }
        ensures answer { IfOk result (IsAnswer (table self.old) (literals self.new)) }
        ensures holds { OnOk result (literals self.new ≡ literals self.old ++ literal ∷ []) }
        ensures err { OnErr result (literals self.new ≡ literals self.old) }
        ensures table { table self.new ≡ table self.old };

    /// How many literals are held now.
    fn mark(&self) -> Mark
        ensures { result.held ≡ length (literals self.now) };

    /// Holds as many of the first literals as the mark counts: those that were held at it, where no `undo`
    /// went below it since. It takes no memory.
    fn undo(&mut self, mark: Mark)
        requires { mark.held ≤ length (literals self.old) }
        ensures literals { literals self.new ≡ take mark.held (literals self.old) }
        ensures table { table self.new ≡ table self.old };
}
