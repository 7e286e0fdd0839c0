//! Valuations: a whole number for each node.

ghost use Rattle.std.specs.Prelude.{◌≡◌};

/// A whole number for each node.
pub trait Valuation {
    ghost use Rattle.std.specs.Prelude.{ℕ, ℤ};

    /// The number of each node.
    ghost numbers: { Self → ℕ → ℤ };

    /// The number of the node.
    fn number(&self, node: usize) -> i128
        ensures { result ≡ numbers self.now node };
}

/// The numbers of the first nodes, in their order; each other node has 0.
#[derive(Clone, Copy)]
pub(crate) struct Dense<'a> {
    pub(crate) numbers: &'a [i128],
}

impl<'a> Valuation for Dense<'a> {
    ghost use Rattle.df_back.specs.BackView.{numbers_of};

    ghost numbers = { λ dense. numbers_of dense.numbers.now };

    fn number(&self, node: usize) -> i128 {
        match self.numbers.get(node) {
            Some(number) => *number,
            None => 0,
        }
    }
}
