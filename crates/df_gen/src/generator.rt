//! The numbers that generated sources hold.

ghost use Rattle.std.specs.Prelude.{◌≡◌};
ghost use Rattle.df_gen.specs.GeneratedSource.{next, factor_of};

/// A linear congruential generator.
#[derive(Drop)]
pub struct Generator {
    pub state: u64,
}

impl Generator {
    /// The next factor, below 100.
    pub fn factor(&mut self) -> u64
        ensures state { self.new.state ≡ next self.old.state }
        ensures factor { result ≡ factor_of self.new.state }
    {
        let product = self.state.wrapping_mul(6364136223846793005);
        self.state = product.wrapping_add(1442695040888963407);
        (self.state >> 33) % 100
    }
}
