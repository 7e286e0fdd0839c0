//! A law of listings.

ghost use Rattle.std.specs.Prelude.{◌≡◌};
ghost use Rattle.df_nmach.specs.State.{Code};
ghost use Rattle.df_listing.specs.Listing.{listing_text};
ghost use Rattle.df_listing.specs.Ordinary.{IsOrdinary};

/// No two codes have one text. Codes that are written are ordinary.
pub fn one_code()
    ensures { (a b : Code) → IsOrdinary a → IsOrdinary b → listing_text a ≡ listing_text b → a ≡ b }
{}
