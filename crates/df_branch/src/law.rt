//! Laws of places.

ghost use Rattle.df_branch.specs.Laws.{GroundSetsArePlaces};

/// A search begins with the ground set of a sequent and no branch yet: this is a place where `leaf_at` may
/// be asked.
pub fn ground_sets_are_places()
    ensures { GroundSetsArePlaces }
{}
