//! A law of room.

ghost use Rattle.std.specs.Prelude.{◌≤◌, ℕ};
ghost use Rattle.df_nmach.specs.State.{Code, State};
ghost use Rattle.df_nvm.specs.Room.{StaysWithin};

/// A run that stays within so many words and frames stays within more.
pub fn more_room_serves()
    ensures { (code : Code) (start : State) (fuel words frames more others : ℕ) → words ≤ more → frames ≤ others → StaysWithin code start fuel words frames → StaysWithin code start fuel more others }
{}
