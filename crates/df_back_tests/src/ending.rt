//! How runs end.

use df_nvm::Ran;

/// Whether a run ended, or else spent its fuel.
pub(crate) fn is_ended(ran: &Ran, ends: bool) -> bool {
    match ran {
        Ran::Ended(_, _) => ends,
        Ran::FuelSpent => !ends,
        Ran::Write | Ran::Memory => false,
    }
}
