//! Obligations as tests see them: their places and kinds, their sequents in words, whether verdicts on them hold, and how
//! much is refused of what the engine proposes for them.
#![tactic(auto)]

mod assignment;
mod declarations;
mod evaluation;
mod placing;
mod proposing;
mod sheets;
mod stating;
mod term;
mod verdict;

pub use declarations::{Head, heads};
pub use placing::listing;
pub use proposing::refused;
pub use sheets::sheet;
pub use stating::sequents;
pub use verdict::unjudged;
