//! Values that are shared: words over cells that are only added to, so that nothing is copied where a value is read,
//! passed or cut. Equality, dropping and compaction are loops, however deep values are.
#![tactic(auto)]

mod compact;
mod equal;
mod halt;
mod marking;
mod numbers;
mod store;
mod word;

pub use compact::{Compacted, compact_store};
pub use halt::Halt;
pub use store::Store;
pub use word::Word;
