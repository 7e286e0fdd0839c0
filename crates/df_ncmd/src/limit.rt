//! The greatest numbers that a command may name.

/// Branches that may be closed.
pub(crate) const STEP_LIMIT: u64 = 10_000_000;

/// Rounds of instances.
pub(crate) const ROUND_LIMIT: u64 = 8;

/// Steps of the machine.
pub const FUEL_LIMIT: u64 = 9_223_372_036_854_775_807;

/// Seeds of a generated source.
pub(crate) const SEED_LIMIT: u64 = 9_223_372_036_854_775_807;

/// Methods of a generated source.
pub(crate) const METHOD_LIMIT: u64 = 200;
