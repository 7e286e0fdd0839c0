//! How commands end.

use df_base::Status;

/// How a command ended, before `err` is told of it.
#[derive(Drop)]
pub(crate) enum End {
    /// Its text is put.
    Done,
    /// A report with a failure is put.
    Unproved,
    /// The text so far is put, and the fuel is spent.
    FuelSpent,
    /// Nothing is put; this line is to be told, with the status.
    Told(Status, Vec<u8>),
    /// A write failed.
    Unwritten,
    /// Memory was refused.
    Memory,
}
