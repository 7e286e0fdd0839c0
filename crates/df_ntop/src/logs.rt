//! The log that a command may name.

ghost use Rattle.std.specs.Prelude.{◌≡◌};
ghost use Rattle.df_ntop.specs.Loaded.{is_absent as is_no_log};
ghost use Rattle.df_ntop.specs.View.{log_file_of};

use df_base::FileBytes;

/// What is there of a log.
#[derive(Drop)]
pub(crate) enum LogFile {
    /// The command names none.
    Absent,
    /// It is longer than the limit.
    TooLarge,
    /// Its bytes.
    Bytes(FileBytes),
}

/// Whether the command names no log.
pub(crate) fn is_absent(log: &LogFile) -> bool
    ensures { result ≡ is_no_log (log_file_of log.now) }
{
    match log {
        LogFile::Absent => true,
        LogFile::TooLarge => false,
        LogFile::Bytes(_) => false,
    }
}
