//! The files of a command.

ghost use Rattle.std.specs.Prelude.{◌≡◌, ◌≤◌, ◌↔◌, ℕ, List, Some, IfOk, IfErr};
ghost use Rattle.df_ncmd.specs.View.{command_of};
ghost use Rattle.df_ntop.specs.Call.{store};
ghost use Rattle.df_ntop.specs.Command.{IsFileOf, file_of, log_of};
ghost use Rattle.df_ntop.specs.Ending.{LoadsSource, LoadsLog, IsSourceFault, IsLogFault, FailsToLoad};
ghost use Rattle.df_ntop.specs.View.{log_file_of};

use crate::ending::End;
use crate::logs::LogFile;
use crate::naming::{file, log};
use crate::telling::{told, unread_text};
use df_base::{FileBytes, Files, Global, LoadFault, Status};
use df_ncmd::Command;

/// A source has at most this many bytes.
const BYTE_LIMIT: u64 = 4_194_304;

/// A log has at most this many bytes.
const LOG_LIMIT: u64 = 268_435_456;

/// The source of a command, or none where it is longer than the limit; or how the command ends where the load fails.
pub(crate) fn load_source<F: Files>(
    alloc: Global,
    command: &Command,
    files: &mut F,
) -> Result<Option<FileBytes>, End>
    requires allowed { F.allowed files.old (file_of (command_of command.now)) }
    requires file { IsFileOf (command_of command.now) (file_of (command_of command.now)) }
    ensures loads { IfOk result (LoadsSource (store F.Files files.old files.new) (file_of (command_of command.now))) }
    ensures fails { IfErr result (FailsToLoad (IsSourceFault (store F.Files files.old files.new) (command_of command.now)) (F.fault_count files.old) (F.fault_count files.new)) }
    ensures held { F.holds files.new ≡ F.holds files.old }
    ensures allows { (other : List ℕ) → F.allowed files.old other ↔ F.allowed files.new other }
    ensures counts { F.fault_count files.old ≤ F.fault_count files.new }
{
    match files.load(alloc, file(command), BYTE_LIMIT) {
        Ok(source) => Ok(Some(source)),
        Err(LoadFault::Failed) => Err(told(Status::Unread, unread_text(alloc, file(command)))),
        Err(LoadFault::Large(_)) => Ok(None),
        Err(LoadFault::Memory) => Err(End::Memory),
    }
}

/// The log of this name.
fn load_named<F: Files>(
    alloc: Global,
    command: &Command,
    name: &str,
    files: &mut F,
) -> Result<LogFile, End>
    requires allowed { F.allowed files.old name.now }
    requires named { log_of (command_of command.now) ≡ Some name.now }
    ensures loads { IfOk result (λ log. LoadsLog (store F.Files files.old files.new) (Some name.now) (log_file_of log)) }
    ensures fails { IfErr result (FailsToLoad (IsLogFault (store F.Files files.old files.new) (command_of command.now)) (F.fault_count files.old) (F.fault_count files.new)) }
    ensures held { F.holds files.new ≡ F.holds files.old }
    ensures counts { F.fault_count files.old ≤ F.fault_count files.new }
    ensures allows { (other : List ℕ) → F.allowed files.old other ↔ F.allowed files.new other }
{
    match files.load(alloc, name, LOG_LIMIT) {
        Ok(bytes) => Ok(LogFile::Bytes(bytes)),
        Err(LoadFault::Failed) => Err(told(Status::Unread, unread_text(alloc, name))),
        Err(LoadFault::Large(_)) => Ok(LogFile::TooLarge),
        Err(LoadFault::Memory) => Err(End::Memory),
    }
}

/// The log of a command, if it names one; or how the command ends where the load fails.
pub(crate) fn load_log<F: Files>(
    alloc: Global,
    command: &Command,
    files: &mut F,
) -> Result<LogFile, End>
    requires { (name : List ℕ) → log_of (command_of command.now) ≡ Some name → F.allowed files.old name }
    ensures loads { IfOk result (λ log. LoadsLog (store F.Files files.old files.new) (log_of (command_of command.now)) (log_file_of log)) }
    ensures fails { IfErr result (FailsToLoad (IsLogFault (store F.Files files.old files.new) (command_of command.now)) (F.fault_count files.old) (F.fault_count files.new)) }
    ensures held { F.holds files.new ≡ F.holds files.old }
    ensures counts { F.fault_count files.old ≤ F.fault_count files.new }
    ensures allows { (other : List ℕ) → F.allowed files.old other ↔ F.allowed files.new other }
{
    match log(command) {
        Some(name) => load_named(alloc, command, name, files),
        None => Ok(LogFile::Absent),
    }
}
