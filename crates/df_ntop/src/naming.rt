//! What a command names.

ghost use Rattle.std.specs.Prelude.{◌≡◌, string_bytes};
ghost use Rattle.std.specs.Option.{option_map};
ghost use Rattle.df_ncmd.specs.Line.{IsBudget};
ghost use Rattle.df_ncmd.specs.View.{command_of};
ghost use Rattle.df_ntop.specs.Answer.{search_budget};
ghost use Rattle.df_ntop.specs.Command.{file_of, log_of, log_name_of, budget_of as budget_in};

use df_ncmd::Command;
use df_search::Budget;

/// The file of a command, as messages name it.
pub(crate) fn file(command: &Command) -> &str
    ensures { result.now ≡ file_of (command_of command.now) }
{
    match command {
        Command::Verify { file, .. } => file.as_str(),
        Command::Prove { file, .. } => file.as_str(),
        Command::Check { file, .. } => file.as_str(),
        Command::Build { file, .. } => file.as_str(),
        Command::Run { file, .. } => file.as_str(),
        Command::Bulk { .. } => "bulk",
    }
}

/// The name of a log, where there is one.
fn named(proof: &Option<String>) -> Option<&str>
    ensures { option_map (λ name. name.now) result ≡ option_map string_bytes proof.now }
{
    match proof {
        Some(log) => Some(log.as_str()),
        None => None,
    }
}

/// The log that a command names.
pub(crate) fn log(command: &Command) -> Option<&str>
    ensures { option_map (λ name. name.now) result ≡ log_of (command_of command.now) }
{
    match command {
        Command::Check { log, .. } => Some(log.as_str()),
        Command::Build { proof, .. } => named(proof),
        Command::Run { proof, .. } => named(proof),
        Command::Verify { .. } | Command::Prove { .. } | Command::Bulk { .. } => None,
    }
}

/// The same, as messages name it.
pub(crate) fn log_name(command: &Command) -> &str
    ensures { result.now ≡ log_name_of (command_of command.now) }
{
    match log(command) {
        Some(name) => name,
        None => "",
    }
}

/// How far a search may go where the words may not say it.
fn usual() -> df_ncmd::Budget
    ensures steps { result.steps ≡ 20000 }
    ensures rounds { result.rounds ≡ 4 }
{
    df_ncmd::Budget {
        steps: 20_000,
        rounds: 4,
    }
}

/// How far a search may go for a command.
pub(crate) fn budget(command: &Command) -> Budget
    requires { IsBudget (budget_in (command_of command.now)) }
    ensures { result ≡ search_budget (budget_in (command_of command.now)) }
{
    let budget = match command {
        Command::Verify { budget, .. } => *budget,
        Command::Prove { budget, .. } => *budget,
        Command::Build { budget, .. } => *budget,
        Command::Run { budget, .. } => *budget,
        Command::Check { .. } | Command::Bulk { .. } => usual(),
    };
    Budget {
        steps: budget.steps,
        rounds: u32::try_from(budget.rounds).unwrap_or(u32::MAX),
    }
}
