//! Lines: which command the words ask for.

ghost use Rattle.std.specs.Prelude.{map, string_bytes};
ghost use Rattle.std.specs.Option.{option_and_then};
ghost use Rattle.clap.specs.Words.{subcommand_rows_of};
ghost use Rattle.df_ncmd.specs.Line.{named, of_build, of_bulk, of_check, of_named, of_prove, of_run, of_verify};
ghost use Rattle.df_ncmd.specs.View.{Gives, ReadsLine, command_of, rows_in};

use crate::command::{Command, LineFault};
use crate::limit::{FUEL_LIMIT, METHOD_LIMIT, SEED_LIMIT};
use crate::reading::{budget, number, text, text_if_given};
use crate::table::table;
use clap::ArgMatches;
use std::alloc::Global;

fn verify(alloc: Global, given: &ArgMatches) -> Result<Command, LineFault>
    ensures { Gives command_of result (of_verify (rows_in given.now)) }
{
    let file = text(alloc, given, "file")?;
    let budget = budget(given)?;
    Ok(Command::Verify { file, budget })
}

fn prove_file(alloc: Global, given: &ArgMatches) -> Result<Command, LineFault>
    ensures { Gives command_of result (of_prove (rows_in given.now)) }
{
    let file = text(alloc, given, "file")?;
    let budget = budget(given)?;
    Ok(Command::Prove { file, budget })
}

fn check(alloc: Global, given: &ArgMatches) -> Result<Command, LineFault>
    ensures { Gives command_of result (of_check (rows_in given.now)) }
{
    let file = text(alloc, given, "file")?;
    let log = text(alloc, given, "log")?;
    Ok(Command::Check { file, log })
}

fn build(alloc: Global, given: &ArgMatches) -> Result<Command, LineFault>
    ensures { Gives command_of result (of_build (rows_in given.now)) }
{
    let file = text(alloc, given, "file")?;
    let budget = budget(given)?;
    let proof = text_if_given(alloc, given, "proof")?;
    Ok(Command::Build {
        file,
        proof,
        budget,
    })
}

fn run(alloc: Global, given: &ArgMatches) -> Result<Command, LineFault>
    ensures { Gives command_of result (of_run (rows_in given.now)) }
{
    let file = text(alloc, given, "file")?;
    let budget = budget(given)?;
    let fuel = number(given, "fuel", 0, FUEL_LIMIT)?;
    let proof = text_if_given(alloc, given, "proof")?;
    Ok(Command::Run {
        file,
        proof,
        budget,
        fuel,
    })
}

fn bulk(given: &ArgMatches) -> Result<Command, LineFault>
    ensures { Gives command_of result (of_bulk (rows_in given.now)) }
{
    let seed = number(given, "seed", 0, SEED_LIMIT)?;
    let count = number(given, "count", 1, METHOD_LIMIT)?;
    Ok(Command::Bulk { seed, count })
}

/// The command of this name, with what was given for its arguments.
fn command_named(alloc: Global, name: &str, given: &ArgMatches) -> Result<Command, LineFault>
    ensures { Gives command_of result (named name.now (rows_in given.now)) }
{
    match name {
        "verify" => verify(alloc, given),
        "prove" => prove_file(alloc, given),
        "check" => check(alloc, given),
        "build" => build(alloc, given),
        "run" => run(alloc, given),
        "bulk" => bulk(given),
        _ => Err(LineFault::Usage),
    }
}

/// The command that was met.
fn command_met(alloc: Global, matches: &ArgMatches) -> Result<Command, LineFault>
    ensures { Gives command_of result (option_and_then of_named (subcommand_rows_of matches.now)) }
{
    match matches.subcommand() {
        Some((name, given)) => command_named(alloc, name, given),
        None => Err(LineFault::Usage),
    }
}

/// The command that the words ask for, as `clap` reads them by the table of commands.
/// `LineFault::Usage` comes exactly where they are no line of it, also where they ask for help.
pub fn line(alloc: Global, words: &[String]) -> Result<Command, LineFault>
    ensures { ReadsLine (map string_bytes words.now) result }
{
    let matches = table(alloc)?.try_get_matches_from(words)?;
    command_met(alloc, &matches)
}
