//! The table of commands, built for `clap`.

ghost use Rattle.std.specs.Prelude.{◌≡◌, IfOk, codes};
ghost use Rattle.clap.specs.Words.{app_of, with_subcommand};
ghost use Rattle.df_ncmd.specs.Table as written;
ghost use Rattle.df_ncmd.specs.Built as built;
ghost use Rattle.df_ncmd.specs.Built.{IsArg, IsCommand};

use crate::limit::{FUEL_LIMIT, METHOD_LIMIT, ROUND_LIMIT, SEED_LIMIT, STEP_LIMIT};
use clap::builder::ValueParser;
use clap::{Arg, Command};
use std::alloc::{AllocError, Global};

/// A word in its place, which has to be there.
fn place<'a>(alloc: Global, id: &'a str) -> Arg<'a>
    ensures { IsArg result (written.place id.entry.now) }
{
    Arg::new(alloc, id).required(true)
}

/// An option with a value of its own.
fn option<'a>(alloc: Global, id: &'a str) -> Arg<'a>
    ensures { IsArg result (written.option id.entry.now) }
{
    Arg::new(alloc, id).long(id)
}

/// A number in its place.
fn number_place<'a>(alloc: Global, id: &'a str, least: u64, greatest: u64) -> Arg<'a>
    ensures { IsArg result (written.numbered (written.place id.entry.now) least greatest) }
{
    place(alloc, id).value_parser(ValueParser::unsigned(least, greatest))
}

/// An option with a number.
fn number_option<'a>(
    alloc: Global,
    id: &'a str,
    least: u64,
    greatest: u64,
    default: &'a str,
) -> Arg<'a>
    ensures { IsArg result (written.with_default (written.numbered (written.option id.entry.now) least greatest) default.entry.now) }
{
    option(alloc, id)
        .value_parser(ValueParser::unsigned(least, greatest))
        .default_value(default)
}

/// A command that proves a file within limits.
fn proving<'a>(alloc: Global, name: &'a str) -> Result<Command<'a>, AllocError>
    ensures { IfOk result (λ command. IsCommand command (written.proving name.entry.now)) }
{
    Command::new(alloc, name)
        .arg(place(alloc, "file"))?
        .arg(number_option(alloc, "steps", 1, STEP_LIMIT, "20000"))?
        .arg(number_option(alloc, "rounds", 0, ROUND_LIMIT, "4"))
}

/// A command that compiles a file, once it is proved or its log is checked.
fn compiling<'a>(alloc: Global, name: &'a str) -> Result<Command<'a>, AllocError>
    ensures { IfOk result (λ command. IsCommand command (written.compiling name.entry.now)) }
{
    proving(alloc, name)?.arg(option(alloc, "proof"))
}

/// A command that runs a file.
fn running<'a>(alloc: Global, name: &'a str) -> Result<Command<'a>, AllocError>
    ensures { IfOk result (λ command. IsCommand command (written.running name.entry.now)) }
{
    let command = compiling(alloc, name)?;
    let fuel = number_option(alloc, "fuel", 0, FUEL_LIMIT, "9223372036854775807");
    command.arg(fuel)
}

/// A command that checks a file's log.
fn checking<'a>(alloc: Global, name: &'a str) -> Result<Command<'a>, AllocError>
    ensures { IfOk result (λ command. IsCommand command (written.checking name.entry.now)) }
{
    Command::new(alloc, name)
        .arg(place(alloc, "file"))?
        .arg(place(alloc, "log"))
}

/// A command that makes a source.
fn making<'a>(alloc: Global, name: &'a str) -> Result<Command<'a>, AllocError>
    ensures { IfOk result (λ command. IsCommand command (written.making name.entry.now)) }
{
    Command::new(alloc, name)
        .arg(number_place(alloc, "seed", 0, SEED_LIMIT))?
        .arg(number_place(alloc, "count", 1, METHOD_LIMIT))
}

/// The program before its commands, of which one has to be named. Its words don't begin with its
/// name.
fn program<'a>(alloc: Global) -> Command<'a>
    ensures { app_of result ≡ built.program }
{
    Command::new(alloc, "dfy")
        .no_binary_name(true)
        .subcommand_required(true)
}

/// The program with the commands that prove a file.
fn with_provers<'a>(alloc: Global, program: Command<'a>) -> Result<Command<'a>, AllocError>
    ensures { IfOk result (λ command. app_of command ≡ built.with_provers (app_of program.entry)) }
{
    program
        .subcommand(proving(alloc, "verify")?)?
        .subcommand(proving(alloc, "prove")?)
}

/// The program with the command that checks a log.
fn with_checker<'a>(alloc: Global, program: Command<'a>) -> Result<Command<'a>, AllocError>
    ensures { IfOk result (λ command. app_of command ≡ with_subcommand (app_of program.entry) (written.checking (codes "check"))) }
{
    program.subcommand(checking(alloc, "check")?)
}

/// The program with the commands that compile a file.
fn with_compilers<'a>(alloc: Global, program: Command<'a>) -> Result<Command<'a>, AllocError>
    ensures { IfOk result (λ command. app_of command ≡ built.with_compilers (app_of program.entry)) }
{
    program
        .subcommand(compiling(alloc, "build")?)?
        .subcommand(running(alloc, "run")?)
}

/// The program with the command that makes a source.
fn with_maker<'a>(alloc: Global, program: Command<'a>) -> Result<Command<'a>, AllocError>
    ensures { IfOk result (λ command. app_of command ≡ with_subcommand (app_of program.entry) (written.making (codes "bulk"))) }
{
    program.subcommand(making(alloc, "bulk")?)
}

/// The whole table.
pub(crate) fn table<'a>(alloc: Global) -> Result<Command<'a>, AllocError>
    ensures { IfOk result (λ command. app_of command ≡ written.table) }
{
    let command = with_provers(alloc, program(alloc))?;
    let command = with_checker(alloc, command)?;
    let command = with_compilers(alloc, command)?;
    with_maker(alloc, command)
}
