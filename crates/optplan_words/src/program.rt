//! The commands of the program.

ghost use Rattle.std.specs.Prelude.{◌≡◌, IfOk, map};
ghost use Rattle.std.specs.String.{string_bytes};
ghost use Rattle.clap.specs.Words.{app_of, FailsBy, fault_of, subcommand_of, subcommand_rows_of};
ghost use Rattle.optplan_words.specs.Commands as spec;
ghost use Rattle.optplan_words.specs.Commands.{program, IsCommand};

use crate::files::{
    check_command, check_sas_command, migrate_cert_command, optimal_command, translate_command,
    validate_command,
};
use crate::solving::{solve_command, solve_sas_command};
use clap::{ArgMatches, Command, Error};
use std::alloc::{AllocError, Global};

/// The program's version, which `--version` prints.
const VERSION: &str = "0.1.0";

const ABOUT: &str =
    "Validates PDDL plans, solves and translates planning tasks, and checks certificates of optimality, with proved verdicts";

/// Returns the program without its commands.
fn bare_program<'a>(alloc: Global) -> Command<'a>
    ensures { IsCommand spec.bare_program result }
{
    Command::new(alloc, "optplan")
        .about(ABOUT)
        .version(VERSION)
        .subcommand_required(true)
        .arg_required_else_help(true)
        .disable_help_subcommand(true)
}

/// Returns the program: its commands, help and version.
fn program_command<'a>(alloc: Global) -> Result<Command<'a>, AllocError>
    ensures { IfOk result (λ c. app_of c ≡ program) }
{
    let program = bare_program(alloc);
    let program = program.subcommand(validate_command(alloc)?)?;
    let program = program.subcommand(check_sas_command(alloc)?)?;
    let program = program.subcommand(check_command(alloc)?)?;
    let program = program.subcommand(optimal_command(alloc)?)?;
    let program = program.subcommand(translate_command(alloc)?)?;
    let program = program.subcommand(solve_command(alloc, "solve")?)?;
    let program = program.subcommand(solve_sas_command(alloc, "solve-sas")?)?;
    program.subcommand(migrate_cert_command(alloc)?)
}

/// Returns the request of these arguments, the first of which is the program's name: a command with the values of its
/// operands and options. Fails with the error in the arguments, with help or the version if they are requested, or if
/// allocation fails.
pub fn requested<'a>(alloc: Global, words: &'a [String]) -> Result<ArgMatches<'a>, Error>
    ensures found { IfOk result (λ m. subcommand_rows_of m ≡ subcommand_of program (map string_bytes words.now)) }
    ensures fails { FailsBy (fault_of program (map string_bytes words.now)) result }
{
    program_command(alloc)?.try_get_matches_from(words)
}
