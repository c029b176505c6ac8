//! The arguments of the commands that work on files alone.

ghost use Rattle.std.specs.Prelude.{◌≡◌, IfSome, IfNone};
ghost use Rattle.clap.specs.Matches.{found_of, first_value};
ghost use Rattle.optplan_command.specs.SolveWords.{operand};
ghost use Rattle.optplan_command.specs.FileCommands.{IsNamed, NamesNoFileCommand};

use crate::file_command::FileCommand;
use clap::ArgMatches;

/// Returns the file that an operand names, the empty text if it names none.
fn named<'a>(words: &ArgMatches<'a>, role: &str) -> &'a str
    ensures { result.now ≡ operand (λ name. first_value (found_of words.now) name) role.now }
{
    words.get_str(role).unwrap_or("")
}

/// Returns the command of this name, with the files that its arguments name, if it is one that works on files alone.
pub(crate) fn file_command<'a>(name: &str, words: &ArgMatches<'a>) -> Option<FileCommand<'a>>
    ensures some { IfSome result (IsNamed name.now (λ name. first_value (found_of words.now) name)) }
    ensures none { IfNone result (NamesNoFileCommand name.now) }
{
    match name {
        "validate" => Some(FileCommand::Validate {
            domain: named(words, "DOMAIN"),
            problem: named(words, "PROBLEM"),
            plan: named(words, "PLAN"),
        }),
        "check" => Some(FileCommand::Check {
            domain: named(words, "DOMAIN"),
            problem: named(words, "PROBLEM"),
            cert: named(words, "CERT"),
        }),
        "check-sas" => Some(FileCommand::CheckSas {
            sas: named(words, "SAS"),
            cert: named(words, "CERT"),
        }),
        "optimal" => Some(FileCommand::Optimal {
            domain: named(words, "DOMAIN"),
            problem: named(words, "PROBLEM"),
            plan: named(words, "PLAN"),
            cert: named(words, "CERT"),
        }),
        "translate" => Some(FileCommand::Translate {
            domain: named(words, "DOMAIN"),
            problem: named(words, "PROBLEM"),
        }),
        "migrate-cert" => Some(FileCommand::MigrateCert {
            cert: named(words, "CERT"),
        }),
        _ => None,
    }
}
