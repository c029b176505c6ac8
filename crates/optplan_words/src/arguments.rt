//! Operands and options.

ghost use Rattle.std.specs.Prelude.{◌≡◌, ◌∷◌, [], false, IfOk};
ghost use Rattle.clap.specs.Words.{rule_of};
ghost use Rattle.optplan_words.specs.Commands as spec;
ghost use Rattle.optplan_words.specs.Commands.{IsArg, AddsRules};

use clap::{Arg, ArgAction, Command};
use std::alloc::{AllocError, Global};

/// Creates an operand that names a file.
pub(crate) fn file<'a>(alloc: Global, name: &'a str, help: &'a str) -> Arg<'a>
    ensures { IsArg (spec.operand name.entry.now) result }
{
    Arg::new(alloc, name).required(true).help(help)
}

/// Creates an option that takes a value.
pub(crate) fn option<'a>(alloc: Global, name: &'a str, value: &'a str, help: &'a str) -> Arg<'a>
    ensures { IsArg (spec.option name.entry.now) result }
{
    Arg::new(alloc, name)
        .long(name)
        .value_name(value)
        .help(help)
}

/// Creates an option that takes a value, with a default.
pub(crate) fn option_or<'a>(
    alloc: Global,
    name: &'a str,
    value: &'a str,
    default: &'a str,
    help: &'a str,
) -> Arg<'a>
    ensures { IsArg (spec.option_or name.entry.now default.entry.now) result }
{
    Arg::new(alloc, name)
        .long(name)
        .value_name(value)
        .default_value(default)
        .help(help)
}

/// Creates an option without a value.
pub(crate) fn flag<'a>(alloc: Global, name: &'a str, help: &'a str) -> Arg<'a>
    ensures { IsArg (spec.flag name.entry.now) result }
{
    Arg::new(alloc, name)
        .long(name)
        .action(ArgAction::SetTrue)
        .help(help)
}

/// Creates the option `--explain`, which every command has.
pub(crate) fn explain<'a>(alloc: Global) -> Arg<'a>
    ensures { IsArg spec.explain result }
{
    flag(
        alloc,
        "explain",
        "Explains the fault of a text on standard error: the line and column, what is wrong there, and that line",
    )
}

/// Adds an operand or option to the command; subcommands do not inherit it.
pub(crate) fn with_arg<'a>(command: Command<'a>, arg: Arg<'a>) -> Result<Command<'a>, AllocError>
    requires { arg.global ≡ false }
    ensures { IfOk result (AddsRules command.entry (rule_of arg.entry ∷ [])) }
{
    command.arg(arg)
}
