//! The values of options.

ghost use Rattle.std.specs.Prelude.{◌≡◌, ◌≢◌, ◌≤◌, ◌⊎◌, ℕ, Bool, true, false, Option, option_map, IfOk, IfErr, IfSome, IfNone, SomeIff, codes};
ghost use Rattle.std.specs.Str.Parse.{digits_value};
ghost use Rattle.clap.specs.Matches.{found_of, first_value};
ghost use Rattle.clap.specs.Words.{kind_of};
ghost use Rattle.clap.specs.declared.error.kind.ErrorKind.TheVariants.{OutOfMemory, ValueValidation};
ghost use Rattle.owner_space.specs.declared.ties.Ties.{Ties as TiesOf};
ghost use Rattle.optplan_options.specs.declared.options.Tables.{Tables as TablesOf};
ghost use Rattle.optplan_command.specs.Options.{IsNumberIn, IsNumberOf, NamesTies, IsTiesOf, NamesTables, IsTablesOf, NamesReduction, IsReductionOf, is_same, is_set, is_taken, has_taken};

use clap::error::ErrorKind;
use clap::{ArgMatches, Command, Error};
use optplan_solver::{Tables, Ties};
use std::alloc::{AllocError, Global};

/// The type of an option's value.
#[derive(Clone, Copy, Debug)]
enum Taken {
    /// A number from the first to the second, inclusive.
    Number(u64, u64),
    /// The name of an order among states of the same f-value.
    Ties,
    /// The name of a choice of tables.
    Tables,
    /// The name of tables from the goal, which other options require.
    Goal,
    /// Whether there is a reduction.
    Reduction,
    /// That there is no reduction, which another option requires.
    NoReduction,
    /// A file that is not read, and not written for another option.
    OwnFile,
}

/// A value that is refused for an option.
#[derive(Clone, Copy, Debug)]
pub(crate) struct RefusedValue<'a> {
    option: &'a str,
    value: &'a str,
    taken: Taken,
}

impl<'a> RefusedValue<'a> {
    /// Returns the command's error for the value; an out-of-memory error if allocation fails.
    pub(crate) fn error(self, alloc: Global, command: Command<'_>) -> Error
        ensures { (kind_of result ≡ OutOfMemory) ⊎ (kind_of result ≡ ValueValidation) }
    {
        let RefusedValue {
            option,
            value,
            taken,
        } = self;
        let mut command = command;
        let message = match taken {
            Taken::Number(least, most) => format!(in alloc;
                "invalid value '{value}' for '--{option}': not a number from {least} to {most}"
            ),
            Taken::Ties => format!(in alloc;
                "invalid value '{value}' for '--{option}': not one of fresh, shallow and deep"
            ),
            Taken::Tables => format!(in alloc;
                "invalid value '{value}' for '--{option}': neither staged nor goal"
            ),
            Taken::Goal => format!(in alloc;
                "invalid value '{value}' for '--{option}': only goal goes with --table or --simulate"
            ),
            Taken::Reduction => format!(in alloc;
                "invalid value '{value}' for '--{option}': neither on nor off"
            ),
            Taken::NoReduction => format!(in alloc;
                "invalid value '{value}' for '--{option}': only off goes with --simulate"
            ),
            Taken::OwnFile => format!(in alloc;
                "invalid value '{value}' for '--{option}': the file is also read, or written for another option"
            ),
        };
        let Ok(message) = message else {
            return Error::from(AllocError);
        };
        match command.error(ErrorKind::ValueValidation, message.as_str()) {
            Ok(error) => error,
            Err(error) => Error::from(error),
        }
    }
}

/// Returns the number that a text spells with digits only, if it is in this range.
fn number_in(text: &str, least: u64, most: u64) -> Option<u64>
    ensures { SomeIff result (IsNumberIn least most text.now) (digits_value 10 text.now) }
{
    // `parse` accepts a plus sign.
    if text.starts_with('+') {
        return None;
    }
    match text.parse::<u64>() {
        Ok(number) if least <= number && number <= most => Some(number),
        _ => None,
    }
}

/// Returns the number of an option, if the option is present. Fails if the value is not a number in this range.
pub(crate) fn number_for<'a>(
    words: &ArgMatches<'a>,
    option: &'a str,
    least: u64,
    most: u64,
) -> Result<Option<u64>, RefusedValue<'a>>
    ensures number { IfOk result (IsNumberOf least most (first_value (found_of words.now) option.entry.now)) }
    ensures within { IfOk result (λ number. IfSome number (λ n. (least ≤ n) × (n ≤ most))) }
    ensures refused { IfErr result (λ _. (number : Option ℕ) → IsNumberOf least most (first_value (found_of words.now) option.entry.now) number → ⊥) }
{
    let Some(value) = words.get_str(option) else {
        return Ok(None);
    };
    match number_in(value, least, most) {
        Some(number) => Ok(Some(number)),
        None => Err(RefusedValue {
            option,
            value,
            taken: Taken::Number(least, most),
        }),
    }
}

/// Returns the order that a text names, if it names one.
fn ties_named(text: &str) -> Option<Ties>
    ensures named { IfSome result (NamesTies text.now) }
    ensures neither { IfNone result ((text.now ≢ codes "fresh") × (text.now ≢ codes "shallow") × (text.now ≢ codes "deep")) }
{
    match text {
        "fresh" => Some(Ties::Fresh),
        "shallow" => Some(Ties::Shallow),
        "deep" => Some(Ties::Deep),
        _ => None,
    }
}

/// Returns the order of the option. If the option is absent, it is `Shallow` for a schedule of random steps, and else
/// `Fresh`. Fails if the value names none.
pub(crate) fn ties_for<'a>(
    words: &ArgMatches<'a>,
    option: &'a str,
    is_simulated: bool,
) -> Result<Ties, RefusedValue<'a>>
    ensures taken { IfOk result (IsTiesOf (first_value (found_of words.now) option.entry.now) is_simulated) }
    ensures refused { IfErr result (λ _. (ties : TiesOf) → IsTiesOf (first_value (found_of words.now) option.entry.now) is_simulated ties → ⊥) }
{
    let Some(value) = words.get_str(option) else {
        let absent = if is_simulated {
            Ties::Shallow
        } else {
            Ties::Fresh
        };
        return Ok(absent);
    };
    match ties_named(value) {
        Some(ties) => Ok(ties),
        None => Err(RefusedValue {
            option,
            value,
            taken: Taken::Ties,
        }),
    }
}

/// Returns the tables that a text names, if it names any.
fn tables_named(text: &str) -> Option<Tables>
    ensures named { IfSome result (NamesTables text.now) }
    ensures neither { IfNone result ((text.now ≢ codes "staged") × (text.now ≢ codes "goal")) }
{
    match text {
        "staged" => Some(Tables::Staged),
        "goal" => Some(Tables::Goal),
        _ => None,
    }
}

/// Returns the tables of the option. If the option is absent, they are `Goal` if other options require that, and else
/// `Staged`. Fails if the value names none, or `Staged` although `Goal` is required.
pub(crate) fn tables_for<'a>(
    words: &ArgMatches<'a>,
    option: &'a str,
    requires_goal: bool,
) -> Result<Tables, RefusedValue<'a>>
    ensures taken { IfOk result (IsTablesOf requires_goal (first_value (found_of words.now) option.entry.now)) }
    ensures refused { IfErr result (λ _. (tables : TablesOf) → IsTablesOf requires_goal (first_value (found_of words.now) option.entry.now) tables → ⊥) }
{
    let Some(value) = words.get_str(option) else {
        let absent = if requires_goal {
            Tables::Goal
        } else {
            Tables::Staged
        };
        return Ok(absent);
    };
    let taken = match tables_named(value) {
        None => Taken::Tables,
        Some(Tables::Staged) if requires_goal => Taken::Goal,
        Some(tables) => return Ok(tables),
    };
    Err(RefusedValue {
        option,
        value,
        taken,
    })
}

/// Returns whether a text requests a reduction, if it says so.
fn reduction_named(text: &str) -> Option<bool>
    ensures named { IfSome result (NamesReduction text.now) }
    ensures neither { IfNone result ((text.now ≢ codes "on") × (text.now ≢ codes "off")) }
{
    match text {
        "on" => Some(true),
        "off" => Some(false),
        _ => None,
    }
}

/// Returns whether the option requests a reduction. If it is absent, it does, but not for a schedule of random steps,
/// which has none. Fails if the value does not say so, or requests one for such a schedule.
pub(crate) fn reduction_for<'a>(
    words: &ArgMatches<'a>,
    option: &'a str,
    is_simulated: bool,
) -> Result<bool, RefusedValue<'a>>
    ensures taken { IfOk result (IsReductionOf is_simulated (first_value (found_of words.now) option.entry.now)) }
    ensures refused { IfErr result (λ _. (reduction : Bool) → IsReductionOf is_simulated (first_value (found_of words.now) option.entry.now) reduction → ⊥) }
{
    let Some(value) = words.get_str(option) else {
        return Ok(!is_simulated);
    };
    let taken = match reduction_named(value) {
        None => Taken::Reduction,
        Some(true) if is_simulated => Taken::NoReduction,
        Some(reduction) => return Ok(reduction),
    };
    Err(RefusedValue {
        option,
        value,
        taken,
    })
}

/// Returns whether the file has this name.
fn is_same(other: Option<&str>, name: &str) -> bool
    ensures { result ≡ is_same (option_map (λ o. o.now) other.entry) name.now }
{
    match other {
        Some(other) => other == name,
        None => false,
    }
}

/// Returns whether an option without a value is among the arguments.
pub(crate) fn is_set(words: &ArgMatches<'_>, option: &str) -> bool
    ensures { result ≡ is_set (λ id. first_value (found_of words.now) id) option.now }
{
    is_same(words.get_str(option), "true")
}

/// Returns whether a file of this name is read, or is this other one that is written; `/dev/null` never is.
fn is_taken(words: &ArgMatches<'_>, other: Option<&str>, name: &str) -> bool
    ensures { result ≡ is_taken (λ id. first_value (found_of words.now) id) (option_map (λ o. o.now) other.entry) name.now }
{
    name != "/dev/null"
        && (is_same(words.get_str("DOMAIN"), name)
            || is_same(words.get_str("PROBLEM"), name)
            || is_same(words.get_str("SAS"), name)
            || is_same(other, name))
}

/// Returns the name of the file to be written, if there is one. Fails if the file is read too, or is this other one
/// that is written.
pub(crate) fn own_file<'a>(
    words: &ArgMatches<'a>,
    option: &'a str,
    other: Option<&str>,
) -> Result<Option<&'a str>, RefusedValue<'a>>
    ensures name { IfOk result (λ name. option_map (λ n. n.now) name ≡ first_value (found_of words.now) option.entry.now) }
    ensures own { IfOk result (λ _. has_taken (λ id. first_value (found_of words.now) id)
        (option_map (λ o. o.now) other.entry) (first_value (found_of words.now) option.entry.now) ≡ false) }
    ensures refused { IfErr result (λ _. has_taken (λ id. first_value (found_of words.now) id)
        (option_map (λ o. o.now) other.entry) (first_value (found_of words.now) option.entry.now) ≡ true) }
{
    let Some(name) = words.get_str(option) else {
        return Ok(None);
    };
    if is_taken(words, other, name) {
        return Err(RefusedValue {
            option,
            value: name,
            taken: Taken::OwnFile,
        });
    }
    Ok(Some(name))
}
