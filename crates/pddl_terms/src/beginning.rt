//! The construct that the head of a list names.

ghost use Rattle.std.specs.Prelude.{◌≡◌};
ghost use Rattle.pddl_syntax.specs.Words.{is_one_of};
ghost use Rattle.pddl_terms.specs.Beginnings.{unsupported_heads, other_beginning, beginning};
ghost use Rattle.pddl_terms.specs.Terms.{is_total_cost};

use pddl_syntax::{WordKind, word_kind};

/// The context of a list: a condition, a goal, an effect, or the initial state.
#[derive(Clone, Copy, Debug, PartialEq, Eq)]
pub enum Setting {
    InCondition,
    InGoal,
    InEffect,
    InInitial,
}

/// The construct of a list, by its head.
#[derive(Clone, Copy, Debug, PartialEq, Eq)]
pub enum Beginning {
    /// `and`
    Conjunction,
    /// `not`
    Negation,
    /// `=` in a condition
    Equality,
    /// `=` in a goal, in which it is not supported
    GoalEquality,
    /// `increase`
    Increasing,
    /// A construct of PDDL that is not supported, such as `forall`.
    Unread,
    /// Any other name: a predicate.
    Atom,
    /// A word that is not a name.
    NoName,
}

fn is_unsupported(head: &str) -> bool
    ensures { result ≡ is_one_of unsupported_heads head.now }
{
    head == "or"
        || head == "imply"
        || head == "forall"
        || head == "exists"
        || head == "when"
        || head == "preference"
        || head == "<"
        || head == ">"
        || head == "<="
        || head == ">="
        || head == "assign"
        || head == "decrease"
        || head == "scale-up"
        || head == "scale-down"
}

fn other_beginning(head: &str) -> Beginning
    ensures { result ≡ other_beginning head.now }
{
    if head == "not" {
        return Beginning::Negation;
    }
    if is_unsupported(head) {
        return Beginning::Unread;
    }
    match word_kind(head) {
        WordKind::Name => Beginning::Atom,
        WordKind::Dash | WordKind::Variable | WordKind::Other => Beginning::NoName,
    }
}

/// Returns the construct of a list with this head in a setting. `and` and `=` are ordinary predicates in the initial
/// state.
pub fn beginning_of(setting: Setting, head: &str) -> Beginning
    ensures { result ≡ beginning setting head.now }
{
    match setting {
        Setting::InCondition if head == "and" => Beginning::Conjunction,
        Setting::InCondition if head == "=" => Beginning::Equality,
        Setting::InGoal if head == "and" => Beginning::Conjunction,
        Setting::InGoal if head == "=" => Beginning::GoalEquality,
        Setting::InEffect if head == "and" => Beginning::Conjunction,
        Setting::InEffect if head == "increase" => Beginning::Increasing,
        _ => other_beginning(head),
    }
}

/// Returns whether the word is `total-cost`.
pub fn is_total_cost(word: &str) -> bool
    ensures { result ≡ is_total_cost word.now }
{
    word == "total-cost"
}
