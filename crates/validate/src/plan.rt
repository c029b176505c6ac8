//! Plans as the names of their steps.

ghost use Rattle.std.specs.Prelude.{◌≡◌, ◌≤◌, ◌&&◌, IfSome, IfNone, length, string_bytes};
ghost use Rattle.std.specs.List.{AllByRecursion, list_all};
ghost use Rattle.pddl_names.specs.Names.{texts_of};
ghost use Rattle.validate.specs.declared.plan.PlanFault.TheVariants.{OutOfMemory};
ghost use Rattle.validate.specs.PlanTexts.{max_steps};
ghost use Rattle.validate.specs.PlanWords.{IsPlanWord, IsPlanStep, is_plan_byte, is_plan_word, are_plan_words};

use sexp::{ByteKind, SexpFault, kind_of};
use std::alloc::{AllocError, AllocFailed};
use std::marker::Model;

/// A step of a plan: the name of an action schema, and the names of the objects for its parameters. Each of them is a
/// plan word: it is not empty, and its bytes are from 33 to 126, without parentheses, semicolons and capital letters.
/// So the text of a step is read back as that step.
#[derive(Debug, Drop)]
pub struct Step {
    name: String,
    arguments: Vec<String>,
}

impl Model for Step {
    ghost use Rattle.std.specs.Prelude.{string_bytes};
    ghost use Rattle.pddl_names.specs.Names.{texts_of};
    ghost use Rattle.validate.specs.Steps.{Step as Words};
    ghost use Rattle.validate.specs.PlanWords.{IsPlanStep};

    ghost Value = { Words };

    ghost view = { λ s. record { name = string_bytes s.name; arguments = texts_of s.arguments.items } };

    ghost invariant = { λ s. IsPlanStep (record { name = string_bytes s.name; arguments = texts_of s.arguments.items }) };
}

/// A plan: its steps in order, at most 1,048,576.
#[derive(Debug, Drop)]
pub struct Plan {
    steps: Vec<Step>,
}

impl Model for Plan {
    ghost use Rattle.std.specs.Prelude.{List, ◌≤◌, length};
    ghost use Rattle.std.specs.List.{AllByRecursion};
    ghost use Rattle.validate.specs.Steps.{Step as Words};
    ghost use Rattle.validate.specs.PlanTexts.{max_steps};
    ghost use Rattle.validate.specs.PlanWords.{IsPlanStep};

    ghost Value = { List Words };

    ghost view = { λ p. p.steps.items };

    ghost invariant = { λ p. (length p.steps.items ≤ max_steps) × AllByRecursion IsPlanStep p.steps.items };
}

/// The reason why a text is not a plan.
#[derive(Clone, Copy, Debug, PartialEq, Eq)]
pub enum PlanFault {
    OutOfMemory,
    /// The text is not a list of expressions (F1 to F5).
    Tree(SexpFault),
    /// F25: a word outside a list, an empty list, or a list inside one. The place is a byte offset, counted from 0.
    PlanShape(usize),
    /// F26: more than 1,048,576 steps.
    PlanLimit,
}

impl From<AllocError> for PlanFault {
    ghost from_gives = { λ _ e. e ≡ OutOfMemory };

    fn from(_e: AllocError) -> PlanFault {
        PlanFault::OutOfMemory
    }
}

impl<T: Drop> From<AllocFailed<T>> for PlanFault {
    ghost from_gives = { λ _ e. e ≡ OutOfMemory };

    fn from(_e: AllocFailed<T>) -> PlanFault {
        PlanFault::OutOfMemory
    }
}

#[tactic(auto, unfolding(crate::specs::PlanWords::is_plan_byte))]
fn is_plan_byte(byte: u8) -> bool
    ensures { result ≡ is_plan_byte byte }
{
    matches!(kind_of(byte), ByteKind::Letter) && byte.to_ascii_lowercase() == byte
}

fn are_plan_bytes(bytes: &[u8]) -> bool
    ensures { result ≡ list_all is_plan_byte bytes.now }
{
    bytes.iter().all(|byte| is_plan_byte(*byte))
}

fn is_plan_word(word: &[u8]) -> bool
    ensures { result ≡ is_plan_word word.now }
{
    0 < word.len() && are_plan_bytes(word)
}

fn are_plan_words(words: &[String]) -> bool
    ensures { result ≡ are_plan_words words.now }
{
    words.iter().all(|word| is_plan_word(word.as_bytes()))
}

fn is_plan_step(name: &str, arguments: &[String]) -> bool
    ensures { result ≡ (is_plan_word name.now && are_plan_words arguments.now) }
{
    is_plan_word(name.as_bytes()) && are_plan_words(arguments)
}

impl Step {
    /// Returns the step with this name and these arguments, or `None` if one of them is no plan word.
    pub fn new(name: String, arguments: Vec<String>) -> Option<Step>
        ensures some { IfSome result (λ s. s ≡ record { name = string_bytes name; arguments = texts_of arguments.items }) }
        ensures words { IfSome result IsPlanStep }
        ensures none { IfNone result (IsPlanStep (record { name = string_bytes name; arguments = texts_of arguments.items }) → ⊥) }
    {
        if is_plan_step(&name, &arguments) {
            Some(Step { name, arguments })
        } else {
            None
        }
    }

    /// Returns the name of the action schema.
    pub fn name(&self) -> &str
        ensures name { result.now ≡ self.now.name }
        ensures word { IsPlanWord self.now.name }
    {
        &self.name
    }

    /// Returns the names of the objects for its parameters.
    pub fn arguments(&self) -> &[String]
        ensures arguments { texts_of result.now ≡ self.now.arguments }
        ensures words { AllByRecursion IsPlanWord self.now.arguments }
    {
        &self.arguments
    }
}

impl Plan {
    /// Returns the plan with these steps, at most `MAX_STEPS`.
    pub fn new(steps: Vec<Step>) -> Plan
        requires few { length steps.items ≤ max_steps }
        requires words { AllByRecursion IsPlanStep steps.items }
        ensures { result ≡ steps.items }
    {
        Plan { steps }
    }

    /// Returns the steps, in order.
    pub fn steps(&self) -> &[Step]
        ensures steps { result.now ≡ self.now }
        ensures few { length self.now ≤ max_steps }
        ensures words { AllByRecursion IsPlanStep self.now }
    {
        &self.steps
    }
}
