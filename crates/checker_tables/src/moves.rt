//! The transitions of one operator, described by the digits of abstract states that it leaves free.

ghost use Rattle.std.specs.Prelude.{◌≡◌, ℕ, ◌+◌, ◌*◌, ◌^◌, ◌<◌, ◌≤◌, ◌↔◌, ◌++◌, ◌∷◌, [], nat_eq, map, IfSome, IfOk, OnOk, All};
ghost use Rattle.std.specs.List.{find};
ghost use Rattle.fdr.specs.Tasks.{ranges, IsTask, IsInRange, IsAssignment};
ghost use Rattle.abstraction.specs.Digits.{IsDigitBelow};
ghost use Rattle.checker_tables.specs.Moves.{Reaches, Leads, IsExtended, AreMoves, IsGathered};
ghost use Rattle.abstraction.specs.Facts as fact;
ghost use Rattle.abstraction_mapping.specs.Mappings.{variables_of, facts_by};
ghost use Rattle.abstraction_mapping.specs.Views.{task_in, mapping_in, counts_in};
ghost use Rattle.checker_tables.specs.Moves as spec;

use abstraction::Digit;
use abstraction_mapping::TableAbstraction;
use fdr::Fact;
use std::alloc::{AllocError, Global};

/// A free digit of abstract states: each increment of its value moves the source and the target by a fixed step.
#[derive(Clone, Copy)]
pub(crate) struct FreeDigit {
    /// The number of values.
    pub(crate) range: usize,
    /// The weight of a value in the source.
    pub(crate) source: usize,
    /// The weight of a value in the target, 0 if an effect sets the digit.
    pub(crate) target: usize,
}

impl FreeDigit {
    /// A digit with one value, which adds no transition.
    pub(crate) const ONCE: FreeDigit = FreeDigit {
        range: 1,
        source: 0,
        target: 0,
    };

    /// Returns the digit without weight in the target.
    fn gathered(self) -> FreeDigit
        ensures { result ≡ spec.without_target self }
    {
        FreeDigit {
            range: self.range,
            source: self.source,
            target: 0,
        }
    }
}

/// The transitions of one operator: a source, a target, and the free digits over which both range.
#[derive(Drop)]
pub(crate) struct Moves {
    /// The source of the transition whose free digits are all 0.
    pub(crate) source: usize,
    /// The target of that transition.
    pub(crate) target: usize,
    /// The free digits, those of greater weights first.
    pub(crate) free: Vec<FreeDigit>,
}

/// Returns the first fact on the variable.
fn fact_on(facts: &[Fact], variable: usize) -> Option<Fact>
    ensures { result ≡ find (λ f. nat_eq f.variable variable) facts.now }
{
    facts.iter().find(|fact| fact.variable == variable).copied()
}

/// Returns the value of the first fact on the variable, as its class if the abstraction groups the variable's values;
/// `None` if there is no such fact.
fn class_in(abstraction: &TableAbstraction<'_>, facts: &[Fact], variable: usize) -> Option<u32>
    requires { All (IsInRange (ranges (task_in abstraction.now))) facts.now }
    ensures { result ≡ fact.value_in (facts_by (mapping_in abstraction.now) facts.now) variable }
{
    let fact = fact_on(facts, variable)?;
    Some(abstraction.class_fact(fact).value)
}

/// Returns the digits without weight in the target.
fn gathered(alloc: Global, free: &[FreeDigit]) -> Result<Vec<FreeDigit>, AllocError>
    ensures { IfOk result (λ made. made.items ≡ map spec.without_target free.now) }
{
    free.iter().map(|digit| digit.gathered()).collect(alloc)
}

impl Moves {
    /// Adds a free digit of less weight than all others.
    fn push(&mut self, digit: FreeDigit) -> Result<(), AllocError>
        requires { 0 < digit.range }
        ensures source { self.new.source ≡ self.old.source }
        ensures target { self.new.target ≡ self.old.target }
        ensures reached { OnOk result ((s t a b : ℕ) →
            Reaches self.new.free.items s t a b ↔ Reaches (self.old.free.items ++ digit ∷ []) s t a b) }
        ensures positive { OnOk result (All (λ d. 0 < d.range) self.old.free.items → All (λ d. 0 < d.range) self.new.free.items) }
    {
        self.free.push(digit)?;
        Ok(())
    }

    /// Adds a digit below all others, without a condition, with the effect on it if there is one.
    fn add_free(&mut self, digit: Digit, effect: Option<u32>) -> Result<(), AllocError>
        requires digit { IsDigitBelow (2 ^ 24) digit }
        requires effect { IfSome effect (λ value. value < digit.range) }
        requires target { self.old.target < 2 ^ 24 }
        ensures leads { OnOk result ((a b : ℕ) → Leads self.new a b ↔ IsExtended self.old digit None effect a b) }
        ensures positive { OnOk result (All (λ d. 0 < d.range) self.old.free.items → All (λ d. 0 < d.range) self.new.free.items) }
    {
        let range = digit.range;
        let weight = digit.weight;
        let Some(after) = effect else {
            self.push(FreeDigit {
                range,
                source: weight,
                target: weight,
            })?;
            return Ok(());
        };
        self.target += after as usize * weight;
        self.push(FreeDigit {
            range,
            source: weight,
            target: 0,
        })?;
        Ok(())
    }

    /// Adds a digit below all others, with the condition and the effect on it if there are any.
    fn add(
        &mut self,
        digit: Digit,
        condition: Option<u32>,
        effect: Option<u32>,
    ) -> Result<(), AllocError>
        requires digit { IsDigitBelow (2 ^ 24) digit }
        requires condition { IfSome condition (λ value. value < digit.range) }
        requires effect { IfSome effect (λ value. value < digit.range) }
        requires source { self.old.source < 2 ^ 24 }
        requires target { self.old.target < 2 ^ 24 }
        ensures leads { OnOk result ((a b : ℕ) → Leads self.new a b ↔ IsExtended self.old digit condition effect a b) }
        ensures positive { OnOk result (All (λ d. 0 < d.range) self.old.free.items → All (λ d. 0 < d.range) self.new.free.items) }
    {
        let Some(before) = condition else {
            self.add_free(digit, effect)?;
            return Ok(());
        };
        let after = effect.unwrap_or(before);
        self.source += before as usize * digit.weight;
        self.target += after as usize * digit.weight;
        Ok(())
    }

    /// Returns the transitions of an operator with this precondition and effect.
    pub(crate) fn new(
        alloc: Global,
        abstraction: &TableAbstraction<'_>,
        precondition: &[Fact],
        effect: &[Fact],
    ) -> Result<Moves, AllocError>
        requires precondition { IsAssignment (ranges (task_in abstraction.now)) precondition.now }
        requires effect { IsAssignment (ranges (task_in abstraction.now)) effect.now }
        ensures { IfOk result (AreMoves (counts_in abstraction.now) (variables_of (mapping_in abstraction.now)) 1
            (facts_by (mapping_in abstraction.now) precondition.now) (facts_by (mapping_in abstraction.now) effect.now)) }
    {
        let digits = abstraction.digits();
        let variables = abstraction.variables();
        let mut moves = Moves {
            source: 0,
            target: 0,
            free: Vec::new(alloc),
        };
        for place in (0..variables.len()).rev() {
            let condition = class_in(abstraction, precondition, variables[place]);
            let value = class_in(abstraction, effect, variables[place]);
            moves.add(digits[place], condition, value)?;
        }
        Ok(moves)
    }

    /// Returns the same transitions with all targets replaced by the abstract state 0.
    pub(crate) fn gathered(&self, alloc: Global) -> Result<Moves, AllocError>
        ensures { IfOk result (IsGathered self.now) }
    {
        let free = gathered(alloc, &self.free)?;
        Ok(Moves {
            source: self.source,
            target: 0,
            free,
        })
    }
}
