//! Abstractions whose abstract states are assignments of values to variables.

use abstraction::{Abstraction, Digit, Projection};
use abstraction_domain::DomainAbstraction;
use fdr::FdrTask;

/// An abstraction whose abstract states are assignments of values, or of classes of values, to some of the task's
/// variables, as mixed-radix numbers, and whose operators change each of these values by itself: a projection or a
/// domain abstraction.
pub trait FactoredAbstraction: Abstraction {
    ghost use Rattle.std.specs.Prelude.{◌≡◌, ◌<◌, length, slice_index};
    ghost use Rattle.fdr.specs.Tasks.{ranges};
    ghost use Rattle.abstraction_groups.specs.Factors as spec;

    /// The variables, their classes of values, and the number of these.
    ghost factors: { Self → spec.Factors };

    /// Returns the task.
    fn task(&self) -> &FdrTask
        ensures { result.now ≡ Self.task self.now };

    /// Returns the variables of the task whose values or classes make up the abstract states, strictly increasing.
    fn variables(&self) -> &[usize]
        ensures { result.now ≡ (factors self.now).variables };

    /// Returns the positions of the values of these variables in an abstract state, in the same order.
    fn digits(&self) -> &[Digit]
        ensures { result.now ≡ spec.digits_of (factors self.now) };

    /// Returns the class of a value of the variable at index `place` of the variables: the value itself if the
    /// abstraction distinguishes all values.
    fn class_of(&self, place: usize, value: u32) -> u32
        requires place { place < length (factors self.now).variables }
        requires value { value < slice_index (ranges (Self.task self.now)) (slice_index (factors self.now).variables place) }
        ensures { result ≡ (factors self.now).class (slice_index (factors self.now).variables place) value };

    /// The transitions are those of the operators with classes for values.
    ghost factored: { (a : Self) → spec.IsFactored (Self.task a) (Self.abstraction a) (factors a) };
}

impl<'a> FactoredAbstraction for Projection<'a> {
    ghost use Rattle.abstraction_groups.specs.FactorLaws.{projection_factors, projection_factored};

    ghost factors = { projection_factors };

    ghost factored = { projection_factored };

    fn task(&self) -> &FdrTask {
        Projection::task(self)
    }

    fn variables(&self) -> &[usize] {
        self.pattern()
    }

    fn digits(&self) -> &[Digit] {
        Projection::digits(self)
    }

    fn class_of(&self, _: usize, value: u32) -> u32 {
        value
    }
}

impl<'a> FactoredAbstraction for DomainAbstraction<'a> {
    ghost use Rattle.abstraction_groups.specs.FactorLaws.{domain_factors, domain_factored};

    ghost factors = { domain_factors };

    ghost factored = { domain_factored };

    fn task(&self) -> &FdrTask {
        DomainAbstraction::task(self)
    }

    fn variables(&self) -> &[usize] {
        DomainAbstraction::variables(self)
    }

    fn digits(&self) -> &[Digit] {
        DomainAbstraction::digits(self)
    }

    fn class_of(&self, place: usize, value: u32) -> u32 {
        let rows = self.rows();
        let row = &rows[place];
        row.classes()[value as usize]
    }
}
