//! Laws of texts and their faults, for every text.

ghost use Rattle.std.specs.Prelude.{◌≡◌, ◌⊎◌, ℕ, Bool, List, true, false};
ghost use Rattle.sexp.specs.Forms.{Forms, IsOne};
ghost use Rattle.sexp.specs.Grammar.{SpellsAll};
ghost use Rattle.sexp.specs.Faults.{IsFault, IsFirstFault};
ghost use Rattle.sexp.specs.declared.fault.SexpFault.{SexpFault};

/// Proves that a text spells at most one list of expressions.
pub fn one_reading()
    ensures { (bytes : List ℕ) (f g : Forms) → SpellsAll bytes f → SpellsAll bytes g → f ≡ g }
{}

/// Proves that a text has at most one first fault.
pub fn one_first_fault()
    ensures { (one : Bool) (bytes : List ℕ) (e f : SexpFault) → IsFirstFault one bytes e → IsFirstFault one bytes f → e ≡ f }
{}

/// Proves that a text that spells expressions has no fault if any number of them is allowed.
pub fn no_fault()
    ensures { (bytes : List ℕ) (f : Forms) (e : SexpFault) → SpellsAll bytes f → IsFault false bytes e → ⊥ }
{}

/// Proves that a text that spells one expression has no fault if one is required.
pub fn one_without_fault()
    ensures { (bytes : List ℕ) (f : Forms) (e : SexpFault) → IsOne f → SpellsAll bytes f → IsFault true bytes e → ⊥ }
{}

/// Proves that a text spells expressions or has a first fault if any number of them is allowed.
pub fn spelled_or_not()
    ensures { (bytes : List ℕ) → ((f : Forms) × SpellsAll bytes f) ⊎ ((e : SexpFault) × IsFirstFault false bytes e) }
{}

/// Proves that a text spells one expression or has a first fault if one is required.
pub fn one_spelled_or_not()
    ensures { (bytes : List ℕ) → ((f : Forms) × IsOne f × SpellsAll bytes f) ⊎ ((e : SexpFault) × IsFirstFault true bytes e) }
{}
