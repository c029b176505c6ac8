//! Laws of the format, for every text of fewer than 2^64 - 1 bytes.

ghost use Rattle.std.specs.Prelude.{◌≡◌, ◌<◌, ◌-◌, ◌^◌, ◌⊎◌, ℕ, List, length, Err};
ghost use Rattle.fdr.specs.Tasks.{FiniteDomainTask};
ghost use Rattle.sasfile_reader.specs.SasTexts.{SpellsTask};
ghost use Rattle.sasfile_reader.specs.Reading.{task_in};
ghost use Rattle.sasfile_reader.specs.declared.fault.SasFault.{SasFault};

/// Proves that no text spells two different tasks.
pub fn one_reading()
    ensures { (text : List ℕ) (s t : FiniteDomainTask) → length text < 2 ^ 64 - 1 → SpellsTask text s → SpellsTask text t → s ≡ t }
{}

/// Proves that a text that spells a task has no fault.
pub fn no_fault()
    ensures { (text : List ℕ) (task : FiniteDomainTask) (e : SasFault) → length text < 2 ^ 64 - 1 → SpellsTask text task → task_in text ≡ Err e → ⊥ }
{}

/// Proves that each text spells a task or has a first fault.
pub fn spelled_or_not()
    ensures { (text : List ℕ) → length text < 2 ^ 64 - 1 → ((task : FiniteDomainTask) × SpellsTask text task) ⊎ ((e : SasFault) × (task_in text ≡ Err e)) }
{}
