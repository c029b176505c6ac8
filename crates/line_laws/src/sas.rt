//! Laws of the texts of finite-domain tasks.
//!
//! Lines are those of the definition of the format: without the blanks and carriage returns at their ends, and the last
//! one with or without a line feed.

ghost use Rattle.std.specs.Prelude.{◌≡◌, ◌≢◌, ◌<◌, ◌≤◌, ◌-◌, ◌^◌, ◌++◌, ◌∷◌, [], ℕ, List, length, Some, Err};
ghost use Rattle.fdr.specs.Tasks.{FiniteDomainTask, IsTask};
ghost use Rattle.sasfile_reader.specs.Lines.{lines};
ghost use Rattle.sasfile_reader.specs.SasTexts.{SpellsTask};
ghost use Rattle.sasfile_reader.specs.Reading.{task_in};
ghost use Rattle.sasfile_reader.specs.declared.fault.SasFault.{SasFault};
ghost use Rattle.sasfile_reader.specs.declared.fault.SasFault.TheVariants.{Truncated};
ghost use Rattle.line_laws.specs.SasFaultLines.{line_of, IsWithin, HaveSameLines};

/// Proves that what a text of fewer than 2^64 - 1 bytes spells is a task: its values are in range, and no variable
/// occurs twice in the goal, in a precondition or in an effect.
pub fn spelled_is_task()
    ensures { (text : List ℕ) (task : FiniteDomainTask) → length text < 2 ^ 64 - 1 → SpellsTask text task → IsTask task }
{}

/// Proves that a fault that names one of the first n lines of a text is the first fault of every text with the same
/// first n lines.
pub fn same_lines_same_fault()
    ensures { (n : ℕ) (s t : List ℕ) (e : SasFault) → HaveSameLines n s t → IsWithin n e → task_in s ≡ Err e → task_in t ≡ Err e }
{}

/// Proves the same byte by byte: if two texts begin with the same bytes up to and including a line feed, a fault that
/// names a line before that line feed is the first fault of both or of neither.
pub fn same_bytes_same_fault()
    ensures { (front s t : List ℕ) (e : SasFault) → IsWithin (length (lines (front ++ 10 ∷ []))) e →
        task_in (front ++ 10 ∷ s) ≡ Err e → task_in (front ++ 10 ∷ t) ≡ Err e }
{}

/// Proves that no text of fewer than 2^64 - 1 bytes spells a task if a text with the same first n lines has a fault
/// that names one of them: no continuation of the text can repair it.
pub fn first_lines_spell_no_task()
    ensures { (n : ℕ) (s t : List ℕ) (e : SasFault) (task : FiniteDomainTask) → HaveSameLines n s t → IsWithin n e →
        task_in s ≡ Err e → length t < 2 ^ 64 - 1 → SpellsTask t task → ⊥ }
{}

/// Proves that the first fault of a text that ends with a line feed is unchanged by whatever follows, unless the text
/// ended too soon. This includes an exceeded limit, which names no line.
pub fn whole_lines_keep_their_fault()
    ensures { (front rest : List ℕ) (e : SasFault) → e ≢ Truncated → task_in (front ++ 10 ∷ []) ≡ Err e → task_in (front ++ 10 ∷ rest) ≡ Err e }
{}

/// Proves that a line that the first fault of a text names is one of its lines.
pub fn fault_is_on_a_line()
    ensures { (text : List ℕ) (e : SasFault) (m : ℕ) → task_in text ≡ Err e → line_of e ≡ Some m → (1 ≤ m) × (m ≤ length (lines text)) }
{}

/// Proves that the line that a fault names is the first at fault: of the lines before it, taken alone, any number
/// either spell a task or end too soon.
pub fn lines_before_have_no_fault()
    ensures { (front rest : List ℕ) (e d : SasFault) (m : ℕ) → task_in (front ++ 10 ∷ rest) ≡ Err e → line_of e ≡ Some m →
        length (lines (front ++ 10 ∷ [])) < m → task_in (front ++ 10 ∷ []) ≡ Err d → d ≡ Truncated }
{}
