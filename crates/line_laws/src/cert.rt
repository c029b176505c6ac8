//! Laws of the texts of certificates.
//!
//! Lines end with line feeds; bytes after the last line feed are one more line.

ghost use Rattle.std.specs.Prelude.{◌≡◌, ◌≢◌, ◌<◌, ◌≤◌, ◌^◌, ◌++◌, ◌∷◌, ◌↔◌, [], ℕ, List, length, true, Some, Ok, Err};
ghost use Rattle.abstraction_domain.specs.Rows.{are_numbered, shares_class};
ghost use Rattle.cert_value.specs.Certificates.{CertificateValue};
ghost use Rattle.cert_text.specs.Spelling.{spelling};
ghost use Rattle.cert_value.specs.Lawful.{IsLawful};
ghost use Rattle.cert_text.specs.Reading.{certificate_of};
ghost use Rattle.cert_text.specs.declared.fault.CertFault.{CertFault};
ghost use Rattle.cert_text.specs.declared.fault.CertFault.TheVariants.{Truncated};
ghost use Rattle.line_laws.specs.CertFaultLines.{line_count, line_of, IsWithin};
ghost use Rattle.line_laws.specs.CertRepeats.{OccursTwice};

/// Proves that two texts that are read as the same certificate are the same text.
pub fn one_text()
    ensures { (s t : List ℕ) (c : CertificateValue) → certificate_of s ≡ Ok c → certificate_of t ≡ Ok c → s ≡ t }
{}

/// Proves that a fault that names one of the first n lines of a text is the first fault of every text with the same
/// first n lines, that is with the same bytes up to and including the n-th line feed, unless it is longer than 2^30
/// bytes.
pub fn same_bytes_same_fault()
    ensures { (front s t : List ℕ) (e : CertFault) → IsWithin (line_count (front ++ 10 ∷ [])) e → length (front ++ 10 ∷ t) ≤ 2 ^ 30 →
        certificate_of (front ++ 10 ∷ s) ≡ Err e → certificate_of (front ++ 10 ∷ t) ≡ Err e }
{}

/// Proves that no text of at most 2^30 bytes spells a certificate if a text with the same first n lines has a fault
/// that names one of them: no continuation of the text can repair it.
pub fn first_lines_spell_no_certificate()
    ensures { (front s t : List ℕ) (e : CertFault) (c : CertificateValue) → IsWithin (line_count (front ++ 10 ∷ [])) e →
        certificate_of (front ++ 10 ∷ s) ≡ Err e → IsLawful c → spelling c ≡ front ++ 10 ∷ t → length (spelling c) ≤ 2 ^ 30 → ⊥ }
{}

/// Proves that the first fault of a text that ends with a line feed is unchanged by whatever follows up to 2^30 bytes,
/// unless the text ended too soon.
pub fn whole_lines_keep_their_fault()
    ensures { (front rest : List ℕ) (e : CertFault) → e ≢ Truncated → length (front ++ 10 ∷ rest) ≤ 2 ^ 30 →
        certificate_of (front ++ 10 ∷ []) ≡ Err e → certificate_of (front ++ 10 ∷ rest) ≡ Err e }
{}

/// Proves that a line that the first fault of a text names is one of its lines.
pub fn fault_is_on_a_line()
    ensures { (text : List ℕ) (e : CertFault) (m : ℕ) → certificate_of text ≡ Err e → line_of e ≡ Some m → (1 ≤ m) × (m ≤ line_count text) }
{}

/// Proves that the line that a fault names is the first at fault: of the lines before it, taken alone, any number
/// either spell a certificate or end too soon.
pub fn lines_before_have_no_fault()
    ensures { (front rest : List ℕ) (e d : CertFault) (m : ℕ) → certificate_of (front ++ 10 ∷ rest) ≡ Err e → line_of e ≡ Some m →
        line_count (front ++ 10 ∷ []) < m → certificate_of (front ++ 10 ∷ []) ≡ Err d → d ≡ Truncated }
{}

/// Proves that two values of a variable share a class exactly if a class occurs twice in its row, if the
/// classes are numbered in the order of their first occurrences.
pub fn shared_class_occurs_twice()
    ensures { (classes : List ℕ) → are_numbered classes ≡ true → (shares_class classes ≡ true) ↔ OccursTwice classes }
{}
