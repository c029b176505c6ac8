//! Laws of the texts of certificates.

ghost use Rattle.std.specs.Prelude.{◌≡◌, ◌≤◌, ◌^◌, ◌++◌, [], ℕ, List, length, codes};
ghost use Rattle.cert_value.specs.Certificates.{CertificateValue};
ghost use Rattle.cert_text.specs.Spelling.{spelling};
ghost use Rattle.cert_value.specs.Lawful.{IsLawful};
ghost use Rattle.cert_text.specs.declared.fault.CertFault.{CertFault};
ghost use Rattle.cert_text.specs.declared.fault.CertFault.TheVariants.{Header, Expected, Number, Truncated, Classes};
ghost use Rattle.cert_text.specs.Lamp.{lamp_text, lamp_text_with, lamp_certificate};
ghost use Rattle.cert_text.specs.Reading.{certificate_of};
ghost use Rattle.std.specs.Prelude.{Ok, Err, ◌⊎◌};

/// Proves that no text of at most 2^30 bytes spells two different certificates.
#[tactic(auto, using(crate::proofs::Promises::one_certificate))]
pub fn one_certificate()
    ensures { (c d : CertificateValue) → IsLawful c → IsLawful d → spelling c ≡ spelling d → length (spelling c) ≤ 2 ^ 30 → c ≡ d }
{}

/// Proves that each text spells a certificate or has a first fault, and that no text of at most 2^30 bytes does both.
#[tactic(auto, using(crate::proofs::Promises::spelled_or_not, crate::proofs::Promises::not_both))]
pub fn spelled_or_not()
    ensures either { (bytes : List ℕ) → ((c : CertificateValue) × IsLawful c × (bytes ≡ spelling c)) ⊎ ((e : CertFault) × (certificate_of bytes ≡ Err e)) }
    ensures not_both { (c : CertificateValue) (e : CertFault) → IsLawful c → length (spelling c) ≤ 2 ^ 30 → certificate_of (spelling c) ≡ Err e → ⊥ }
{}

/// Proves that no text of at most 2^30 bytes that spells a certificate begins with another that spells one: neither is
/// a proper prefix of the other.
pub fn no_front()
    ensures { (c d : CertificateValue) (rest : List ℕ) → IsLawful c → IsLawful d → spelling d ≡ spelling c ++ rest →
        length (spelling d) ≤ 2 ^ 30 → rest ≡ [] }
{}

/// Proves worked examples of classes: which certificate a text of version 3 spells, and that it is the text of that
/// certificate; the first fault if no two values share a class, also if a later line has a fault, if classes are not
/// numbered in the order of their first occurrences, if there are too few, and if there is none.
pub fn worked_classes()
    ensures read { certificate_of (lamp_text_with (codes "2 0 0")) ≡ Ok lamp_certificate }
    ensures written { spelling lamp_certificate ≡ lamp_text_with (codes "2 0 0") }
    ensures all_apart { certificate_of (lamp_text_with (codes "2 0 1")) ≡ Err (Classes 16) }
    ensures all_apart_before_later_fault { certificate_of (lamp_text_with (codes "2 0 1\ntables")) ≡ Err (Classes 16) }
    ensures misnumbered { certificate_of (lamp_text_with (codes "2 1 0")) ≡ Err (Classes 16) }
    ensures too_few { certificate_of (lamp_text_with (codes "2 0")) ≡ Err (Expected 16) }
    ensures none { certificate_of (lamp_text_with (codes "0")) ≡ Err (Number 16) }
{}

/// Proves worked examples of lines of classes: the first fault without rows, with too many or too few of them, in a
/// text that ends after them, without classes in version 3, with them in versions 1 and 2, and in a version 4.
pub fn worked_class_lines()
    ensures no_rows { certificate_of (lamp_text (codes "3") (codes "classes 0\n")) ≡ Err (Number 14) }
    ensures row_too_many { certificate_of (lamp_text (codes "3") (codes "classes 1\n2 0 0\n3 0 1 2\n")) ≡ Err (Expected 16) }
    ensures row_missing { certificate_of (lamp_text (codes "3") (codes "classes 3\n3 0 1 2\n2 0 0\n")) ≡ Err (Number 17) }
    ensures text_ends { certificate_of (codes "optplan-cert 3\nsas\nbound 0\nclasses 2\n2 0 0\n") ≡ Err Truncated }
    ensures no_classes { certificate_of (lamp_text (codes "3") []) ≡ Err (Expected 14) }
    ensures version_2 { certificate_of (lamp_text (codes "2") (codes "classes 2\n3 0 1 2\n2 0 0\n")) ≡ Err (Expected 14) }
    ensures version_1 { certificate_of (lamp_text (codes "1") (codes "classes 2\n3 0 1 2\n2 0 0\n")) ≡ Err (Expected 14) }
    ensures version_4 { certificate_of (lamp_text (codes "4") (codes "classes 2\n3 0 1 2\n2 0 0\n")) ≡ Err Header }
{}
