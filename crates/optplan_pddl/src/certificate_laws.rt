//! Laws of certificates for translated tasks.

ghost use Rattle.std.specs.Prelude.{◌≡◌, ◌≤◌, ◌^◌, ℕ, List, length};
ghost use Rattle.pddl_task.specs.Planning.{PlanningTask};
ghost use Rattle.pddl.specs.Texts.{SpellTask};
ghost use Rattle.translate.specs.Translated.{TranslatedTask, IsTranslation};
ghost use Rattle.cert_value.specs.Certificates.{CertificateValue};
ghost use Rattle.cert_value.specs.Lawful.{IsLawful, IsLawfulKind};
ghost use Rattle.cert_text.specs.Spelling.{spelling};
ghost use Rattle.checker_clauses.specs.Violations.{IsHeld};
ghost use Rattle.checker.specs.Answers.{IsAnswer};
ghost use Rattle.checker.specs.declared.verdict.PlanningVerdict.TheVariants.{Accepted};
ghost use Rattle.optplan_pddl.specs.Kinds.{translation_kind};

/// Proves that the kind of certificates for a translation of a task that texts spell can be written in a text.
pub fn translation_kind_has_text()
    ensures { (domain problem : List ℕ) (task : PlanningTask) (t : TranslatedTask) → SpellTask domain problem task → IsTranslation task t →
        IsLawfulKind (translation_kind task t) }
{}

/// Proves that the checker, which reads only the texts, accepts the text of a certificate of that kind that holds for
/// the translation, for the certificate's bound, if that text has at most 2^30 bytes.
pub fn held_certificate_is_accepted()
    ensures { (domain problem text : List ℕ) (task : PlanningTask) (t : TranslatedTask) (c : CertificateValue) →
        SpellTask domain problem task → IsTranslation task t → c.kind ≡ translation_kind task t → IsHeld t.task c → IsLawful c →
        length text ≤ 2 ^ 30 → text ≡ spelling c → IsAnswer domain problem text (Accepted c.bound) }
{}
