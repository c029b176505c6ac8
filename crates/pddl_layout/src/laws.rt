//! Laws of the layout of PDDL texts.

ghost use Rattle.std.specs.Prelude.{◌≡◌, ◌≢◌, ℕ, ◌≤◌, List, [], ◌++◌, Some, None, length, map};
ghost use Rattle.std.specs.Char.{to_ascii_lowercase};
ghost use Rattle.sexp.specs.Forms.{Forms, ◌then◌};
ghost use Rattle.sexp.specs.Grammar.{SpellsAll};
ghost use Rattle.sexp.specs.Limits.{max_bytes};
ghost use Rattle.pddl_task.specs.Planning.{PlanningTask};
ghost use Rattle.pddl_syntax.specs.declared.fault.PlanningFile.{PlanningFile};
ghost use Rattle.pddl_syntax.specs.Sections.{sections};
ghost use Rattle.pddl_syntax.specs.declared.fault.PlanningFile.TheVariants.{Domain, Problem};
ghost use Rattle.pddl.specs.declared.fault.PddlFault.TheVariants.{Section};
ghost use Rattle.pddl.specs.Passes.{Pass, FileFault, first_pass};
ghost use Rattle.pddl.specs.Texts.{IsTree, SpellTask, IsTaskRefusal, declaring_passes, domain_passes};
ghost use Rattle.pddl_layout.specs.Shapes.{SameShape};
ghost use Rattle.pddl_layout.specs.Sections.{SameSections, HasSections, section_before};
ghost use Rattle.pddl_layout.specs.Tokens.{tokens, tokens_of};
ghost use Rattle.pddl_layout.specs.Agreements.{AgreeInDeclarations, AgreeInObjects, object_passes};

/// Proves that the byte offsets of words and lists do not matter: texts whose trees have the same shape spell the same
/// task.
pub fn places_do_not_matter()
    ensures { (domain problem other_domain other_problem : List ℕ) (d p c q : Forms) (t : PlanningTask) →
        IsTree domain d → IsTree problem p → IsTree other_domain c → IsTree other_problem q → SameShape d c → SameShape p q →
        SpellTask domain problem t → SpellTask other_domain other_problem t }
{}

/// Proves that the tokens of a text that spells expressions are those of the expressions in their order.
pub fn texts_have_the_tokens_of_their_trees()
    ensures { (text : List ℕ) (f : Forms) → SpellsAll text f → tokens text ≡ tokens_of f }
{}

/// Proves that texts have the same tokens exactly if their trees have the same shape: a text of at most `max_bytes`
/// bytes with the tokens of one that spells a tree spells a tree of the same shape, and texts that spell trees of the
/// same shape have the same tokens.
pub fn same_tokens_have_one_shape()
    ensures shape { (text other : List ℕ) (f : Forms) → IsTree text f → tokens text ≡ tokens other → length other ≤ max_bytes →
        (g : Forms) × IsTree other g × SameShape f g }
    ensures tokens { (text other : List ℕ) (f g : Forms) → IsTree text f → IsTree other g → SameShape f g → tokens text ≡ tokens other }
{}

/// Proves that blanks, comments and the case of letters do not matter: texts of at most `max_bytes` bytes with the same
/// tokens spell the same task.
pub fn same_tokens_spell_one_task()
    ensures { (domain problem other_domain other_problem : List ℕ) (t : PlanningTask) →
        tokens domain ≡ tokens other_domain → tokens problem ≡ tokens other_problem →
        length other_domain ≤ max_bytes → length other_problem ≤ max_bytes →
        SpellTask domain problem t → SpellTask other_domain other_problem t }
{}

/// Proves that the case of letters does not matter: texts that are equal but for the case of letters spell the same
/// task.
pub fn letters_case_does_not_matter()
    ensures tokens { (text other : List ℕ) → map to_ascii_lowercase text ≡ map to_ascii_lowercase other → tokens text ≡ tokens other }
    ensures task { (domain problem other_domain other_problem : List ℕ) (t : PlanningTask) →
        map to_ascii_lowercase domain ≡ map to_ascii_lowercase other_domain → map to_ascii_lowercase problem ≡ map to_ascii_lowercase other_problem →
        SpellTask domain problem t → SpellTask other_domain other_problem t }
{}

/// Proves that the order between sections of different names does not matter: texts that consist of the same sections
/// of each name, up to byte offsets, spell the same task.
pub fn sections_commute()
    ensures { (domain problem other_domain other_problem : List ℕ) (d p c q : Forms) (t : PlanningTask) →
        IsTree domain d → IsTree problem p → IsTree other_domain c → IsTree other_problem q →
        SameSections Domain d c → SameSections Problem p q → HasSections Domain c → HasSections Problem q →
        SpellTask domain problem t → SpellTask other_domain other_problem t }
{}

/// Proves that two neighbouring sections of different names may be exchanged: the sections of each name remain the
/// same.
pub fn neighbours_may_be_exchanged()
    ensures { (file : PlanningFile) (d c front i j back : Forms) (name other : List ℕ) → name ≢ other →
        SameShape (sections d) (front then section_before name i (section_before other j back)) →
        SameShape (sections c) (front then section_before other j (section_before name i back)) → SameSections file d c }
{}

/// Proves that the first fault of passes stays the first, whatever passes follow.
pub fn earlier_passes_decide()
    ensures { (ps qs : List Pass) (e : FileFault) → first_pass ps ≡ Some e → first_pass (ps ++ qs) ≡ Some e }
{}

/// Proves that the first fault of a domain's declarations is the result, whatever its actions and the problem's text
/// are.
pub fn declaration_faults_decide()
    ensures { (domain other_domain problem other_problem : List ℕ) (d c : Forms) (e : FileFault) →
        IsTree domain d → IsTree other_domain c → AgreeInDeclarations d c → first_pass (declaring_passes d) ≡ Some e →
        IsTaskRefusal domain problem (Section e.file e.fault) × IsTaskRefusal other_domain other_problem (Section e.file e.fault) }
{}

/// Proves that the first fault of a domain, including its actions, is the result, whatever the problem's text is.
pub fn action_faults_decide()
    ensures { (domain problem : List ℕ) (d : Forms) (e : FileFault) →
        IsTree domain d → first_pass (domain_passes d) ≡ Some e → IsTaskRefusal domain problem (Section e.file e.fault) }
{}

/// Proves that the first fault of a problem's heads and objects is the result, whatever its initial state, goal and
/// metric are.
pub fn object_faults_decide()
    ensures { (domain problem other_problem : List ℕ) (d p q : Forms) (e : FileFault) →
        IsTree domain d → first_pass (domain_passes d) ≡ None → IsTree problem p → IsTree other_problem q → AgreeInObjects p q →
        first_pass (object_passes d p) ≡ Some e →
        IsTaskRefusal domain problem (Section e.file e.fault) × IsTaskRefusal domain other_problem (Section e.file e.fault) }
{}
