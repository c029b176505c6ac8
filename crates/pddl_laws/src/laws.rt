//! Laws of the tasks that two texts spell.

ghost use Rattle.std.specs.Prelude.{◌≡◌, ℕ, List, length};
ghost use Rattle.pddl_task.specs.Planning.{PlanningTask, IsPlanningTask};
ghost use Rattle.pddl_names.specs.Names.{AreDistinct};
ghost use Rattle.pddl.specs.Texts.{SpellTask};
ghost use Rattle.pddl_laws.specs.Known.{KnowsItsAtoms, HasWords};

/// Proves that the goal of a spelled task is consistent: it does not contain both an atom and its negation.
pub fn spelled_goal_is_consistent()
    ensures { (domain problem : List ℕ) (t : PlanningTask) → SpellTask domain problem t → IsPlanningTask t }
{}

/// Proves that the initial atoms, the atoms of the goal and those that actions add are atoms of the task: their
/// predicates exist and take that many objects, and the objects exist.
pub fn spelled_atoms_are_known()
    ensures { (domain problem : List ℕ) (t : PlanningTask) → SpellTask domain problem t → KnowsItsAtoms t }
{}

/// Proves that the names of the objects, predicates and schemas are words: one or more printable bytes other than
/// blanks.
pub fn spelled_names_are_words()
    ensures { (domain problem : List ℕ) (t : PlanningTask) → SpellTask domain problem t → HasWords t.vocabulary }
{}

/// Proves that each predicate, object and schema has a name.
pub fn spelled_numbers_have_names()
    ensures predicates { (domain problem : List ℕ) (t : PlanningTask) → SpellTask domain problem t → length t.arities ≡ length t.vocabulary.predicates }
    ensures objects { (domain problem : List ℕ) (t : PlanningTask) → SpellTask domain problem t → length t.object_types ≡ length t.vocabulary.objects }
    ensures schemas { (domain problem : List ℕ) (t : PlanningTask) → SpellTask domain problem t → length t.schemas ≡ length t.vocabulary.schemas }
{}

/// Proves that the names of the objects are distinct, and so are those of the predicates and those of the schemas.
pub fn spelled_names_are_distinct()
    ensures objects { (domain problem : List ℕ) (t : PlanningTask) → SpellTask domain problem t → AreDistinct t.vocabulary.objects }
    ensures predicates { (domain problem : List ℕ) (t : PlanningTask) → SpellTask domain problem t → AreDistinct t.vocabulary.predicates }
    ensures schemas { (domain problem : List ℕ) (t : PlanningTask) → SpellTask domain problem t → AreDistinct t.vocabulary.schemas }
{}
