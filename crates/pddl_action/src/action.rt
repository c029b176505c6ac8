//! Actions.

ghost use Rattle.std.specs.Prelude.{◌≡◌, ◌++◌, ◌∷◌, [], ℕ, map, IfOk, OnOk};
ghost use Rattle.sexp.specs.Forms.{Forms, before, views, word as word_form};
ghost use Rattle.pddl_syntax.specs.Faults.{first_of};
ghost use Rattle.pddl_syntax.specs.Sections.{part_of};
ghost use Rattle.pddl_action.specs.Actions as spec;
ghost use Rattle.pddl_action.specs.Limits.{max_schemas};

use crate::schema::read_schema;
use crate::scope::Declarations;
use pddl_names::Names;
use pddl_syntax::{
    Fault, FaultKind, LimitedTable, Section, WordKind, blame, blame_if, without_first, word_kind,
};
use pddl_task::ActionSchema;
use sexp::Tree;
use std::alloc::{AllocError, Global};

/// The greatest number of schemas.
const MAX_SCHEMAS: usize = 512;

/// The actions of a domain, in the order of the text.
#[derive(Drop)]
pub struct Actions {
    /// The schema of each action, without the parts that cannot be read.
    pub schemas: Vec<ActionSchema>,
    /// The names, without repetitions.
    pub names: Names,
    /// For each action the byte offset of the expression in the position of its name, or of the action itself if there
    /// is none.
    pub places: Vec<usize>,
}

/// Reads a word in the position of an action's name, and adds it to the names of the actions before it if it is a name.
#[tactic(auto, unfolding(pddl_syntax::specs::Faults::first_of))]
fn read_name_word(
    alloc: Global,
    word: &str,
    at: usize,
    names: &mut Names,
    first: &mut Option<Fault>,
) -> Result<(), AllocError>
    ensures names { OnOk result ((end : ℕ) (rest : Forms) → names.new ≡ spec.with_action_name names.old (word_form at end word.now rest)) }
    ensures faults { OnOk result ((home end : ℕ) (rest : Forms) → first.new
        ≡ first_of first.old (spec.named_faults names.old home (word_form at end word.now rest))) }
{
    if word_kind(word) != WordKind::Name {
        blame(first, at, FaultKind::Shape);
        return Ok(());
    }
    blame_if(names.contains(word), first, at, FaultKind::TwiceDeclared);
    names.add(alloc, word)?;
    Ok(())
}

/// Reads an action's name, adds it to the names of the actions before it, and returns its byte offset.
#[tactic(auto, using(sexp::proofs::Walking::walking), unfolding(pddl_syntax::specs::Faults::first_of))]
fn read_name_at(
    alloc: Global,
    tree: &Tree,
    names: &mut Names,
    first: &mut Option<Fault>,
) -> Result<usize, AllocError>
    ensures names { (rest : Forms) → OnOk result (names.new ≡ spec.with_action_name names.old (before tree.now rest)) }
    ensures place { (home : ℕ) (rest : Forms) → IfOk result (λ at. at ≡ spec.name_place home (before tree.now rest)) }
    ensures faults { (home : ℕ) (rest : Forms) → OnOk result (first.new ≡ first_of first.old (spec.named_faults names.old home (before tree.now rest))) }
{
    match tree {
        Tree::Word { text, span } => {
            read_name_word(alloc, text.as_str(), span.start, names, first)?;
            Ok(span.start)
        }
        Tree::List { span, .. } => {
            blame(first, span.start, FaultKind::Shape);
            Ok(span.start)
        }
    }
}

/// Reads the name of the action at `home`, adds it to the names of the actions before it, and returns its byte offset,
/// or `home` if there is none.
#[tactic(auto, using(sexp::proofs::Walking::walking), unfolding(pddl_syntax::specs::Faults::first_of))]
fn read_name(
    alloc: Global,
    home: usize,
    items: &[Tree],
    names: &mut Names,
    first: &mut Option<Fault>,
) -> Result<usize, AllocError>
    ensures names { OnOk result (names.new ≡ spec.with_action_name names.old (views items.now)) }
    ensures place { IfOk result (λ at. at ≡ spec.name_place home (views items.now)) }
    ensures faults { OnOk result (first.new ≡ first_of first.old (spec.named_faults names.old home (views items.now))) }
{
    match items {
        [] => {
            blame(first, home, FaultKind::Shape);
            Ok(home)
        }
        [name, ..] => read_name_at(alloc, name, names, first),
    }
}

impl Actions {
    fn new(alloc: Global) -> Actions
        ensures schemas { result.schemas.items ≡ [] }
        ensures names { result.names ≡ [] }
        ensures places { result.places.items ≡ [] }
    {
        Actions {
            schemas: Vec::new(alloc),
            names: Names::new(alloc),
            places: Vec::new(alloc),
        }
    }

    /// Reads the next action.
    #[tactic(auto, using(pddl_syntax::proofs::Trees::noting), unfolding(pddl_syntax::specs::Faults::first_of, crate::specs::Actions::action_faults))]
    fn read(
        &mut self,
        alloc: Global,
        declarations: &Declarations,
        section: Section,
        first: &mut Option<Fault>,
    ) -> Result<(), AllocError>
        ensures schemas { OnOk result (self.new.schemas.items ≡ self.old.schemas.items ++ spec.schema_of declarations.now (part_of section.entry) ∷ []) }
        ensures names { OnOk result (self.new.names ≡ spec.with_action_name self.old.names (views section.entry.items.now)) }
        ensures places { OnOk result (self.new.places.items ≡ self.old.places.items ++ spec.place_of (part_of section.entry) ∷ []) }
        ensures faults { OnOk result (first.new ≡ first_of first.old (spec.action_faults declarations.now self.old.names (part_of section.entry))) }
    {
        let place = read_name(alloc, section.at, section.items, &mut self.names, first)?;
        self.places.push(place)?;
        let items = without_first(section.items);
        let schema = read_schema(alloc, declarations, section.at, items, first)?;
        self.schemas.push(schema)?;
        Ok(())
    }
}

/// Records the first section past the limit on actions, if there is one.
#[tactic(auto, unfolding(pddl_syntax::specs::Faults::first_of))]
fn blame_sections(sections: &[Section], first: &mut Option<Fault>)
    ensures { first.new ≡ first_of first.old (spec.past_faults LimitedTable.Schemas max_schemas (map (λ a. a.at) (map part_of sections.now))) }
{
    if let Some(section) = sections.get(MAX_SCHEMAS) {
        blame(first, section.at, FaultKind::Limit(LimitedTable::Schemas));
    }
}

/// Reads the actions of a domain from their sections, whose items are without the head `:action`, and records their
/// faults in `first`.
///
/// F10 for an action, a term, a condition or an effect of another form; F11 for a construct of PDDL that is not
/// supported, such as `forall`; F12 for a name that is not declared; F13 for a list whose number of terms differs from
/// its head's arity; F14 for a name, a parameter or a keyword that occurs a second time; F16 and F17 for an increase by
/// a number that is not whole or is out of range; F18 for the first action past 512, literal past 256, increase past 16
/// and parameter past 16.
pub fn read_actions(
    alloc: Global,
    declarations: &Declarations,
    sections: &[Section],
    first: &mut Option<Fault>,
) -> Result<Actions, AllocError>
    ensures schemas { IfOk result (λ a. a.schemas.items ≡ map (spec.schema_of declarations.now) (map part_of sections.now)) }
    ensures names { IfOk result (λ a. a.names ≡ spec.names_with [] (map part_of sections.now)) }
    ensures places { IfOk result (λ a. a.places.items ≡ map spec.place_of (map part_of sections.now)) }
    ensures faults { OnOk result (first.new ≡ first_of first.old (spec.actions_faults declarations.now (map part_of sections.now))) }
{
    let mut actions = Actions::new(alloc);
    for section in sections {
        actions.read(alloc, declarations, *section, first)?;
    }
    blame_sections(sections, first);
    Ok(actions)
}
