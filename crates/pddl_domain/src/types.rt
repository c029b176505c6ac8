//! The section of the types.

ghost use Rattle.std.specs.Prelude.{◌≡◌, ◌++◌, ◌<◌, ◌∷◌, [], ℕ, List, Option, map, length, slice_index_or, None, IfOk, OnOk, codes, false, true};
ghost use Rattle.std.specs.List.{All, range_with_len};
ghost use Rattle.std.specs.Option.{IfSome, option_map};
ghost use Rattle.sexp.specs.Forms.{views};
ghost use Rattle.pddl_names.specs.Names.{number_of, with_name};
ghost use Rattle.pddl_syntax.specs.Faults.{first_of};
ghost use Rattle.pddl_syntax.specs.Typed.{declared, spread, spread_run, with_type, parent_text, typed_faults};
ghost use Rattle.pddl_syntax.specs.Parameters.{names_with};
ghost use Rattle.pddl_domain.specs.Cycles.{lies_on_cycle};
ghost use Rattle.pddl_domain.specs.Types as spec;
ghost use Rattle.pddl_domain.specs.Types.{with_parent, all_types, numbered, first_of_name, first_parent, parents, subtype_faults, types_faults};

use crate::cycles::types_on_cycles;
use pddl_names::Names;
use pddl_syntax::{Fault, FaultKind, Named, Run, Types, blame_if, typed_list};
use sexp::Tree;
use std::alloc::{AllocError, Global};

/// A declaration of a type at byte offset `at`, with its supertype if that can be read. Types are represented by their
/// numbers.
#[derive(Clone, Copy, Debug, PartialEq, Eq)]
pub struct Subtype {
    pub name: usize,
    pub at: usize,
    pub parent: Option<usize>,
}

/// Adds the supertype of a run to the names.
fn add_parent(alloc: Global, names: &mut Names, run: &Run) -> Result<(), AllocError>
    ensures { OnOk result (names.new ≡ with_parent names.old (parent_text run.now)) }
{
    if let Some(parent) = &run.parent {
        names.add(alloc, parent.as_str())?;
    }
    Ok(())
}

/// Adds the names of a run.
fn add_names(alloc: Global, names: &mut Names, added: &[Named]) -> Result<(), AllocError>
    ensures { OnOk result ((p : Option (List ℕ)) → names.new ≡ names_with names.old (map (with_type p) added.now)) }
{
    for named in added {
        names.add(alloc, named.name.as_str())?;
    }
    Ok(())
}

/// Adds the types of a run. The supertype is looked up once, rather than for each name.
fn add_run(alloc: Global, names: &mut Names, run: &Run) -> Result<(), AllocError>
    ensures { OnOk result (names.new ≡ all_types names.old (spread_run run.now)) }
{
    match run.names.as_slice() {
        [] => Ok(()),
        [head, others @ ..] => {
            names.add(alloc, head.name.as_str())?;
            add_parent(alloc, names, run)?;
            add_names(alloc, names, others)
        }
    }
}

/// Adds `object` and the types of the runs.
fn add_types(alloc: Global, names: &mut Names, runs: &[Run]) -> Result<(), AllocError>
    ensures { OnOk result (names.new ≡ all_types (with_name names.old (codes "object")) (spread runs.now)) }
{
    names.add(alloc, "object")?;
    for run in runs {
        add_run(alloc, names, run)?;
    }
    Ok(())
}

/// Returns the names of all types of the runs, `object` first.
fn type_names(alloc: Global, runs: &[Run]) -> Result<Names, AllocError>
    ensures { IfOk result (λ names. names ≡ spec.type_names (spread runs.now)) }
{
    let mut names = Names::new(alloc);
    add_types(alloc, &mut names, runs)?;
    Ok(names)
}

/// Returns the number of the supertype of a run, or `None` if it cannot be read.
fn parent_number(names: &Names, run: &Run) -> Option<usize>
    ensures { result ≡ option_map (number_of names.now) (parent_text run.now) }
{
    match &run.parent {
        Some(parent) => Some(names.number_of(parent.as_str())),
        None => None,
    }
}

/// Adds the declarations of a run, by numbers.
fn number_run(names: &Names, run: &Run, subtypes: &mut Vec<Subtype>) -> Result<(), AllocError>
    ensures { OnOk result (subtypes.new.items ≡ subtypes.old.items ++ map (numbered names.now) (spread_run run.now)) }
{
    let parent = parent_number(names, run);
    for named in &run.names {
        subtypes.push(Subtype {
            name: names.number_of(named.name.as_str()),
            at: named.at,
            parent,
        })?;
    }
    Ok(())
}

/// Returns the declarations of the runs, by numbers.
fn subtypes(alloc: Global, names: &Names, runs: &[Run]) -> Result<Vec<Subtype>, AllocError>
    ensures { IfOk result (λ subtypes. subtypes.items ≡ map (numbered names.now) (spread runs.now)) }
{
    let mut subtypes = Vec::new(alloc);
    for run in runs {
        number_run(names, run, &mut subtypes)?;
    }
    Ok(subtypes)
}

/// Returns the first declaration of each of `count` types, or `None` for a type without one.
fn first_declarations(
    alloc: Global,
    subtypes: &[Subtype],
    count: usize,
) -> Result<Vec<Option<Subtype>>, AllocError>
    requires { All (λ d. d.name < count) subtypes.now }
    ensures { IfOk result (λ firsts. firsts.items ≡ map (first_of_name subtypes.now) (range_with_len 0 count)) }
{
    let mut firsts = vec![in alloc; None; count]?;
    for index in (0..subtypes.len()).rev() {
        let subtype = subtypes[index];
        firsts[subtype.name] = Some(subtype);
    }
    Ok(firsts)
}

fn first_parent(first: Option<Subtype>) -> usize
    ensures { result ≡ first_parent first }
{
    match first {
        Some(
            Subtype {
                parent: Some(parent),
                ..
            },
        ) => parent,
        _ => 0,
    }
}

/// Returns the supertype of each type, by its first declaration.
fn supertypes(alloc: Global, firsts: &[Option<Subtype>]) -> Result<Vec<usize>, AllocError>
    ensures { IfOk result (λ supertypes. supertypes.items ≡ map first_parent firsts.now) }
{
    let mut supertypes = Vec::new(alloc);
    for first in firsts {
        supertypes.push(first_parent(*first))?;
    }
    Ok(supertypes)
}

/// Returns whether both numbers are present and differ.
pub fn differs(first: Option<usize>, second: Option<usize>) -> bool
    ensures { result ≡ spec.differs first second }
{
    match (first, second) {
        (Some(first), Some(second)) => first != second,
        _ => false,
    }
}

fn is_twice(first: Option<Subtype>, subtype: Subtype) -> bool
    ensures { result ≡ spec.is_twice first subtype }
{
    match first {
        Some(known) => differs(known.parent, subtype.parent),
        None => false,
    }
}

/// Records the faults of declarations that repeat a type with another supertype, or whose type lies on a cycle.
#[tactic(auto, unfolding(pddl_syntax::specs::Faults::first_of))]
fn blame_subtypes(
    subtypes: &[Subtype],
    firsts: &[Option<Subtype>],
    cyclic: &[bool],
    first: &mut Option<Fault>,
)
    requires first_in { All (λ d. d.name < length firsts.now) subtypes.now }
    requires cyclic_in { All (λ d. d.name < length cyclic.now) subtypes.now }
    ensures { first.new ≡ first_of first.old (subtype_faults (λ n. slice_index_or firsts.now n None) (λ n. slice_index_or cyclic.now n false) subtypes.now) }
{
    for subtype in subtypes {
        blame_if(
            is_twice(firsts[subtype.name], *subtype),
            first,
            subtype.at,
            FaultKind::TwiceDeclared,
        );
        let is_cyclic = if subtype.name == 0 {
            differs(Some(0), subtype.parent)
        } else {
            cyclic[subtype.name]
        };
        blame_if(is_cyclic, first, subtype.at, FaultKind::TypeCycle);
    }
}

/// Records the faults of the declarations, given the first declaration and the supertype of each type.
fn blame_declarations(
    alloc: Global,
    subtypes: &[Subtype],
    firsts: &[Option<Subtype>],
    supertypes: &[usize],
    first: &mut Option<Fault>,
) -> Result<(), AllocError>
    requires names_in { All (λ d. d.name < length supertypes.now) subtypes.now }
    requires firsts { firsts.now ≡ map (first_of_name subtypes.now) (range_with_len 0 (length supertypes.now)) }
    requires supertypes_in { All (λ s. s < length supertypes.now) supertypes.now }
    ensures { OnOk result (first.new ≡ first_of first.old (subtype_faults (first_of_name subtypes.now) (lies_on_cycle supertypes.now) subtypes.now)) }
{
    let cyclic = types_on_cycles(alloc, supertypes)?;
    blame_subtypes(subtypes, firsts, &cyclic, first);
    Ok(())
}

/// Returns the supertype of each of `count` types by their declarations, and records the faults of these in `first`.
fn noted_supertypes(
    alloc: Global,
    subtypes: &[Subtype],
    count: usize,
    first: &mut Option<Fault>,
) -> Result<Vec<usize>, AllocError>
    requires names_in { All (λ d. d.name < count) subtypes.now }
    requires parents_in { All (λ d. IfSome d.parent (λ p. p < count)) subtypes.now }
    ensures supertypes { IfOk result (λ supertypes. supertypes.items ≡ parents subtypes.now count) }
    ensures faults { OnOk result (first.new
        ≡ first_of first.old (subtype_faults (first_of_name subtypes.now) (lies_on_cycle (parents subtypes.now count)) subtypes.now)) }
{
    let firsts = first_declarations(alloc, subtypes, count)?;
    let supertypes = supertypes(alloc, &firsts)?;
    blame_declarations(alloc, subtypes, &firsts, &supertypes, first)?;
    Ok(supertypes)
}

/// Returns the supertype of each type of the runs, whose names are `names`, and records the faults of the declarations
/// in `first`.
fn declared_supertypes(
    alloc: Global,
    names: &Names,
    runs: &[Run],
    first: &mut Option<Fault>,
) -> Result<Vec<usize>, AllocError>
    requires { names.now ≡ spec.type_names (spread runs.now) }
    ensures supertypes { IfOk result (λ supertypes. supertypes.items ≡ spec.supertypes (spread runs.now)) }
    ensures faults { OnOk result (first.new ≡ first_of first.old (subtype_faults (first_of_name (spec.subtypes (spread runs.now)))
        (lies_on_cycle (spec.supertypes (spread runs.now))) (spec.subtypes (spread runs.now)))) }
{
    let subtypes = subtypes(alloc, names, runs)?;
    noted_supertypes(alloc, &subtypes, names.len(), first)
}

/// Returns the types of the runs, and records the faults of their declarations in `first`.
fn declared_types(
    alloc: Global,
    runs: &[Run],
    first: &mut Option<Fault>,
) -> Result<Types, AllocError>
    ensures names { IfOk result (λ types. types.names ≡ spec.type_names (spread runs.now)) }
    ensures supertypes { IfOk result (λ types. types.supertypes.items ≡ spec.supertypes (spread runs.now)) }
    ensures faults { OnOk result (first.new ≡ first_of first.old (subtype_faults (first_of_name (spec.subtypes (spread runs.now)))
        (lies_on_cycle (spec.supertypes (spread runs.now))) (spec.subtypes (spread runs.now)))) }
{
    let names = type_names(alloc, runs)?;
    let supertypes = declared_supertypes(alloc, &names, runs, first)?;
    Ok(Types { names, supertypes })
}

/// Reads the typed list at `home`, in which every type counts as declared, and records its faults in `first`.
fn type_runs(
    alloc: Global,
    items: &[Tree],
    home: usize,
    first: &mut Option<Fault>,
) -> Result<Vec<Run>, AllocError>
    ensures meaning { IfOk result (λ runs. spread runs.items ≡ declared false (views items.now)) }
    ensures faults { OnOk result (first.new ≡ first_of first.old (typed_faults false (λ t. true) home true (views items.now))) }
{
    let none = Types {
        names: Names::new(alloc),
        supertypes: Vec::new(alloc),
    };
    typed_list(alloc, items, false, true, &none, home, first)
}

/// Reads the section of the types at `home`, whose items without its head are `items`, and records its faults in
/// `first`.
///
/// `object` is the first type. Each other type has one supertype, that of its first declaration, or `object` if there
/// is no declaration or its supertype cannot be read (Fox and Long 2003; McDermott and others 1998).
pub fn types_section(
    alloc: Global,
    items: &[Tree],
    home: usize,
    first: &mut Option<Fault>,
) -> Result<Types, AllocError>
    ensures names { IfOk result (λ types. types.names ≡ spec.type_names (declared false (views items.now))) }
    ensures supertypes { IfOk result (λ types. types.supertypes.items ≡ spec.supertypes (declared false (views items.now))) }
    ensures faults { OnOk result (first.new ≡ first_of first.old (types_faults home (views items.now))) }
{
    let runs = type_runs(alloc, items, home, first)?;
    declared_types(alloc, &runs, first)
}
