//! A domain: its declarations and its actions.

ghost use Rattle.std.specs.Prelude.{◌≡◌, [], None, map, codes, true, IfErr, OnOk};
ghost use Rattle.sexp.specs.Forms.{alone};
ghost use Rattle.pddl_names.specs.Names.{is_there};
ghost use Rattle.pddl_syntax.specs.declared.fault.PlanningFile.TheVariants.{Domain as DomainFile};
ghost use Rattle.pddl_syntax.specs.Faults.{first_of};
ghost use Rattle.pddl_syntax.specs.Heads.{no_heads};
ghost use Rattle.pddl_syntax.specs.Sections.{requirement_faults};
ghost use Rattle.pddl_domain.specs.Types.{types_faults};
ghost use Rattle.pddl_domain.specs.Objects.{no_objects, objects_faults};
ghost use Rattle.pddl_domain.specs.DeclaredHeads.{predicates_faults, functions_faults};
ghost use Rattle.pddl_action.specs.Actions as meaning;
ghost use Rattle.pddl.specs.Texts as spec;
ghost use Rattle.pddl.specs.Texts.{inside_of, place_in, pass};
ghost use Rattle.pddl.specs.Passes.{Fails, AllFail, first_pass};

use crate::fault::PddlFault;
use crate::parts::{heads_pass, judge, part_of};
use pddl_action::{Actions, Declarations, read_actions};
use pddl_domain::{Objects, functions_section, objects_section, predicates_section, types_section};
use pddl_names::Names;
use pddl_syntax::{
    Fault, Heads, PlanningFile, Types, all_sections, requirements_section, sections_of,
};
use sexp::Tree;
use std::alloc::{AllocError, Global};

/// The declarations, constants and actions of a domain.
#[derive(Drop)]
pub struct Domain {
    pub declarations: Declarations,
    /// The constants, to which the objects of a problem are added.
    pub objects: Objects,
    pub actions: Actions,
}

impl Domain {
    /// Returns an empty domain, before its text is read.
    pub fn new(alloc: Global) -> Domain
        ensures { result.objects ≡ no_objects }
    {
        Domain {
            declarations: Declarations {
                types: Types {
                    names: Names::new(alloc),
                    supertypes: Vec::new(alloc),
                },
                predicates: Heads::new(alloc),
                functions: Heads::new(alloc),
                objects: Names::new(alloc),
            },
            objects: Objects::new(alloc),
            actions: Actions {
                schemas: Vec::new(alloc),
                names: Names::new(alloc),
                places: Vec::new(alloc),
            },
        }
    }
}

fn requirements_pass(root: &Tree) -> Result<(), PddlFault>
    ensures clean { OnOk result (first_of None (requirement_faults (inside_of (alone root.now) (codes ":requirements"))) ≡ None) }
    ensures fault { IfErr result (λ e. Fails e (pass DomainFile (requirement_faults (inside_of (alone root.now) (codes ":requirements"))))) }
{
    let mut first = None;
    requirements_section(part_of(root, ":requirements").items, &mut first);
    judge(PlanningFile::Domain, first)
}

fn read_types(
    alloc: Global,
    root: &Tree,
    types: &mut Types,
    first: &mut Option<Fault>,
) -> Result<(), AllocError>
    ensures names { OnOk result (types.new.names ≡ spec.types_of (alone root.now)) }
    ensures supertypes { OnOk result (types.new.supertypes.items ≡ spec.supertypes_of (alone root.now)) }
    ensures faults { OnOk result (first.new
        ≡ first_of first.old (types_faults (place_in (alone root.now) (codes ":types")) (inside_of (alone root.now) (codes ":types")))) }
{
    let section = part_of(root, ":types");
    *types = types_section(alloc, section.items, section.at, first)?;
    Ok(())
}

fn types_pass(alloc: Global, root: &Tree, types: &mut Types) -> Result<(), PddlFault>
    ensures names { OnOk result (types.new.names ≡ spec.types_of (alone root.now)) }
    ensures supertypes { OnOk result (types.new.supertypes.items ≡ spec.supertypes_of (alone root.now)) }
    ensures clean { OnOk result
        (first_of None (types_faults (place_in (alone root.now) (codes ":types")) (inside_of (alone root.now) (codes ":types"))) ≡ None) }
    ensures fault { IfErr result
        (λ e. Fails e (pass DomainFile (types_faults (place_in (alone root.now) (codes ":types")) (inside_of (alone root.now) (codes ":types"))))) }
{
    let mut first = None;
    read_types(alloc, root, types, &mut first)?;
    judge(PlanningFile::Domain, first)
}

fn constants_pass(
    alloc: Global,
    root: &Tree,
    types: &Types,
    objects: &mut Objects,
) -> Result<(), PddlFault>
    requires known { types.now.names ≡ spec.types_of (alone root.now) }
    requires none { objects.old ≡ no_objects }
    ensures objects { OnOk result (objects.new ≡ spec.constants_of (alone root.now)) }
    ensures clean { OnOk result
        (first_of None (objects_faults (spec.types_of (alone root.now)) no_objects
        (place_in (alone root.now) (codes ":constants")) (inside_of (alone root.now) (codes ":constants"))) ≡ None) }
    ensures fault { IfErr result
        (λ e. Fails e (pass DomainFile (objects_faults (spec.types_of (alone root.now)) no_objects
        (place_in (alone root.now) (codes ":constants")) (inside_of (alone root.now) (codes ":constants"))))) }
{
    let mut first = None;
    let section = part_of(root, ":constants");
    objects_section(alloc, section.items, types, section.at, objects, &mut first)?;
    judge(PlanningFile::Domain, first)
}

fn predicates_pass(
    alloc: Global,
    root: &Tree,
    types: &Types,
    heads: &mut Heads,
) -> Result<(), PddlFault>
    requires { types.now.names ≡ spec.types_of (alone root.now) }
    ensures heads { OnOk result (heads.new ≡ spec.predicates_of (alone root.now)) }
    ensures clean { OnOk result
        (first_of None (predicates_faults (is_there (spec.types_of (alone root.now))) no_heads 0 (inside_of (alone root.now) (codes ":predicates"))) ≡ None) }
    ensures fault { IfErr result
        (λ e. Fails e (pass DomainFile
        (predicates_faults (is_there (spec.types_of (alone root.now))) no_heads 0 (inside_of (alone root.now) (codes ":predicates"))))) }
{
    let mut first = None;
    let section = part_of(root, ":predicates");
    *heads = predicates_section(alloc, section.items, types, &mut first)?;
    judge(PlanningFile::Domain, first)
}

fn functions_pass(
    alloc: Global,
    root: &Tree,
    types: &Types,
    heads: &mut Heads,
) -> Result<(), PddlFault>
    requires { types.now.names ≡ spec.types_of (alone root.now) }
    ensures heads { OnOk result (heads.new ≡ spec.functions_of (alone root.now)) }
    ensures clean { OnOk result
        (first_of None (functions_faults (is_there (spec.types_of (alone root.now))) (place_in (alone root.now) (codes ":functions"))
        true no_heads 0 (inside_of (alone root.now) (codes ":functions"))) ≡ None) }
    ensures fault { IfErr result
        (λ e. Fails e (pass DomainFile (functions_faults (is_there (spec.types_of (alone root.now)))
        (place_in (alone root.now) (codes ":functions")) true no_heads 0 (inside_of (alone root.now) (codes ":functions"))))) }
{
    let mut first = None;
    let section = part_of(root, ":functions");
    *heads = functions_section(alloc, section.items, types, section.at, &mut first)?;
    judge(PlanningFile::Domain, first)
}

fn read_all_actions(
    alloc: Global,
    root: &Tree,
    declarations: &Declarations,
    actions: &mut Actions,
    first: &mut Option<Fault>,
) -> Result<(), AllocError>
    ensures schemas { OnOk result (actions.new.schemas.items ≡ map (meaning.schema_of declarations.now) (spec.actions_of (alone root.now))) }
    ensures names { OnOk result (actions.new.names ≡ meaning.names_with [] (spec.actions_of (alone root.now))) }
    ensures places { OnOk result (actions.new.places.items ≡ map meaning.place_of (spec.actions_of (alone root.now))) }
    ensures faults { OnOk result (first.new ≡ first_of first.old (meaning.actions_faults declarations.now (spec.actions_of (alone root.now)))) }
{
    let sections = all_sections(alloc, sections_of(root), ":action")?;
    *actions = read_actions(alloc, declarations, &sections, first)?;
    Ok(())
}

fn actions_pass(
    alloc: Global,
    root: &Tree,
    declarations: &Declarations,
    actions: &mut Actions,
) -> Result<(), PddlFault>
    requires { declarations.now ≡ spec.declarations_of (alone root.now) }
    ensures schemas { OnOk result (actions.new.schemas.items ≡ spec.schemas_of (alone root.now)) }
    ensures names { OnOk result (actions.new.names ≡ spec.schema_names_of (alone root.now)) }
    ensures places { OnOk result (actions.new.places.items ≡ spec.places_of (alone root.now)) }
    ensures clean { OnOk result (first_of None (meaning.actions_faults (spec.declarations_of (alone root.now)) (spec.actions_of (alone root.now))) ≡ None) }
    ensures fault { IfErr result
        (λ e. Fails e (pass DomainFile (meaning.actions_faults (spec.declarations_of (alone root.now)) (spec.actions_of (alone root.now))))) }
{
    let mut first = None;
    read_all_actions(alloc, root, declarations, actions, &mut first)?;
    judge(PlanningFile::Domain, first)
}

fn declared_pass(alloc: Global, root: &Tree, domain: &mut Domain) -> Result<(), PddlFault>
    requires { domain.old.objects ≡ no_objects }
    ensures declarations { OnOk result (domain.new.declarations ≡ spec.declarations_of (alone root.now)) }
    ensures objects { OnOk result (domain.new.objects ≡ spec.constants_of (alone root.now)) }
    ensures clean { OnOk result (first_pass (spec.declaring_passes (alone root.now)) ≡ None) }
    ensures fault { IfErr result (λ e. AllFail e (spec.declaring_passes (alone root.now))) }
{
    heads_pass(alloc, PlanningFile::Domain, root)?;
    requirements_pass(root)?;
    let declarations = &mut domain.declarations;
    types_pass(alloc, root, &mut declarations.types)?;
    constants_pass(alloc, root, &declarations.types, &mut domain.objects)?;
    predicates_pass(
        alloc,
        root,
        &declarations.types,
        &mut declarations.predicates,
    )?;
    functions_pass(
        alloc,
        root,
        &declarations.types,
        &mut declarations.functions,
    )?;
    declarations.objects = domain.objects.names().try_clone()?;
    Ok(())
}

/// Reads a domain from its tree into `domain`, which must be empty. Fails with the first fault of the first pass that
/// has one, or if allocation fails; after a failure `domain` can only be dropped.
pub fn read_domain(alloc: Global, root: &Tree, domain: &mut Domain) -> Result<(), PddlFault>
    requires { domain.old.objects ≡ no_objects }
    ensures declarations { OnOk result (domain.new.declarations ≡ spec.declarations_of (alone root.now)) }
    ensures objects { OnOk result (domain.new.objects ≡ spec.constants_of (alone root.now)) }
    ensures schemas { OnOk result (domain.new.actions.schemas.items ≡ spec.schemas_of (alone root.now)) }
    ensures names { OnOk result (domain.new.actions.names ≡ spec.schema_names_of (alone root.now)) }
    ensures places { OnOk result (domain.new.actions.places.items ≡ spec.places_of (alone root.now)) }
    ensures clean { OnOk result (first_pass (spec.domain_passes (alone root.now)) ≡ None) }
    ensures fault { IfErr result (λ e. AllFail e (spec.domain_passes (alone root.now))) }
{
    declared_pass(alloc, root, domain)?;
    actions_pass(alloc, root, &domain.declarations, &mut domain.actions)
}
