//! Lists of typed variables.

ghost use Rattle.std.specs.Prelude.{◌≡◌, ◌++◌, ◌∷◌, [], ℕ, List, Option, map, length, IfOk, OnOk, false};
ghost use Rattle.std.specs.String.{string_bytes};
ghost use Rattle.sexp.specs.Forms.{views};
ghost use Rattle.pddl_names.specs.Names.{with_name, is_there};
ghost use Rattle.pddl_syntax.specs.Faults.{first_of};
ghost use Rattle.pddl_syntax.specs.Typed.{Declared, spread_run, spread, with_type, parent_text};
ghost use Rattle.pddl_syntax.specs.Parameters.{names_with, type_number, run_type, variable_faults, parameters_faults, parameter_names, parameter_types};

use crate::fault::{Fault, FaultKind, LimitedTable, blame_if};
use crate::typed::{Named, Run, Types, typed_list};
use pddl_names::Names;
use sexp::Tree;
use std::alloc::{AllocError, Global};

/// The greatest number of arguments of a predicate, a function or a schema.
const MAX_ARGUMENTS: usize = 16;

/// The parameters of an action, a predicate or a function.
#[derive(Debug, Drop)]
pub struct Parameters {
    /// The variables, without repetitions.
    pub names: Names,
    /// The type number of each variable that the text declares, including repeated variables.
    pub types: Vec<usize>,
}

/// Returns the number of a run's type, or that of `object` if the type cannot be read.
fn run_type(run: &Run, types: &Types) -> usize
    ensures { result ≡ run_type types.now.names run.now }
{
    match &run.parent {
        Some(parent) => types.names.number_of(parent.as_str()),
        None => 0,
    }
}

impl Parameters {
    /// Adds a variable and its type, and records a fault if the variable is declared already or is past the limit.
    #[tactic(auto, unfolding(crate::specs::Faults::first_of))]
    fn declare(
        &mut self,
        alloc: Global,
        named: &Named,
        type_number: usize,
        first: &mut Option<Fault>,
    ) -> Result<(), AllocError>
        ensures names { OnOk result (self.new.names ≡ with_name self.old.names (string_bytes named.now.name)) }
        ensures types { OnOk result (self.new.types.items ≡ self.old.types.items ++ type_number ∷ []) }
        ensures faults { OnOk result ((p : Option (List ℕ)) (rest : List Declared) →
            first_of first.old (variable_faults self.old.names (length self.old.types.items) (with_type p named.now ∷ rest))
            ≡ first_of first.new (variable_faults self.new.names (length self.new.types.items) rest)) }
    {
        let name = named.name.as_str();
        blame_if(
            self.names.contains(name),
            first,
            named.at,
            FaultKind::TwiceDeclared,
        );
        blame_if(
            self.types.len() >= MAX_ARGUMENTS,
            first,
            named.at,
            FaultKind::Limit(LimitedTable::Arguments),
        );
        self.names.add(alloc, name)?;
        self.types.push(type_number)?;
        Ok(())
    }

    /// Adds the variables of a run, which all have the type `type_number`.
    fn declare_run(
        &mut self,
        alloc: Global,
        run: &Run,
        type_number: usize,
        first: &mut Option<Fault>,
    ) -> Result<(), AllocError>
        ensures names { OnOk result (self.new.names ≡ names_with self.old.names (spread_run run.now)) }
        ensures types { OnOk result (self.new.types.items ≡ self.old.types.items ++ map (λ d. type_number) (spread_run run.now)) }
        ensures faults { OnOk result ((rest : List Declared) →
            first_of first.old (variable_faults self.old.names (length self.old.types.items) (spread_run run.now ++ rest))
            ≡ first_of first.new (variable_faults self.new.names (length self.new.types.items) rest)) }
    {
        for named in &run.names {
            self.declare(alloc, named, type_number, first)?;
        }
        Ok(())
    }
}

/// Returns the parameters that the runs declare, and records their faults in `first`.
#[tactic(auto, unfolding(crate::specs::Faults::first_of))]
fn declared(
    alloc: Global,
    runs: &[Run],
    types: &Types,
    first: &mut Option<Fault>,
) -> Result<Parameters, AllocError>
    ensures names { IfOk result (λ p. p.names ≡ names_with [] (spread runs.now)) }
    ensures types { IfOk result (λ p. p.types.items ≡ map (type_number types.now.names) (spread runs.now)) }
    ensures faults { OnOk result (first.new ≡ first_of first.old (variable_faults [] 0 (spread runs.now))) }
{
    let mut parameters = Parameters {
        names: Names::new(alloc),
        types: Vec::new(alloc),
    };
    for run in runs {
        parameters.declare_run(alloc, run, run_type(run, types), first)?;
    }
    Ok(parameters)
}

/// Reads the typed variables of the list at `home` and records their faults in `first`.
pub fn parameters_list(
    alloc: Global,
    items: &[Tree],
    types: &Types,
    home: usize,
    first: &mut Option<Fault>,
) -> Result<Parameters, AllocError>
    ensures names { IfOk result (λ p. p.names ≡ parameter_names (views items.now)) }
    ensures types { IfOk result (λ p. p.types.items ≡ parameter_types types.now.names (views items.now)) }
    ensures faults { OnOk result (first.new ≡ first_of first.old (parameters_faults (is_there types.now.names) home (views items.now))) }
{
    let runs = typed_list(alloc, items, true, false, types, home, first)?;
    declared(alloc, &runs, types, first)
}
