//! Translated tasks.

ghost use Rattle.std.specs.Prelude.{◌≡◌, ◌↔◌, ◌≤◌, None, length, slice_get};

use fdr::FdrTask;
use ground_atoms::Atoms;
use std::marker::Model;
use translate_theory::ListedVariable;

/// A finite-domain task with the atoms and the variables that it is over, and for each operator the index of its action
/// among the ground actions over the atoms.
#[derive(Drop)]
pub struct Translated {
    pub(crate) atoms: Atoms,
    pub(crate) variables: Vec<ListedVariable>,
    pub(crate) task: FdrTask,
    pub(crate) places: Vec<usize>,
}

impl Model for Translated {
    ghost use Rattle.std.specs.Prelude.{◌≡◌, length};
    ghost use Rattle.translate.specs.Translated.{TranslatedTask};

    ghost Value = { TranslatedTask };

    ghost view = { λ t. record { atoms = t.atoms; variables = t.variables.items; task = t.task; places = t.places.items } };

    ghost invariant = { λ t. length t.places.items ≡ length t.task.operators };
}

impl Translated {
    /// Returns the listed atoms, in the order of their indices.
    pub fn atoms(&self) -> &Atoms
        ensures { result.now ≡ self.now.atoms }
    {
        &self.atoms
    }

    /// Returns the variables over the atoms, by their numbers in the task.
    pub fn variables(&self) -> &[ListedVariable]
        ensures { result.now ≡ self.now.variables }
    {
        &self.variables
    }

    /// Returns the finite-domain task.
    pub fn task(&self) -> &FdrTask
        ensures { result.now ≡ self.now.task }
    {
        &self.task
    }

    /// Returns the index of the operator's action among the ground actions over the atoms, or `None` if there is no
    /// such operator.
    pub fn action_of(&self, operator: usize) -> Option<usize>
        ensures place { result ≡ slice_get self.now.places operator }
        ensures none { result ≡ None ↔ length self.now.task.operators ≤ operator }
    {
        self.places.get(operator).copied()
    }
}
