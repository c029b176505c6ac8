use std::marker::Model;

/// Listed atoms that make up one variable of a translation; at most one of them is true in each reachable state.
#[derive(Debug, Drop)]
pub struct ListedVariable {
    /// The indices of the atoms in the list. They must be strictly increasing.
    pub places: Vec<usize>,
    /// Whether the variable has the none value, at which none of the atoms is true. It comes after those of the atoms.
    pub has_none: bool,
}

impl Model for ListedVariable {
    ghost use Rattle.translate_theory.specs.Variables.{PlacedVariable};

    ghost Value = { PlacedVariable };

    ghost view = { λ v. record { places = v.places.items; has_none = v.has_none } };
}
