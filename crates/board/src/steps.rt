//! How each step changes what its seat knows, and how views are split and joined.

ghost use Rattle.board.specs.Steps.{looks, offers, adds, subtracts, stays, finds_flag};
ghost use Rattle.board.specs.Rule.{kept_part, new_part, joined, spent_view};

use crate::views::View;
use atomic_table::{Join, Play, Split};

/// The step that reads the bound.
pub(crate) struct Looks;

impl Play<(), View> for Looks {
    ghost then = { looks };
}

/// The step that offers a cost.
pub(crate) struct Offers;

impl Play<(), View> for Offers {
    ghost then = { offers };
}

/// The step that adds units.
pub(crate) struct Adds;

impl Play<(), View> for Adds {
    ghost then = { adds };
}

/// The step that subtracts units.
pub(crate) struct Subtracts;

impl Play<(), View> for Subtracts {
    ghost then = { subtracts };
}

/// A step that changes nothing that the seat knows.
pub(crate) struct Stays;

impl Play<(), View> for Stays {
    ghost then = { stays };
}

/// The step that reads the flag.
pub(crate) struct FindsFlag;

impl Play<(), View> for FindsFlag {
    ghost then = { finds_flag };
}

/// How a view is split in two, and how two views are joined.
pub(crate) struct Halves;

impl Split<View> for Halves {
    ghost left = { kept_part };

    ghost right = { new_part };
}

impl Join<View> for Halves {
    ghost both = { joined };

    ghost spent = { spent_view };
}
