//! Messages underway.

ghost use Rattle.std.specs.Prelude.{◌≡◌};

use owner::Message;
use packed::StateForm;

/// A message underway.
#[derive(Drop)]
pub struct Packet<F: StateForm + Drop> {
    /// The worker that sent it.
    pub sender: usize,
    /// The message.
    pub message: Message<F>,
}
