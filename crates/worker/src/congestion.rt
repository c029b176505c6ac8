//! Flow control: a worker whose messages wait to be sent expands nothing.

ghost use Rattle.std.specs.Prelude.{◌≡◌, false, IfOk, IfErr};
ghost use Rattle.worker.specs.Turns.{ExpandsUnless, IsExpandRefusal, has_congested_link, is_congested, is_to_expand};

use crate::worker::Worker;
use owner::OwnerFault;
use packed::StateForm;
use packed_spread::Spread;

/// The number of messages that wait for one link from which on a worker expands nothing. They are sent in the order in
/// which they were posted, so a message of least f waits for as many others, while the worker would expand states of
/// greater f that only it has.
const LINK_CONGESTION: usize = 32;

/// The number of messages that wait for all links together from which on a worker expands nothing. It bounds the
/// messages of a worker with many links.
const CONGESTION: u128 = 1024;

impl<'a, S: Spread + Drop, F: StateForm + Drop> Worker<'a, S, F> {
    /// Returns whether many messages wait for some link.
    fn has_congested_link(&self) -> bool
        ensures { result ≡ has_congested_link self.now.owner.outboxes }
    {
        for to in 0..self.workers() {
            if self.owner.outbox_len(to) >= LINK_CONGESTION {
                return true;
            }
        }
        false
    }

    /// Returns whether its outboxes are congested: then its turns expand nothing.
    pub fn is_congested(&self) -> bool
        ensures { result ≡ is_congested self.now.owner.outboxes }
    {
        let messages = self.owner.messages();
        if messages < LINK_CONGESTION as u128 {
            return false; // no link has as many
        }
        messages >= CONGESTION || self.has_congested_link()
    }

    /// Returns whether its next turn expands a node unless the worker reads a lesser bound in it: its outboxes are not
    /// congested, and a node is open below the bound that it read last.
    pub fn is_to_expand(&self) -> bool
        ensures { result ≡ is_to_expand S.owner self.now }
    {
        !self.is_congested() && self.owner.least_open() < self.bound
    }

    /// Expands the next node as `expand` does, unless its outboxes are congested: then nothing changes.
    pub(crate) fn expand_unless_congested(&mut self) -> Result<Option<usize>, OwnerFault>
        requires { self.old.uncounted ≡ 0 }
        ensures expanded { IfOk result (λ posted. ExpandsUnless S.owner self.old self.new posted (is_congested self.old.owner.outboxes)) }
        ensures refused { IfErr result (λ fault. (is_congested self.old.owner.outboxes ≡ false) × IsExpandRefusal S.owner self.old self.new fault) }
    {
        if self.is_congested() {
            return Ok(None);
        }
        self.expand()
    }
}
