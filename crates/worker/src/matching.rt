//! Counts of the messages in a link, from both of its ends, while no other thread has one of them.

ghost use Rattle.std.specs.Prelude.{◌≡◌, ◌<◌, length};
ghost use Rattle.worker.specs.Matching.{AreLinked, IsMatchedUp};

use crate::worker::Worker;
use links::{In, Out, match_up};
use packed::StateForm;
use packed_spread::Spread;

/// Returns the number of messages in the ring of a link, given the rows of its two ends.
fn match_in_rows<F: StateForm + Drop>(
    outs: &mut Vec<Out<F>>,
    to: usize,
    ins: &mut Vec<In<F>>,
    from: usize,
) -> usize
    requires to { to < length outs.old.items }
    requires from { from < length ins.old.items }
    requires linked { AreLinked outs.old.items to ins.old.items from }
    ensures { IsMatchedUp to from outs.old.items outs.new.items ins.old.items ins.new.items result }
{
    match_up(&mut outs[to], &mut ins[from])
}

impl<'a, S: Spread + Drop, F: StateForm + Drop> Worker<'a, S, F> {
    /// Returns the number of messages in the ring of the link from this worker to another one. The other worker's next
    /// calls of `receive` find them, a message each.
    pub fn match_link(&mut self, receiver: &mut Worker<'a, S, F>) -> usize
        requires to { receiver.old.owner.worker < length self.old.outs }
        requires from { self.old.owner.worker < length receiver.old.ins }
        requires linked { AreLinked self.old.outs receiver.old.owner.worker receiver.old.ins self.old.owner.worker }
        ensures matched { IsMatchedUp receiver.old.owner.worker self.old.owner.worker self.old.outs self.new.outs receiver.old.ins receiver.new.ins result }
        ensures sender { self.new ≡ record self.old { outs = self.new.outs } }
        ensures receiver { receiver.new ≡ record receiver.old { ins = receiver.new.ins } }
    {
        match_in_rows(
            &mut self.outs,
            receiver.number,
            &mut receiver.ins,
            self.number,
        )
    }

    /// Returns the number of messages in the ring of the link from this worker to itself.
    pub fn match_own_link(&mut self) -> usize
        requires within { self.old.owner.worker < length self.old.outs }
        requires linked { AreLinked self.old.outs self.old.owner.worker self.old.ins self.old.owner.worker }
        ensures matched { IsMatchedUp self.old.owner.worker self.old.owner.worker self.old.outs self.new.outs self.old.ins self.new.ins result }
        ensures worker { self.new ≡ record self.old { outs = self.new.outs; ins = self.new.ins } }
    {
        match_in_rows(&mut self.outs, self.number, &mut self.ins, self.number)
    }
}
