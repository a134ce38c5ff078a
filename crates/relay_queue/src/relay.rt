ghost use Rattle.std.specs.Prelude.{◌≡◌, ◌<◌, ◌^◌, [], ◌∷◌, ◌++◌, IfOk, IfErr, IfSome, IfNone, OnOk, OnErr};
ghost use Rattle.crossbeam_queue.specs.Fifo.{Held};
ghost use Rattle.relay_queue.specs.Succession.{IsNext, MayHoldOfSent, MayHoldPastTaken};

use crate::message::{LogName, Numbered};
use crate::rule::{Roles, Sent, Succession, Taken, Track};
use crossbeam_queue::{Pass, RuledArrayQueue};
use std::alloc::{AllocError, Global};
use std::marker::{Model, PhantomData};
use std::sync::Wait;

/// A bounded queue of messages, for one pass that sends and one that takes.
pub struct Relay<N: LogName, M: Numbered> {
    queue: RuledArrayQueue<M, Track<M>, Succession<N, M>>,
}

impl<N: LogName, M: Numbered> Model for Relay<N, M> {
    ghost use Rattle.relay_queue.specs.Ends.{Line};
    ghost use Rattle.crossbeam_queue.specs.Passes.{ruled_capacity};

    ghost Value = { Line };

    ghost view = { λ r. record { queue = r.queue.table.shared.table_id; places = ruled_capacity r.queue } };
}

impl<N: LogName, M: Numbered + Drop> Drop for Relay<N, M> {
    fn drop(self) {
        let Relay { queue: _ } = self;
    }
}

/// The one pass that sends.
pub struct Sending<N, M> {
    pass: Pass<M, Track<M>>,
    of: PhantomData<N>,
}

impl<N, M> Model for Sending<N, M> {
    ghost use Rattle.std.specs.Prelude.{◌≡◌, true, false, []};
    ghost use Rattle.crossbeam_queue.specs.Passes.{view as known};
    ghost use Rattle.relay_queue.specs.Succession.{track};
    ghost use Rattle.relay_queue.specs.Ends.{End};

    ghost Value = { End M };

    ghost view = { λ s. record { queue = s.pass.table_id; messages = (known s.pass).sent } };

    ghost invariant = { λ s. (s.pass.me.1 ≡ []) × (known s.pass ≡ track true false (known s.pass).sent []) };
}

impl<N, M> Drop for Sending<N, M> {
    fn drop(self) {
        let Sending { pass: _, of: _ } = self;
    }
}

/// The one pass that takes.
pub struct Taking<N, M> {
    pass: Pass<M, Track<M>>,
    of: PhantomData<N>,
}

impl<N, M> Model for Taking<N, M> {
    ghost use Rattle.std.specs.Prelude.{◌≡◌, true, false, []};
    ghost use Rattle.crossbeam_queue.specs.Passes.{view as known};
    ghost use Rattle.relay_queue.specs.Succession.{track};
    ghost use Rattle.relay_queue.specs.Ends.{End};

    ghost Value = { End M };

    ghost view = { λ s. record { queue = s.pass.table_id; messages = (known s.pass).taken } };

    ghost invariant = { λ s. (s.pass.me.1 ≡ []) × (known s.pass ≡ track false true [] (known s.pass).taken) };
}

impl<N, M> Drop for Taking<N, M> {
    fn drop(self) {
        let Taking { pass: _, of: _ } = self;
    }
}

impl<N: LogName, M: Numbered> Relay<N, M> {
    /// An empty queue of so many places, with its two passes.
    pub fn new(
        alloc: Global,
        places: usize,
    ) -> Result<(Relay<N, M>, Sending<N, M>, Taking<N, M>), AllocError>
        requires { 0 < places }
        ensures places { IfOk result (λ r. r.0.places ≡ places) }
        ensures sends { IfOk result (λ r. r.1 ≡ record { queue = r.0.queue; messages = [] }) }
        ensures takes { IfOk result (λ r. r.2 ≡ record { queue = r.0.queue; messages = [] }) }
    {
        let (queue, mut writer) = RuledArrayQueue::ruled(alloc, places)?;
        let reader = queue.another::<Roles>(&mut writer);
        Ok((
            Relay { queue },
            Sending {
                pass: writer,
                of: PhantomData,
            },
            Taking {
                pass: reader,
                of: PhantomData,
            },
        ))
    }

    /// Sends the message, which is the next one and follows those that this pass sent. It comes back only where the queue was full at a moment of this call.
    pub fn push<R: Wait>(&self, rt: &R, pass: &mut Sending<N, M>, m: M) -> Result<(), M>
        requires queue { pass.old.queue ≡ self.now.queue }
        requires next { IsNext N.log M.number_of M.first M.follows pass.old.messages m }
        requires number { M.number_of m < 2 ^ 62 }
        ensures queue { pass.new.queue ≡ pass.old.queue }
        ensures sent { OnOk result (pass.new.messages ≡ pass.old.messages ++ m ∷ []) }
        ensures back { IfErr result (λ x. x ≡ m) }
        ensures kept { OnErr result (pass.new.messages ≡ pass.old.messages) }
        ensures full { OnErr result (Held self.now.places (MayHoldOfSent N.log M.number_of M.first M.follows pass.old.messages)) }
    {
        self.queue.push_as::<Sent<N, M>, R>(rt, &mut pass.pass, m)
    }

    /// Takes the next message, which follows those that this pass took. `None` comes only where the queue was empty at a moment of this call.
    pub fn pop<R: Wait>(&self, rt: &R, pass: &mut Taking<N, M>) -> Option<M>
        requires queue { pass.old.queue ≡ self.now.queue }
        ensures queue { pass.new.queue ≡ pass.old.queue }
        ensures taken { IfSome result (λ m. pass.new.messages ≡ pass.old.messages ++ m ∷ []) }
        ensures next { IfSome result (λ m. IsNext N.log M.number_of M.first M.follows pass.old.messages m) }
        ensures kept { IfNone result (pass.new.messages ≡ pass.old.messages) }
        ensures empty { IfNone result (Held 0 (MayHoldPastTaken N.log M.number_of M.first M.follows pass.old.messages)) }
    {
        self.queue.pop_as::<Taken<N, M>, R>(rt, &mut pass.pass)
    }
}
