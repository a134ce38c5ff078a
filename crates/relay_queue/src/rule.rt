ghost use Rattle.std.specs.Prelude.{◌≡◌, [], ◌∷◌, ◌++◌};

use crate::message::{LogName, Numbered};
use crossbeam_queue::protocol::{Lesson, Outcome, Protocol, Split};
use std::collections::LinkedList;
use std::marker::PhantomData;

/// What a pass may do, what it sent and what it took. No value of it is made.
pub struct Track<M> {
    pub sends: bool,
    pub takes: bool,
    pub sent: LinkedList<M>,
    pub taken: LinkedList<M>,
}

/// The rule of a relay: what was sent succeeds one another, and what was taken is a front of it.
pub struct Succession<N, M>(PhantomData<(N, M)>);

impl<N: LogName, M: Numbered> Protocol<M, Track<M>> for Succession<N, M> {
    ghost use Rattle.std.specs.Prelude.{true, []};
    ghost use Rattle.relay_queue.specs.Succession.{InSuccession, track};

    ghost holds = { InSuccession N.log M.number_of M.first M.follows };

    ghost first = { track true true [] [] };
}

// One pass that sends and one that takes.
pub struct Roles;

impl<M> Split<Track<M>> for Roles {
    ghost use Rattle.std.specs.Prelude.{true, false, []};
    ghost use Rattle.relay_queue.specs.Succession.{track};

    ghost left = { λ v. track true false v.sent [] };

    ghost right = { λ v. track false true [] v.taken };
}

// What a push tells the pass that sends.
pub struct Sent<N, M>(PhantomData<(N, M)>);

impl<N: LogName, M: Numbered> Outcome<M, Track<M>> for Sent<N, M> {
    ghost use Rattle.relay_queue.specs.Succession.{track};

    ghost then = { λ v x w. w ≡ track v.sends v.takes (v.sent ++ x ∷ []) v.taken };
}

impl<N: LogName, M: Numbered> Lesson<M, Track<M>> for Sent<N, M> {
    ghost use Rattle.relay_queue.specs.Succession.{MayHold};

    ghost fact = { λ v items. MayHold N.log M.number_of M.first M.follows v items };
}

// What a pop tells the pass that takes.
pub struct Taken<N, M>(PhantomData<(N, M)>);

impl<N: LogName, M: Numbered> Outcome<M, Track<M>> for Taken<N, M> {
    ghost use Rattle.relay_queue.specs.Succession.{IsNext, track};

    ghost then = { λ v x w. (w ≡ track v.sends v.takes v.sent (v.taken ++ x ∷ [])) × IsNext N.log M.number_of M.first M.follows v.taken x };
}

impl<N: LogName, M: Numbered> Lesson<M, Track<M>> for Taken<N, M> {
    ghost use Rattle.relay_queue.specs.Succession.{MayHold};

    ghost fact = { λ v items. MayHold N.log M.number_of M.first M.follows v items };
}
