ghost use Rattle.std.specs.Prelude.{◌≡◌, [], ◌∷◌, List, IfOk, MatchOption};
ghost use Rattle.call_log.specs.Call.{Issued};
ghost use Rattle.core_model.specs.Succession.{Head, Log};
ghost use Rattle.log_script.specs.LogScript.{script_of};

use batch_make::Stream;
use d3d_state::Objects;
use d3d_views::Bindings;
use dx_types::CallNo;
use item_work::BufferBlocks;
use std::alloc::{AllocError, Global};
use std::collections::VecDeque;

/// What goes on from chunk to chunk: the objects that the next item meets, what was set before the list that is running,
/// the block of each live buffer, the numbers and barriers of commands, and the shaders whose modules are asked for.
#[derive(Drop)]
pub struct CsPart {
    objects: Objects<'static>,
    set_before: Option<Bindings>,
    blocks: BufferBlocks,
    stream: Stream,
    requests: VecDeque<CallNo>,
}

impl CsPart {
    ghost use Rattle.cs_exec.specs.Standing.{CsStands, requests_of};

    /// Before the first chunk of any log.
    pub fn new(alloc: Global) -> Result<CsPart, AllocError>
        ensures stands { IfOk result (λ cs. (calls : List Issued) (log : Log) → log.script ≡ script_of calls
            → CsStands calls log [] cs) }
        ensures requests { IfOk result (λ cs. requests_of cs ≡ []) }
    {
        let objects = Objects::new(alloc)?;
        let blocks = BufferBlocks::new(alloc);
        let stream = Stream::new(alloc);
        let requests = VecDeque::new(alloc);
        Ok(CsPart {
            objects,
            set_before: None,
            blocks,
            stream,
            requests,
        })
    }

    /// The next shader whose module is asked for, in the order of their creations; None where none is left.
    pub fn take_request(&mut self) -> Option<CallNo>
        ensures next { MatchOption result
            ((requests_of self.old ≡ []) × (requests_of self.new ≡ []))
            (λ shader. requests_of self.old ≡ shader ∷ requests_of self.new) }
        ensures stands { (calls : List Issued) (log : Log) (hs : List Head) → CsStands calls log hs self.old
            → CsStands calls log hs self.new }
    {
        self.requests.pop_front()
    }
}
