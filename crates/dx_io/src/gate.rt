/// A stage of a part that runs in a thread of its own, with what its numbers are of.
#[derive(Clone, Copy, Debug, PartialEq, Eq)]
pub enum GateStage {
    /// Before a chunk is handed over: the chunk's number.
    Record,
    /// After a chunk is taken: the chunk's number.
    Stream,
    /// Before the module of a shader is set: the call that created the shader.
    Emit,
    /// After the module of a shader is set: the call that created the shader.
    Stored,
    /// Before a submission is pushed: the chunk's number.
    Submit,
    /// Before a command runs: the command's number.
    Device,
    /// Before the post of a chunk is pushed: the chunk's number.
    Finish,
}

/// What the parts of a run with threads call as they reach a stage, each from its own thread. It may hold its caller up,
/// and can so force an order among threads. It tells nothing back.
pub trait Gate {
    fn at(&self, stage: GateStage, number: u64);
}

/// Lets every part pass at once.
#[derive(Clone, Copy, Debug, PartialEq, Eq)]
pub struct NoGate;

impl NoGate {
    pub fn new() -> NoGate {
        NoGate
    }
}

impl Gate for NoGate {
    fn at(&self, _: GateStage, _: u64) {}
}
