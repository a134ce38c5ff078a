use crate::tables::Piece;
use d3d_state::LiveShader;
use dx_types::{CallNo, Refusal};

/// Where the token words of a shader stand in the input, in bytes.
#[derive(Clone, Copy, Debug, PartialEq, Eq)]
pub(crate) struct Words {
    pub(crate) start: u32,
    pub(crate) len: u32,
}

/// What is planned of a call. `shader` is the shader that it creates, if it creates one. `piece` says which ranges of the plan it
/// binds, and which calls of lists are those of the list that it finishes or executes.
#[derive(Drop)]
pub(crate) struct Entry {
    pub(crate) verdict: Option<Refusal>,
    pub(crate) last_use: Option<CallNo>,
    pub(crate) words: Option<Words>,
    pub(crate) shader: Option<LiveShader>,
    pub(crate) piece: Piece,
}
