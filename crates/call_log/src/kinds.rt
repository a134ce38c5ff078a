//! The kinds of call: their numbers, and what the table says of each.

pub const BUFFER: u16 = 1;

pub const VIEW: u16 = 2;

pub const CREATE_SHADER: u16 = 3;

pub const QUERY: u16 = 4;

pub const DESTROY: u16 = 5;

pub const SET_SHADER: u16 = 16;

pub const SET_CONSTANT: u16 = 17;

pub const SET_SRV: u16 = 18;

pub const SET_UAV: u16 = 19;

pub const CLEAR_STATE: u16 = 20;

pub const DISPATCH: u16 = 32;

pub const DISPATCH_INDIRECT: u16 = 33;

pub const COPY_REGION: u16 = 34;

pub const COPY: u16 = 35;

pub const UPDATE: u16 = 36;

pub const CLEAR_UAV: u16 = 37;

pub const SET_PREDICATION: u16 = 38;

pub const BEGIN: u16 = 39;

pub const END_QUERY: u16 = 40;

pub const MAP_WRITE: u16 = 48;

pub const MAP_READ: u16 = 49;

pub const GET_DATA: u16 = 50;

pub const FLUSH: u16 = 51;

pub const FINISH_LIST: u16 = 52;

pub const EXECUTE_LIST: u16 = 53;

/// How long a body is.
#[derive(Clone, Copy, Debug, PartialEq, Eq)]
pub enum Layout {
    /// So many words.
    Words(u8),
    /// So many words, then a length and so many bytes.
    Counted(u8),
    /// A word, then whole words of a shader's tokens.
    Tokens,
    /// Any length.
    Free,
}

/// On which contexts a kind of call may stand.
#[derive(Clone, Copy, Debug, PartialEq, Eq)]
pub enum Place {
    /// On the immediate one, as a call of the device.
    OnDevice,
    /// On the immediate one alone.
    OnImmediate,
    /// On each.
    OnEach,
    /// On the deferred ones alone.
    OnDeferred,
}

/// What sort of call a kind is.
#[derive(Clone, Copy, Debug, PartialEq, Eq)]
pub enum Sort {
    /// Makes or destroys an object.
    Object,
    /// Changes the state of a context.
    Setting,
    /// Gives a context work.
    Command,
    /// Hands bytes over or asks for them, or hands over what was called so far.
    Exchange,
    /// Makes or runs a list of calls.
    List,
    /// Draws, which no part of this program does.
    Draw,
}

/// A kind of call: its number in a log, its name in a log's text, where it may stand, and its body.
#[derive(Clone, Copy, Debug)]
pub struct Kind {
    pub number: u16,
    pub name: &'static str,
    pub place: Place,
    pub layout: Layout,
    pub sort: Sort,
}
