//! The numbers by which a call says a mode, a class, a sort, a kind or a form, each once, with what they say.

ghost use Rattle.std.specs.Prelude.{◌≡◌, ◌||◌, nat_lt, is_none, IfSome};
ghost use Rattle.d3d_model.specs.Codes.{class_number, map_mode_number, predicate_kind_number};

/// The usage that the device reads and writes (Direct3D 11.3, D3D11_USAGE).
pub const DEFAULT_USAGE: u32 = 0;
/// The usage that is never written.
pub const IMMUTABLE_USAGE: u32 = 1;
/// The usage that the device reads and the program writes.
pub const DYNAMIC_USAGE: u32 = 2;
/// The usage that the program reads back. The last usage.
pub const STAGING_USAGE: u32 = 3;

/// The map that discards what a dynamic buffer holds (Direct3D 11.3, D3D11_MAP_WRITE_DISCARD).
pub const MAP_DISCARD: u32 = 0;
/// The map that overwrites no byte that is in use (D3D11_MAP_WRITE_NO_OVERWRITE).
pub const MAP_NO_OVERWRITE: u32 = 1;
/// The map that writes a staging buffer (D3D11_MAP_WRITE). The last mode.
pub const MAP_WRITE: u32 = 2;

/// The flag of a readback, or of a question for a query's result, that does not wait. The last flag.
pub const DO_NOT_WAIT: u32 = 1;
/// The flag of a list's execution after which what was set before is set again. The last flag.
pub const RESTORE_STATE: u32 = 1;

/// The bytes of the three counts of an indirect dispatch.
pub const COUNT_BYTES: u64 = 12;

/// The class of buffers, as a destruction names it.
pub const BUFFER_CLASS: u32 = 1;
/// The class of views.
pub const VIEW_CLASS: u32 = 2;
/// The class of shaders.
pub const SHADER_CLASS: u32 = 3;
/// The class of queries.
pub const QUERY_CLASS: u32 = 4;
/// The class of command lists. The last class.
pub const LIST_CLASS: u32 = 5;

/// The sort of query that says that the calls before it are done (Direct3D 11.3, D3D11_QUERY_EVENT).
pub const EVENT_QUERY: u32 = 0;
/// The sort that counts samples (D3D11_QUERY_OCCLUSION).
pub const OCCLUSION_QUERY: u32 = 1;
/// The sort that counts invocations (D3D11_QUERY_PIPELINE_STATISTICS).
pub const STATISTICS_QUERY: u32 = 2;
/// The sort that predication may ask (D3D11_QUERY_OCCLUSION_PREDICATE). The last sort.
pub const PREDICATE_QUERY: u32 = 3;

/// The kind of predicate that skips no call.
pub const NO_PREDICATE: u32 = 0;
/// The kind of predicate that asks a query.
pub const QUERY_PREDICATE: u32 = 1;
/// The kind of predicate that reads a word of a buffer. The last kind.
pub const WORD_PREDICATE: u32 = 2;

/// The kind of view that a shader reads by.
pub const READ_VIEW: u32 = 0;
/// The kind of view that a shader writes by. The last kind.
pub const WRITE_VIEW: u32 = 1;

/// The form of a view by words.
pub const RAW_FORM: u32 = 0;
/// The form of a view by structures.
pub const STRUCTURED_FORM: u32 = 1;
/// The form of a view by typed elements. The last form.
pub const TYPED_FORM: u32 = 2;

/// How a map for writing treats what its buffer holds: D3D11_MAP.
#[derive(Clone, Copy, Debug, PartialEq, Eq)]
pub enum MapMode {
    Discard,
    NoOverwrite,
    Write,
}

impl MapMode {
    /// The mode of a number, if it has one.
    pub fn from_number(number: u32) -> Option<MapMode>
        ensures known { IfSome result (λ mode. number ≡ map_mode_number mode) }
        ensures unknown { is_none result ≡ nat_lt MAP_WRITE number }
    {
        match number {
            MAP_DISCARD => Some(MapMode::Discard),
            MAP_NO_OVERWRITE => Some(MapMode::NoOverwrite),
            MAP_WRITE => Some(MapMode::Write),
            _ => None,
        }
    }
}

/// A class of objects, each of which has its ids.
#[derive(Clone, Copy, Debug, PartialEq, Eq)]
pub enum ObjectClass {
    Buffer,
    View,
    Shader,
    Query,
    List,
}

impl ObjectClass {
    /// The class of a number, if it has one.
    pub fn from_number(number: u32) -> Option<ObjectClass>
        ensures known { IfSome result (λ class. number ≡ class_number class) }
        ensures unknown { is_none result ≡ (nat_lt number BUFFER_CLASS || nat_lt LIST_CLASS number) }
    {
        match number {
            BUFFER_CLASS => Some(ObjectClass::Buffer),
            VIEW_CLASS => Some(ObjectClass::View),
            SHADER_CLASS => Some(ObjectClass::Shader),
            QUERY_CLASS => Some(ObjectClass::Query),
            LIST_CLASS => Some(ObjectClass::List),
            _ => None,
        }
    }
}

/// What a predicate asks: nothing, a query, or a word of a buffer.
#[derive(Clone, Copy, Debug, PartialEq, Eq)]
pub enum PredicateKind {
    Never,
    Query,
    Word,
}

impl PredicateKind {
    /// The kind of a number, if it has one.
    pub fn from_number(number: u32) -> Option<PredicateKind>
        ensures known { IfSome result (λ kind. number ≡ predicate_kind_number kind) }
        ensures unknown { is_none result ≡ nat_lt WORD_PREDICATE number }
    {
        match number {
            NO_PREDICATE => Some(PredicateKind::Never),
            QUERY_PREDICATE => Some(PredicateKind::Query),
            WORD_PREDICATE => Some(PredicateKind::Word),
            _ => None,
        }
    }
}
