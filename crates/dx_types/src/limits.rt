//! The limits of the player, each once, with the flags and numbers of Direct3D that more than one part reads.

/// The most bytes of a log.
pub const MAX_INPUT: u64 = 67_108_864;
/// The greatest id of each class of objects. The least is 1; 0 names none.
pub const MAX_ID: u32 = 65_535;
/// The deferred contexts, 1 to this one. Context 0 is the immediate one.
pub const DEFERRED_CONTEXTS: u16 = 16;
/// The most bytes of a listing that is audited.
pub const MAX_LISTING: u64 = 134_217_728;
/// The most rounds of a generated log.
pub const MAX_ROUNDS: u32 = 100_000;
/// The most calls of a command list.
pub const MAX_LIST_CALLS: usize = 65_536;

/// The most bytes of a buffer.
pub const MAX_BUFFER_SIZE: u64 = 16_777_216;
/// The most words of a buffer.
pub const MAX_BUFFER_WORDS: usize = 4_194_304;
/// The most bytes of a dynamic buffer.
pub const MAX_DYNAMIC_SIZE: u64 = 4_194_304;
/// The most bytes of a constant buffer, and so of what a constant slot shows.
pub const MAX_CONSTANT_SIZE: u64 = 65_536;
/// The most bytes of all live buffers together.
pub const MAX_LIVE_BYTES: u64 = 268_435_456;
/// The most live dynamic buffers of a class.
pub const MAX_DYNAMIC_OF_CLASS: u32 = 32;
/// The least bytes of a structure.
pub const MIN_STRIDE: u32 = 4;
/// The most bytes of a structure.
pub const MAX_STRIDE: u32 = 2_048;

/// The bind bit of a constant buffer (Direct3D 11.3, D3D11_BIND_CONSTANT_BUFFER).
pub const CONSTANT_BUFFER: u32 = 1;
/// The bind bit of what shader resource views show.
pub const SHADER_RESOURCE: u32 = 2;
/// The bind bit of what unordered access views show.
pub const UNORDERED_ACCESS: u32 = 4;
/// The misc bit that allows raw views.
pub const RAW_VIEWS: u32 = 1;
/// The misc bit of a structured buffer.
pub const STRUCTURED: u32 = 2;
/// The misc bit of what indirect dispatches read their counts from.
pub const INDIRECT_ARGUMENTS: u32 = 4;
/// All known bits, of bind and of misc.
pub const KNOWN_BITS: u32 = 7;

/// The slots of constant buffers.
pub const CONSTANT_SLOTS: usize = 14;
/// The slots of shader resource views.
pub const SRV_SLOTS: usize = 16;
/// The slots of unordered access views.
pub const UAV_SLOTS: usize = 8;
/// The binding of a module's first shader resource view. The constant slots' bindings come before it.
pub const FIRST_SRV_BINDING: u32 = 14;
/// The binding of a module's first unordered access view.
pub const FIRST_UAV_BINDING: u32 = 30;
/// The bindings of a module, one a slot.
pub const MODULE_BINDINGS: u32 = 38;

/// The most groups of a dispatch in each dimension.
pub const MAX_GROUPS: u32 = 65_535;
/// The most invocations of a dispatch.
pub const MAX_INVOCATIONS: u64 = 16_777_216;
/// The most threads of a group, in all and in x and in y.
pub const MAX_THREADS: u32 = 1_024;
/// The most threads of a group in z.
pub const MAX_THREADS_Z: u32 = 64;
/// The most words of a shader.
pub const MAX_SHADER_WORDS: usize = 65_536;
/// The most temporaries of a shader.
pub const MAX_TEMPORARIES: u32 = 4_096;
/// How deep a shader's blocks may be nested.
pub const MAX_NESTING: usize = 64;
/// How often the loops of one invocation may turn together.
pub const LOOP_TURNS: u32 = 4_096;

/// The classes of blocks. Those of class `c` have 256 × 4^c bytes.
pub const CLASSES: usize = 8;
/// The bytes of a block of class 0.
pub const LEAST_BLOCK: u64 = 256;
/// The blocks of a class, and the places of the board for them.
pub const CLASS_BLOCKS: usize = 64;
/// The most entries of a chunk.
pub const CHUNK_ENTRIES: usize = 64;
/// The marks at which a chunk is full.
pub const CHUNK_MARKS: usize = 16;
/// The staged bytes at which a chunk is full.
pub const CHUNK_STAGED_BYTES: u64 = 4_194_304;
/// The least bytes of a staging page.
pub const PAGE_BYTES: u64 = 1_048_576;
/// The places of each queue between two parts.
pub const QUEUE_PLACES: usize = 4;
/// The most submitted batches on the device.
pub const DEVICE_BATCHES: usize = 4;
