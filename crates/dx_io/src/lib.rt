//! Where the bytes of a run come from and where its output goes; what may hold its threads up, and what chooses for them.
#![tactic(auto)]

mod all;
mod calls;
mod gate;
mod memory_sink;
mod memory_source;
mod picker;
mod standard;
mod sure;
mod traits;

pub use all::{ReadEnd, read_all, write_all};
pub use gate::{Gate, GateStage, NoGate};
pub use memory_sink::MemSink;
pub use memory_source::MemSource;
pub use picker::{PcgPicker, Picker};
pub use standard::{StdSink, StdSource};
pub use sure::{SureSink, SureSource};
pub use traits::{Failed, Sink, Source};
