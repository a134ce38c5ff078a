//! The log of calls: its bytes are read once, and its records are lent from them. Records are put behind one
//! another in the same form.
#![tactic(auto)]

mod body;
mod call;
mod decode;
mod fault;
mod head;
mod item;
pub mod kinds;
mod laws;
mod log;
mod put;
mod table;

pub use call::Call;
pub use fault::{LogEnd, LogFault, LogKind};
pub use item::Item;
pub use kinds::{Kind, Layout, Place, Sort};
pub use laws::{one_reading, puts_read_back};
pub use log::{Log, read_log};
pub use put::{close_record, open_record, put_call, put_end, put_header};
pub use table::{kind_named, kind_numbered};
