//! What lies outside a run: named files, printed bytes, and a gate that workers pass.
#![tactic(auto)]

mod calls;
mod depot;
mod gate;
mod host_depot;
mod host_sink;
pub mod laws;
mod mem_depot;
mod mem_sink;
mod named_files;
mod sink;
mod transfer;

pub use depot::{Depot, Got, PutFail, ReadFail};
pub use gate::{Gate, OpenGate};
pub use host_depot::HostDepot;
pub use host_sink::HostSink;
pub use mem_depot::MemDepot;
pub use mem_sink::MemSink;
pub use sink::{Sink, WriteFail};
pub use transfer::{read_front, write_whole};
