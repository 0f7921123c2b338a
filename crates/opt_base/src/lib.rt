//! What every crate of Optimus stands on: refusals and their places, want of memory, plain data, and the outside by
//! its traits.
#![tactic(auto)]

mod blob;
mod calls;
mod draws;
mod limits;
mod mem_shelf;
mod mem_sink;
mod out_of_memory;
mod outside;
mod point;
mod refusal;
mod sure_shelf;
mod sure_sink;
#[cfg(test)]
mod tests;
mod verdict;

pub use blob::Blob;
pub use draws::Draws;
pub use limits::{
    QUANTITIES_COLUMN, QUANTITY_LIMIT, ROW_LIMIT, ROWS_COLUMN, TERM_LIMIT, TERMS_COLUMN,
};
pub use mem_shelf::MemShelf;
pub use mem_sink::MemSink;
pub use out_of_memory::OutOfMemory;
pub use outside::{Found, GetFault, PutFault, Shelf, Sink, SinkFault};
pub use point::Point;
pub use refusal::{File, Kind, ModelFault, Refusal};
pub use sure_shelf::SureShelf;
pub use sure_sink::SureSink;
pub use verdict::Verdict;
