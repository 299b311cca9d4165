//! Values, columns, frames and chunks: what every other crate passes around.
#![tactic(auto)]

mod any_value;
mod column;
mod data_chunk;
mod data_frame;
mod data_type;
mod failing;
mod laws;
mod operator;
mod place;
mod schema;
mod sink;
mod source;
mod text;
mod worked;
mod worked_types;

pub use any_value::AnyValue;
pub use column::Column;
pub use data_chunk::DataChunk;
pub use data_frame::DataFrame;
pub use data_type::DataType;
pub use failing::FailingCalls;
pub use operator::Operator;
pub use place::Place;
pub use schema::{Field, Schema};
pub use sink::{FinalizedSink, Sink, SinkResult};
pub use source::{Source, SourceResult};
pub use text::Text;
