//! The stores of a run of the program: in memory, or in the files of a folder.
#![tactic(auto)]

mod maker;
mod program_store;
mod program_stores;

pub use maker::StoreMaker;
pub use program_store::ProgramStore;
pub use program_stores::ProgramStores;
