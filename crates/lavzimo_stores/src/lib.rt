//! The stores of a run of `lavzimo`: in memory, or in files of a folder that have no name, so that runs
//! share a folder and leave nothing there.
#![tactic(auto)]

mod made_folders;
mod made_in;
mod maker;
mod own_store;
mod own_stores;
mod unnamed_file;

pub use made_folders::MadeFolders;
pub use maker::SpillMaker;
pub use own_store::OwnStore;
pub use own_stores::OwnStores;
pub use unnamed_file::UnnamedFile;
