//! Named files that are read, and outputs that are written, in memory and real. Both count their
//! faults.
#![tactic(auto)]

mod input;
mod memory_files;
mod memory_output;
mod output;
mod parts;
mod piece;
mod real_files;
mod real_output;
mod tried;
mod tried_name;
mod whole_file;

pub use input::{InputError, InputFiles};
pub use memory_files::MemoryFiles;
pub use memory_output::MemoryOutput;
pub use output::{Output, OutputError, write_all};
pub use real_files::RealFiles;
pub use real_output::RealOutput;
pub use tried::TriedNames;
pub use whole_file::{FileEnd, MOST_FILE_BYTES, end_of, read_begun, read_file};
