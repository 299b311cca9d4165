//! The code of key tuples and the partition of a key, the frames of spilled rows, and the stores
//! that frames are put into.
#![tactic(auto)]

mod decode;
mod encode;
mod file_frames;
mod file_store;
mod frame_laws;
mod frame_read;
mod frame_size;
mod frame_write;
mod frames;
mod key_bytes;
mod key_check;
mod laws;
mod memory_store;
mod partition;
mod read_number;
mod read_text;
mod row_read;
mod spill_row;
mod store;
mod values;
mod worked;

pub use decode::{DecodeError, decode_key, read_plain, read_value};
pub use encode::{append_value, encode_key, encode_key_into};
pub use file_store::FileStore;
pub use frame_read::{FrameError, read_frame};
pub use frame_size::{rows_size, value_size};
pub use frame_write::{write_frame, write_payloads};
pub use frames::Frames;
pub use key_bytes::KeyBytes;
pub use memory_store::MemoryStore;
pub use partition::{fold, partition_of};
pub use spill_row::{SpillPayload, SpillRow};
pub use store::{SpillStore, StoreError};
pub use values::Values;
