//! A file that was read whole and looked over.

use crate::layout::Layout;

/// Where the columns of a file stand, if they are found by their names, its text, where so many rows of
/// it begin, and where each chunk of them does.
#[derive(Drop)]
pub(crate) struct FileText {
    pub(crate) layout: Option<Layout>,
    pub(crate) text: Vec<u8>,
    pub(crate) begin: usize,
    pub(crate) count: usize,
    pub(crate) starts: Vec<usize>,
}
