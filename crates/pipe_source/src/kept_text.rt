//! What a reader keeps of the file that it read last.

ghost use Rattle.std.specs.Prelude.{[], None, ◌≡◌, ◌≤◌, ◌<◌, ◌+◌, ◌-◌, ◌*◌, ◌^◌, length};
ghost use Rattle.pipe_source.specs.Kept.{IsAdvanced, IsGone};

use crate::layout::Layout;
use crate::source_place::SourcePlace;
use std::alloc::Global;

/// Where the columns of a file stand, if they are found by their names, its text, where each chunk of it begins, which chunk comes next, how many rows are
/// left, and the place of the next one.
#[derive(Drop)]
pub(crate) struct KeptText {
    pub(crate) at: SourcePlace,
    pub(crate) layout: Option<Layout>,
    pub(crate) text: Vec<u8>,
    pub(crate) starts: Vec<usize>,
    pub(crate) chunk: usize,
    pub(crate) left: usize,
}

impl KeptText {
    /// No text, at a place.
    pub(crate) fn none(alloc: Global, at: SourcePlace) -> KeptText
        ensures at { result.at ≡ at }
        ensures layout { result.layout ≡ None }
        ensures text { result.text.items ≡ [] }
        ensures starts { result.starts.items ≡ [] }
        ensures chunk { result.chunk ≡ 0 }
        ensures left { result.left ≡ 0 }
    {
        KeptText {
            at,
            layout: None,
            text: Vec::new(alloc),
            starts: Vec::new(alloc),
            chunk: 0,
            left: 0,
        }
    }

    /// The same text, or none at its place where no row of it is left.
    pub(crate) fn or_none(self, alloc: Global) -> KeptText
        ensures kept { 0 < self.left → result ≡ self }
        ensures gone { self.left ≡ 0 → IsGone self result }
    {
        if self.left > 0 {
            return self;
        }
        KeptText::none(alloc, self.at)
    }

    /// How many chunks are left.
    pub(crate) fn chunks_left(&self) -> usize
        requires { self.now.chunk ≤ length self.now.starts.items }
        ensures { result ≡ length self.now.starts.items - self.now.chunk }
    {
        self.starts.len() - self.chunk
    }

    /// The place behind all rows that are left.
    pub(crate) fn place_behind(&self) -> SourcePlace
        requires within { self.now.chunk ≤ length self.now.starts.items }
        requires few_rows { self.now.at.rows ≤ 2 ^ 100 }
        requires few_chunks { self.now.at.chunks ≤ 2 ^ 100 }
        ensures { result ≡ record {
          file = self.now.at.file;
          chunks = self.now.at.chunks + (length self.now.starts.items - self.now.chunk);
          rows = self.now.at.rows + self.now.left;
        } }
    {
        SourcePlace {
            file: self.at.file,
            chunks: self.at.chunks + self.chunks_left() as u128,
            rows: self.at.rows + self.left as u128,
        }
    }

    /// Goes on behind so many chunks of a size.
    pub(crate) fn advance(&mut self, count: usize, size: usize)
        requires within { self.old.chunk + count ≤ length self.old.starts.items }
        requires few_rows { self.old.at.rows ≤ 2 ^ 100 }
        requires few_chunks { self.old.at.chunks ≤ 2 ^ 100 }
        ensures { IsAdvanced size count self.old self.new }
    {
        let given = count.saturating_mul(size).min(self.left);
        self.chunk += count;
        self.left -= given;
        self.at.chunks += count as u128;
        self.at.rows += given as u128;
    }
}
