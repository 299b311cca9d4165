//! Runs of the tool over files in memory and outputs that take little at a time.

use crate::small::{Small, output_of};
use pipe_columns::Text;
use pipe_global::{Gate, OpenGate};
use pipe_io::{InputFiles, MemoryFiles};
use pipe_spill::{MemoryStore, SpillStore};
use std::alloc::{AllocError, Global};
use std::sync::Wait;
use std::thread::Threads;
use tool_answer::{ToolEnd, run_tool};
use tool_stores::StoreMaker;

/// The sum and the count of `v` by `k`.
pub(crate) const SUM_AND_COUNT: &str =
    r#"{"schema":[["k","Int64"],["v","Int64"]],"keys":["k"],"aggs":[{"alias":[{"sum":"v"},"s"]},{"alias":[{"count":"v"},"c"]}]}"#;

/// Makes stores in memory that never fail, and none for a folder. It keeps a mark of each.
#[derive(Drop)]
pub(crate) struct MemoryStores {
    alloc: Global,
    made: Vec<()>,
}

impl MemoryStores {
    pub(crate) fn new(alloc: Global) -> MemoryStores {
        MemoryStores {
            alloc,
            made: Vec::new(alloc),
        }
    }
}

impl StoreMaker for MemoryStores {
    ghost use Rattle.std.specs.Prelude.{None, map};

    type Store = MemoryStore;

    ghost made = { λ m. map (λ _. None) m.made.items };

    fn make(&mut self, dir: Option<&Text>, _partition: usize) -> Result<MemoryStore, AllocError> {
        if dir.is_some() {
            return Err(AllocError);
        }
        self.made.push(())?;
        Ok(MemoryStore::new(self.alloc, Vec::new(self.alloc)))
    }
}

/// A name and a text.
pub(crate) type File<'w> = (&'w str, &'w str);

/// A run and its outcome: its files, and which calls of the input and which of the outputs fail, numbered from
/// 0; and what comes of it. Where it is said, one store is left, with so many frames.
#[derive(Clone, Copy)]
pub(crate) struct Run<'w> {
    pub(crate) words: &'w [&'w str],
    pub(crate) files: &'w [File<'w>],
    pub(crate) input_fails: &'w [u64],
    pub(crate) output_fails: &'w [u64],
    pub(crate) message_fails: &'w [u64],
    pub(crate) status: u8,
    pub(crate) output: &'w [u8],
    pub(crate) line: &'w [u8],
    pub(crate) frames: Option<u64>,
}

/// No words, and nothing comes of them.
pub(crate) const NOTHING: Run<'static> = Run {
    words: &[],
    files: &[],
    input_fails: &[],
    output_fails: &[],
    message_fails: &[],
    status: 0,
    output: b"",
    line: b"",
    frames: None,
};

/// Copies of words.
fn texts_of(alloc: Global, words: &[&str]) -> Result<Vec<Text>, AllocError> {
    let mut texts = Vec::new(alloc);
    for word in words {
        texts.push(Text::new(alloc, word)?)?;
    }
    Ok(texts)
}

/// A name and a text, copied.
fn file_of(alloc: Global, file: &File<'_>) -> Result<(Text, Vec<u8>), AllocError> {
    let name = Text::new(alloc, file.0)?;
    Ok((name, Vec::from_slice(alloc, file.1.as_bytes())?))
}

/// Files, copied.
fn copies_of(alloc: Global, files: &[File<'_>]) -> Result<Vec<(Text, Vec<u8>)>, AllocError> {
    let mut copies = Vec::new(alloc);
    for file in files {
        copies.push(file_of(alloc, file)?)?;
    }
    Ok(copies)
}

/// Files in memory, of which listed calls fail.
fn files_of(alloc: Global, run: &Run<'_>) -> Result<MemoryFiles, AllocError> {
    let calls = Vec::from_slice(alloc, run.input_fails)?;
    Ok(MemoryFiles::new(copies_of(alloc, run.files)?, calls))
}

/// Whether a run left one store with so many frames, and journals exactly where it was done.
fn has_left<S: SpillStore + Drop>(end: &ToolEnd<S>, frames: u64) -> bool {
    end.stores.len() == 1
        && end.stores[0].held() == frames
        && end.journals.journals().is_empty() == (end.status != 0)
}

/// Whether a run ended as is due.
fn has_ended<S: SpillStore + Drop>(run: &Run<'_>, end: &ToolEnd<S>) -> bool {
    match run.frames {
        Some(frames) => end.status == run.status && has_left(end, frames),
        None => end.status == run.status,
    }
}

/// Whether the tool ends as is due, over an input, outputs, stores and a gate.
fn ends<H: Alloc<A = Global> + Threads + Wait + Sync, I: InputFiles, M: StoreMaker, G: Gate + Sync>(
    rt: &H,
    run: &Run<'_>,
    words: &[Text],
    input: &mut I,
    output: &mut Small,
    messages: &mut Small,
    maker: &mut M,
    gate: &G,
) -> bool {
    let end = run_tool(rt, rt.alloc(), words, input, output, messages, maker, gate);
    has_ended(run, &end)
}

/// Whether a run over an input, stores and a gate comes to what is due.
fn comes_to<
    H: Alloc<A = Global> + Threads + Wait + Sync,
    I: InputFiles,
    M: StoreMaker,
    G: Gate + Sync,
>(
    rt: &H,
    run: &Run<'_>,
    words: &[Text],
    input: &mut I,
    maker: &mut M,
    gate: &G,
) -> Result<bool, AllocError> {
    let mut output = output_of(rt.alloc(), run.output_fails)?;
    let mut messages = output_of(rt.alloc(), run.message_fails)?;
    let ends = ends(
        rt,
        run,
        words,
        input,
        &mut output,
        &mut messages,
        maker,
        gate,
    );
    Ok(ends && output.0.bytes() == run.output && messages.0.bytes() == run.line)
}

/// Whether a run over its files, stores and a gate comes to what is due.
pub(crate) fn holds<H: Alloc<A = Global> + Threads + Wait + Sync, M: StoreMaker, G: Gate + Sync>(
    rt: &H,
    run: &Run<'_>,
    maker: &mut M,
    gate: &G,
) -> Result<bool, AllocError> {
    let words = texts_of(rt.alloc(), run.words)?;
    let mut input = files_of(rt.alloc(), run)?;
    comes_to(rt, run, &words, &mut input, maker, gate)
}

/// Whether a run over stores in memory does.
pub(crate) fn holds_in_memory<H: Alloc<A = Global> + Threads + Wait + Sync, G: Gate + Sync>(
    rt: &H,
    run: &Run<'_>,
    gate: &G,
) -> Result<bool, AllocError> {
    let mut maker = MemoryStores::new(rt.alloc());
    holds(rt, run, &mut maker, gate)
}

/// Whether each of some runs over stores in memory does.
pub(crate) fn all_hold<H: Alloc<A = Global> + Threads + Wait + Sync>(
    rt: &H,
    runs: &[Run<'_>],
) -> Result<bool, AllocError> {
    for run in runs {
        if !holds_in_memory(rt, run, &OpenGate)? {
            return Ok(false);
        }
    }
    Ok(true)
}
