//! Runs of `lavzimo` over files and outputs in memory, of which a call may fail.

use crate::outputs::{Narrow, Unseeing};
use lavzimo_answer::{LavzimoEnd, run_lavzimo};
use lavzimo_stores::SpillMaker;
use pipe_columns::Text;
use pipe_global::OpenGate;
use pipe_io::{MemoryFiles, MemoryOutput};
use pipe_spill::SpillStore;
use std::alloc::{AllocError, Global};
use std::sync::Wait;
use std::test::Fail;
use std::thread::Threads;

/// A name and a text.
pub(crate) type File<'w> = (&'w str, &'w str);

/// The words of a line, between spaces, over files, and which calls fail, numbered from 0, if any
/// does.
#[derive(Clone, Copy)]
pub(crate) struct Asked<'w> {
    pub(crate) line: &'w str,
    pub(crate) files: &'w [File<'w>],
    pub(crate) input: Option<u64>,
    pub(crate) output: Option<u64>,
    pub(crate) messages: Option<u64>,
    pub(crate) closed: bool,
}

/// Words over files, with no call that fails.
pub(crate) fn asks<'w>(line: &'w str, files: &'w [File<'w>]) -> Asked<'w> {
    Asked {
        line,
        files,
        input: None,
        output: None,
        messages: None,
        closed: false,
    }
}

/// The words of a line, between spaces.
fn words_of(alloc: Global, line: &str) -> Result<Vec<Text>, AllocError> {
    let mut words = Vec::new(alloc);
    for word in line.split(' ') {
        words.push(Text::new(alloc, word)?)?;
    }
    Ok(words)
}

/// The calls that fail.
fn calls(alloc: Global, failing: Option<u64>) -> Result<Vec<u64>, AllocError> {
    let mut calls = Vec::new(alloc);
    if let Some(call) = failing {
        calls.push(call)?;
    }
    Ok(calls)
}

/// A file in memory.
fn copy_of(alloc: Global, file: &File<'_>) -> Result<(Text, Vec<u8>), AllocError> {
    let name = Text::new(alloc, file.0)?;
    let text = Vec::from_slice(alloc, file.1.as_bytes())?;
    Ok((name, text))
}

/// Files in memory.
fn copies_of(alloc: Global, files: &[File<'_>]) -> Result<Vec<(Text, Vec<u8>)>, AllocError> {
    let mut copies = Vec::new(alloc);
    for file in files {
        copies.push(copy_of(alloc, file)?)?;
    }
    Ok(copies)
}

/// Files, of which a call may fail.
fn input_of(
    alloc: Global,
    files: &[File<'_>],
    failing: Option<u64>,
) -> Result<MemoryFiles, AllocError> {
    let failing = calls(alloc, failing)?;
    Ok(MemoryFiles::new(copies_of(alloc, files)?, failing))
}

/// Outputs, of which a call may fail.
#[derive(Drop)]
struct Outputs {
    output: Narrow,
    messages: MemoryOutput,
}

/// The outputs of a run.
fn outputs_of(alloc: Global, asked: &Asked<'_>) -> Result<Outputs, AllocError> {
    let failing = calls(alloc, asked.output)?;
    let untold = calls(alloc, asked.messages)?;
    Ok(Outputs {
        output: Narrow {
            held: MemoryOutput::new(alloc, failing),
            closed: asked.closed,
        },
        messages: MemoryOutput::new(alloc, untold),
    })
}

/// How a run ended: its status, and how many journals and stores it left.
#[derive(Clone, Copy, PartialEq, Eq)]
pub(crate) struct End {
    pub(crate) status: u8,
    pub(crate) journals: usize,
    pub(crate) stores: usize,
}

/// How a run ended, and what it wrote and told.
#[derive(Drop)]
pub(crate) struct Ended {
    pub(crate) end: End,
    outputs: Outputs,
}

impl Ended {
    /// What it wrote.
    pub(crate) fn written(&self) -> &[u8] {
        self.outputs.output.held.bytes()
    }

    /// What it told.
    pub(crate) fn told(&self) -> &[u8] {
        self.outputs.messages.bytes()
    }

    /// Whether it ended so, with exactly these texts.
    fn is(&self, end: End, written: &[u8], told: &[u8]) -> bool {
        self.end == end && self.written() == written && self.told() == told
    }

    /// Whether it is answered by exactly this text.
    pub(crate) fn answers(&self, text: &str) -> bool {
        self.end.status == 0 && self.written() == text.as_bytes() && self.told().is_empty()
    }
}

/// How a run ended.
fn end_of<S: SpillStore + Drop>(ended: &LavzimoEnd<S>) -> End {
    End {
        status: ended.status,
        journals: ended.journals.journals().len(),
        stores: ended.stores.len(),
    }
}

/// How a run over an input, outputs and a maker ends, on one processor.
fn run_over<M: SpillMaker, H: Threads + Wait + Sync>(
    rt: &H,
    alloc: Global,
    words: &[Text],
    input: &mut MemoryFiles,
    outputs: &mut Outputs,
    maker: &mut M,
) -> End {
    end_of(&run_lavzimo(
        rt,
        alloc,
        1,
        words,
        input,
        &mut outputs.output,
        &mut outputs.messages,
        maker,
        &mut Unseeing,
        &OpenGate,
    ))
}

/// How a run over outputs and a maker ends, on one processor.
fn run_into<M: SpillMaker, H: Threads + Wait + Sync>(
    rt: &H,
    alloc: Global,
    asked: &Asked<'_>,
    outputs: &mut Outputs,
    maker: &mut M,
) -> Result<End, AllocError> {
    let words = words_of(alloc, asked.line)?;
    let mut input = input_of(alloc, asked.files, asked.input)?;
    Ok(run_over(rt, alloc, &words, &mut input, outputs, maker))
}

/// How a run over stores of a maker ends, on one processor.
pub(crate) fn run_asked<M: SpillMaker, H: Alloc<A = Global> + Threads + Wait + Sync>(
    rt: &H,
    maker: &mut M,
    asked: &Asked<'_>,
) -> Result<Ended, AllocError> {
    let mut outputs = outputs_of(rt.alloc(), asked)?;
    let end = run_into(rt, rt.alloc(), asked, &mut outputs, maker)?;
    Ok(Ended { end, outputs })
}

/// Whether a run over stores of a maker ends so, with these texts.
pub(crate) fn ends<M: SpillMaker, H: Alloc<A = Global> + Threads + Wait + Sync>(
    rt: &H,
    maker: &mut M,
    asked: &Asked<'_>,
    end: End,
    written: &[u8],
    told: &str,
) -> Result<bool, AllocError> {
    let ended = run_asked(rt, maker, asked)?;
    Ok(ended.is(end, written, told.as_bytes()))
}

/// The end of a test.
pub(crate) fn hold(good: bool) -> Result<(), Fail> {
    if good {
        Ok(())
    } else {
        Err("another end".into())
    }
}
