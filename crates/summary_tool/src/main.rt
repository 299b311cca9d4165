//! Summaries of CSV that grow, from the command line: `summary_tool add QUERY FILE..` adds files to the
//! summary in `summary.log`, and `summary_tool show QUERY` writes its answer to standard output.
#![tactic(auto)]

use pipe_columns::Text;
use pipe_io::{RealFiles, RealOutput};
use pipe_spill::StoreError;
use std::alloc::Global;
use std::fs::{File, Files};
use std::io;
use std::process::ExitCode;
use summary_answer::run_summary;
use summary_log::KeptFile;
use tool_shell::{Given, first_block, given_by, report_untaken};

/// In how many threads files of CSV are read.
const THREADS: usize = 1;

/// The file in the working folder that the summary lies in.
const LOG: &str = "summary.log";

/// The store of the summary.
fn open_log<R: Files<File = File>>(rt: &R, alloc: Global) -> Result<KeptFile, StoreError> {
    match Text::new(alloc, LOG) {
        Ok(path) => KeptFile::open(rt, alloc, &path),
        Err(_) => Err(StoreError::Memory),
    }
}

fn main(rt: HostRuntime) -> ExitCode {
    let alloc = rt.alloc();
    let opened = open_log(&rt, alloc);
    drop(first_block(alloc));
    let mut messages = RealOutput::new(rt.stderr());
    let status = match given_by(&rt) {
        Ok(Given { words, hash_keys }) => {
            let mut input = RealFiles::new(&rt, rt.stdin());
            let mut output = RealOutput::new(io::writer(&rt));
            let (status, _store) = run_summary(
                &rt,
                alloc,
                THREADS,
                Some(hash_keys),
                &words,
                opened,
                &mut input,
                &mut output,
                &mut messages,
            );
            status
        }
        Err(kind) => report_untaken(&mut messages, kind),
    };
    ExitCode::from(status)
}
