//! Roll-ups of CSV from the command line: `rollup_tool save QUERY FIRST FILE..` writes the state of
//! files to standard output, and `rollup_tool roll QUERY KEYS FILE..` what states come to by some
//! keys.
#![tactic(auto)]

use pipe_io::{RealFiles, RealOutput};
use rollup_answer::run_rollup;
use std::io;
use std::process::ExitCode;
use tool_shell::{Given, first_block, given_by, report_untaken};

/// In how many threads files of CSV are read.
const THREADS: usize = 1;

fn main(rt: HostRuntime) -> ExitCode {
    let alloc = rt.alloc();
    drop(first_block(alloc));
    let mut messages = RealOutput::new(rt.stderr());
    let status = match given_by(&rt) {
        Ok(Given { words, hash_keys }) => {
            let mut input = RealFiles::new(&rt, rt.stdin());
            let mut output = RealOutput::new(io::writer(&rt));
            run_rollup(
                &rt,
                alloc,
                THREADS,
                Some(hash_keys),
                &words,
                &mut input,
                &mut output,
                &mut messages,
            )
        }
        Err(kind) => report_untaken(&mut messages, kind),
    };
    ExitCode::from(status)
}
