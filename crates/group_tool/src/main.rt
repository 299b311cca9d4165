//! A group-by of CSV from the command line: `group_tool [OPTIONS] QUERY [FILES..]` reads files or
//! standard input and writes the groups to standard output; `group_tool --generate SEED [OPTIONS]` tells
//! of a run over generated rows.
#![tactic(auto)]

use pipe_global::OpenGate;
use pipe_io::{RealFiles, RealOutput};
use std::io;
use std::process::ExitCode;
use tool_answer::run_tool;
use tool_shell::{Given, first_block, given_by, report_untaken};
use tool_stores::ProgramStores;

fn main(rt: HostRuntime) -> ExitCode {
    let alloc = rt.alloc();
    drop(first_block(alloc));
    let mut messages = RealOutput::new(rt.stderr());
    let status = match given_by(&rt) {
        Ok(Given { words, hash_keys }) => {
            let mut input = RealFiles::new(&rt, rt.stdin());
            let mut output = RealOutput::new(io::writer(&rt));
            let mut maker = ProgramStores::new(&rt, alloc, Some(hash_keys));
            let end = run_tool(
                &rt,
                alloc,
                &words,
                &mut input,
                &mut output,
                &mut messages,
                &mut maker,
                &OpenGate,
            );
            end.status
        }
        Err(kind) => report_untaken(&mut messages, kind),
    };
    ExitCode::from(status)
}
