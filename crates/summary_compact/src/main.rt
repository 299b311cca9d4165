//! Makes the summary in `summary.log` one frame: `summary_compact QUERY` writes it as a log beside the old
//! one, and renames it. No command may run on the log meanwhile.
#![tactic(auto)]

use pipe_aggs::{CheckedQuery, Query};
use pipe_columns::Text;
use pipe_io::{RealOutput, write_all};
use pipe_spill::SpillStore;
use pipe_summary::Summary;
use std::alloc::Global;
use std::fs::{self, File, Files};
use std::process::ExitCode;
use summary_log::KeptFile;
use tool_query::query_of_word;
use tool_shell::given_by;

/// The log of the summary.
const LOG: &str = "summary.log";

/// The log that is written beside it.
const NEW_LOG: &str = "summary.log.new";

/// The log in a file.
fn open_log<R: Files<File = File>>(rt: &R, alloc: Global, name: &str) -> Option<KeptFile> {
    let path = Text::new(alloc, name).ok()?;
    KeptFile::open(rt, alloc, &path).ok()
}

/// The query of a command whose words it is alone, if it doesn't keep order.
fn query_asked(alloc: Global, words: &[Text]) -> Option<Query> {
    let [word] = words else {
        return None;
    };
    let query = query_of_word(alloc, word).ok()?;
    if query.maintain_order {
        return None;
    }
    Some(query)
}

/// Writes the summary of the log as one frame into a new one. It answers whether it did.
fn write_new<R: Files<File = File>>(rt: &R, alloc: Global, query: &CheckedQuery<'_>) -> bool {
    let _former = fs::remove_file(rt, NEW_LOG);
    let (Some(log), Some(mut new)) = (open_log(rt, alloc, LOG), open_log(rt, alloc, NEW_LOG)) else {
        return false;
    };
    if new.held() != 0 || query.query().maintain_order {
        return false;
    }
    match Summary::open(alloc, query, log) {
        Ok(mut summary) => summary.compact(&mut new).is_ok()
            && fs::rename(rt, NEW_LOG, LOG).is_ok(),
        Err(_) => false,
    }
}

/// The exit status, and the line of what went wrong.
fn compacted<R: Files<File = File>>(rt: &R, alloc: Global, words: &[Text]) -> (u8, &'static [u8]) {
    let Some(query) = query_asked(alloc, words) else {
        return (2, b"words refused\n");
    };
    match query.check(alloc) {
        Ok(checked) => {
            if write_new(rt, alloc, &checked) {
                (0, b"")
            } else {
                (1, b"the log was not compacted\n")
            }
        }
        Err(_) => (2, b"words refused\n"),
    }
}

fn main(rt: HostRuntime) -> ExitCode {
    let alloc = rt.alloc();
    let (status, line) = match given_by(&rt) {
        Ok(given) => compacted(&rt, alloc, &given.words),
        Err(_) => (2, b"words refused\n".as_slice()),
    };
    let mut messages = RealOutput::new(rt.stderr());
    let _told = write_all(&mut messages, line);
    ExitCode::from(status)
}
