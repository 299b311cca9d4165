//! Group-by of CSV from the command line, by columns' names: `lavzimo --by C,.. --count --sum C,.. FILES..`
//! reads files or standard input and writes the groups to standard output.
#![tactic(auto)]

mod looks;
mod shell_output;

use lavzimo_answer::run_lavzimo;
use lavzimo_stores::OwnStores;
use looks::RealLooks;
use pipe_global::OpenGate;
use pipe_io::{RealFiles, RealOutput};
use shell_output::ShellOutput;
use std::hash::{BuildHasher, RandomState};
use std::io;
use std::process::{self, ExitCode};
use std::thread::{self, Threads};
use tool_shell::{Given, first_block, given_by, report_untaken};

/// How many processors there are, and one where that isn't known.
fn processors(rt: &impl Threads) -> usize {
    match thread::available_parallelism(rt) {
        Ok(count) => count.get(),
        Err(_) => 1,
    }
}

/// A number that tells files apart whose names would be the same.
fn salt_of(hash_keys: &RandomState) -> u64 {
    hash_keys.hash_one(0_u64)
}

fn main(rt: HostRuntime) -> ExitCode {
    let alloc = rt.alloc();
    drop(first_block(alloc));
    let mut messages = RealOutput::new(rt.stderr());
    let status = match given_by(&rt) {
        Ok(Given { words, hash_keys }) => {
            let mut input = RealFiles::new(&rt, rt.stdin());
            let mut output = ShellOutput::new(io::writer(&rt));
            let salt = salt_of(&hash_keys);
            let mut maker = OwnStores::new(
                &rt,
                alloc,
                process::id(rt.process()),
                salt,
                Some(hash_keys),
            );
            let mut looks = RealLooks::new(&rt, alloc);
            let end = run_lavzimo(
                &rt,
                alloc,
                processors(&rt),
                &words,
                &mut input,
                &mut output,
                &mut messages,
                &mut maker,
                &mut looks,
                &OpenGate,
            );
            end.status
        }
        Err(kind) => report_untaken(&mut messages, kind),
    };
    ExitCode::from(status)
}
