//! What a program is given.

use pipe_columns::Text;
use std::alloc::Global;
use std::env::{self, Env};
use std::hash::RandomState;
use std::io::ErrorKind;
use std::random::RandomSource;

/// What a program is given: the words of its command, and keys of the system's random source under
/// which tables hash.
#[derive(Drop)]
pub struct Given {
    pub words: Vec<Text>,
    pub hash_keys: RandomState,
}

/// The words after the program's name, or why they can't be taken.
fn words_of(rt: &(impl Env + Alloc<A = Global>)) -> Result<Vec<Text>, ErrorKind> {
    let args = match env::args(rt) {
        Ok(args) => args,
        Err(error) => return Err(error.kind()),
    };
    let mut words = Vec::new(rt.alloc());
    for arg in args.skip(1) {
        let Ok(word) = Text::new(rt.alloc(), arg.as_str()) else {
            return Err(ErrorKind::OutOfMemory);
        };
        if words.push(word).is_err() {
            return Err(ErrorKind::OutOfMemory);
        }
    }
    Ok(words)
}

/// What the program is given, or why it can't be had. Where the random source gives nothing, that is told
/// as want of memory: a run never goes on under keys that others may know.
pub fn given_by(rt: &(impl Env + RandomSource + Alloc<A = Global>)) -> Result<Given, ErrorKind> {
    let words = words_of(rt)?;
    match RandomState::new(rt) {
        Ok(hash_keys) => Ok(Given { words, hash_keys }),
        Err(_) => Err(ErrorKind::OutOfMemory),
    }
}
