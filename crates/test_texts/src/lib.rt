//! Tests of what words and values of JSON say and of rows that are made, by their public functions alone.
#![tactic(auto)]

#[cfg(test)]
mod made;
#[cfg(test)]
mod queries;
#[cfg(test)]
mod words;
