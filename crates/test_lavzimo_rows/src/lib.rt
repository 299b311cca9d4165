//! Tests of the rows that `lavzimo` shows, by the public functions of `lavzimo_rows` alone.
#![tactic(auto)]

mod made;
mod text_tests;
