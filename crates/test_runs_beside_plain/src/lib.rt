//! Trials: runs of every kind beside the plain program, over a table of limits, actions and feeds.
#![tactic(auto)]

#[cfg(test)]
mod asked;
#[cfg(test)]
mod cases;
#[cfg(test)]
mod compared;
#[cfg(test)]
mod trial_tests;
