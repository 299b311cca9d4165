//! Tests of files that are read, of outputs, of records of texts and of written frames, by public functions alone.
#![tactic(auto)]

#[cfg(test)]
mod alike;
#[cfg(test)]
mod files;
#[cfg(test)]
mod frames;
#[cfg(test)]
mod hold;
#[cfg(test)]
mod numbers;
#[cfg(test)]
mod outputs;
#[cfg(test)]
mod plain;
#[cfg(test)]
mod rows;
#[cfg(test)]
mod side_by_side;
