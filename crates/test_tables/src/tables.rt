//! Tables and local tables that are made and fed.

pub(crate) mod given;
pub(crate) mod joined;
pub(crate) mod local;
mod placed;
pub(crate) mod rows;
pub(crate) mod two_tables;
