//! A reader over the bytes of a dossier, a piece or a plan, and the marks of their records.
#![tactic(auto)]

pub mod marks;
mod reader;

pub use reader::Reader;
