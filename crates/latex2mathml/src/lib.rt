// The translation of a body and the replacement in a document: the Rust's lib.rs.
#![tactic(auto)]

pub mod replace;
pub mod translate;

use text::Dialect;

// How an operation prints.
#[derive(Clone, Copy)]
pub struct Manner {
    pub dialect: Dialect,
}
