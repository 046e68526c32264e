// The markup of single nodes: leaves, and what is printed around the parts of a node.
#![tactic(auto)]

// Where a node is printed: by itself, under a slash, or as a direct part of a matrix.
#[derive(Clone, Copy)]
pub enum Place {
    Plain,
    Slashed,
    Cell,
}
