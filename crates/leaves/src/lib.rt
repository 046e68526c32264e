// The code of the markup: leaves, what is printed around the parts of a node, and their lengths.
#![tactic(auto)]

pub mod fronts;
pub mod leaf;
pub mod lengths;
