//! Chains: lists of boxed particles. Nodes move from one chain to another and are never copied, so
//! that only the making of a node takes memory.
#![tactic(auto)]

mod chain;
mod chain_iter;
mod node;

pub use chain::Chain;
pub use chain_iter::ChainIter;
pub use node::Node;
