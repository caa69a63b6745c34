// One priority queue, a binary heap with positions, for every key with a total order.
#![tactic(auto)]

pub mod fresh;
pub mod heap;
pub mod lane;
pub mod lanes;
pub mod mark;
pub mod offers;
pub mod operations;
pub mod orders;
mod places;
pub mod rank;
pub mod search;
