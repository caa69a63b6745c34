// Networks in files: blocks of 512 bytes with check sums, a header and then the sections in order.
#![tactic(auto)]

mod block;
pub mod fault;
pub mod file;
pub mod numbers;
pub mod row;
