// The records of the tables, the small types of the product, and in specs/ the definitions of all that it does.
#![tactic(auto)]

pub mod blanks;
pub mod ends;
pub mod lookup;
pub mod records;
pub mod refusal;
pub mod settings;
pub mod sizes;
pub mod slot;
pub mod sound;
