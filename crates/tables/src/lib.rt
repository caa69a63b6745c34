// Work on a table that lies in a slice: its records in use come first, and blank ones follow.
#![tactic(auto)]

pub mod amending;
pub mod filling;
pub mod finding;
pub mod shifting;
