//! The table of a list of changes, as plain as its definition: `show` lists it.

pub mod maps;
pub mod table;
