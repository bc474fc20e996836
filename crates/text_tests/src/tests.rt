//! Tests by crate.
mod arena;
mod books;
mod captures;
mod common;
mod items;
mod neighbours;
mod scenario;
mod transcript;
mod transfers;
