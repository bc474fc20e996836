//! Tests by crate.
mod bpdus;
mod bridge;
mod common;
mod frames;
mod messages;
mod querier;
mod tree;
