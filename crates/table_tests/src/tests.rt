//! Tests by crate, and of the chip beside software.
mod addresses;
mod alike;
mod common;
mod driver;
mod marks;
mod memberships;
mod notices;
mod numbers;
mod pipeline;
mod reports;
mod rows;
mod sets;
mod snooped;
mod soft_tables;
