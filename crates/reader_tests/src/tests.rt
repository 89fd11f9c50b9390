//! The tests.
mod adapters;
mod agreements;
mod spans;
