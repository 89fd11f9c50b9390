//! The tests.
mod devices;
mod endless;
mod rows;
