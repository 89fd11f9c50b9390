//! Tests of what isn't proved: the streams and files of the program.
mod files;
mod streams;
