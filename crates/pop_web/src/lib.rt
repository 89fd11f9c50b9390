//! The engine of the web page: five calls that read or solve a text in memory.
//!
//! ```rust
//! use pop_web::pops_report;
//!
//! // `input` is the text, and `output` has 2^22 bytes or more.
//! let mut written = 0;
//! let status = pops_report(false, false, input, output, &mut written);
//! let report = &output[..written];
//! ```
//!
//! The interface is `pops_report`, `pops_tries`, `pops_list`, `pops_faults` and `pops_part`, which are exported by
//! these names. They use a source and a sink in memory, `text_source` and `memory_sink`. `specs/Page.antt` and
//! `specs/ties/FaultsShown.antt` define what the calls return. No call allocates.
#![tactic(auto)]

mod memory_sink;
mod page;
mod text_source;

pub use page::{pops_faults, pops_list, pops_part, pops_report, pops_tries};
