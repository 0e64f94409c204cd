//! The outside of the checker: where the bytes of a file come from and where the output goes.
//!
//! Two traits say what the program may know of the outside. A source of files (`Files`) tells, where it can,
//! which bytes lie under a name and what is left of the file that is being read; a sink (`Sink`) tells which
//! bytes it has taken. Each keeps a count of its faults, and a call answers `Failed` only where that count
//! rose in the call. So a caller that proves something for every source and every sink has proved it for the
//! disk, where nothing is told, and for memory, where all is told:
//!
//! - `MemoryFiles` and `MemorySink` fail exactly where a list of call numbers says so,
//! - `SureFiles` never fails,
//! - `RealFiles` and `RealOut` are the disk and the standard output, and promise nothing of content.
#![tactic(auto)]

mod memory;
mod real;
mod traits;

pub use memory::{MemoryFiles, MemorySink, SureFiles};
pub use real::{RealFiles, RealOut};
pub use traits::{Failed, Files, Sink};
