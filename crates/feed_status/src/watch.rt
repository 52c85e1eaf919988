//! A relay that is watched.

use crate::plots::Plots;
use crate::screens::WatchedScreen;
use crate::servers::WatchedServer;
use crate::status::Status;
use std::alloc::{AllocError, Global};

/// What the system counts of the process.
#[derive(Clone, Copy)]
pub struct Process {
    /// When it began, in milliseconds after 1970.
    pub began_ms: u64,
    /// How long it had a processor, in milliseconds.
    pub processor_ms: u64,
    /// How much memory it has that is not swapped out.
    pub resident_bytes: u64,
    /// How many files and sockets it has open.
    pub open_files: u64,
}

/// A relay that is watched. What takes time is looked up only where it is asked for.
pub trait Watch {
    /// How it is at this moment.
    fn status(&self) -> Status<'_>;

    /// Its servers, in the order of their numbers.
    fn servers(&self, alloc: Global) -> Result<Vec<WatchedServer>, AllocError>;

    /// At most so many of its screens, the slowest first.
    fn screens(&self, alloc: Global, most: usize) -> Result<Vec<WatchedScreen>, AllocError>;

    /// Its last ten minutes.
    fn plots(&self) -> &Plots;

    /// What the system counts of its process; none where that can't be read.
    fn process(&self) -> Option<Process>;
}
