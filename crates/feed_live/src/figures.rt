//! What a relay counts, for those who watch it.

ghost use Rattle.std.specs.Prelude.{◌≡◌, option_map};
ghost use Rattle.slab.specs.Slab.{slab_len};
ghost use Rattle.feed_files.specs.Figures.{figures_of};
ghost use Rattle.feed_live.specs.Answering.{is_answering};

use crate::turn::Live;
use feed_figures::{FeedFigures, ServerFigures};
use feed_files::FileFigures;
use feed_screens::{ScreenFigures, ScreenRow};
use std::alloc::{AllocError, Global};

impl Live {
    /// What was counted of the feed.
    pub fn feed_figures(&self) -> FeedFigures {
        self.source.figures()
    }

    /// What is known of each server that was asked, at its number.
    pub fn server_figures(&self) -> &[ServerFigures] {
        self.source.servers()
    }

    /// What was counted of the screens. Takes time in proportion to how many there are.
    pub fn screen_figures(&self) -> ScreenFigures {
        self.screens.figures()
    }

    /// How many screens there are.
    pub fn screens_open(&self) -> usize
        ensures { result ≡ slab_len self.now.screens.conns }
    {
        self.screens.open()
    }

    /// At most so many of the screens, the slowest first: who lacks most, then who came first.
    /// Takes time in proportion to how many there are.
    pub fn screen_rows(&self, alloc: Global, most: usize) -> Result<Vec<ScreenRow>, AllocError> {
        self.screens.rows(alloc, most)
    }

    /// Whether a request that came long enough ago for everything is answered with it.
    pub fn is_answering(&self) -> bool
        ensures { result ≡ is_answering self.now.source }
    {
        self.source.is_heard() && self.source.node().token().is_some()
    }

    /// What was counted of the state file; none where there is no such file.
    pub fn file_figures(&self) -> Option<FileFigures>
        ensures { result ≡ option_map figures_of self.now.saved }
    {
        Some(self.saved.as_ref()?.figures())
    }
}
