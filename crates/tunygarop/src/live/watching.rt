//! What the status port tells: what the relay counts, as one value, and what is looked up of it.

use feed_commands::VERSION;
use feed_live::Live;
use feed_process::{
    Standing, Watched, Words, file_of, screen_of, screens_of, server_of, upstream_of,
};
use feed_status::{Plots, Process, Status, Watch, WatchedScreen, WatchedServer};
use feed_system::process;
use std::alloc::{AllocError, Global};

/// A relay at a moment, for those who watch it.
#[derive(Clone, Copy)]
pub(crate) struct View<'a> {
    pub(crate) rt: &'a HostRuntime,
    pub(crate) live: &'a Live,
    pub(crate) watched: &'a Watched,
    pub(crate) words: &'a Words,
    /// How many connections were refused by their address.
    pub(crate) refused: u64,
    pub(crate) now: u64,
}

impl Watch for View<'_> {
    fn status(&self) -> Status<'_> {
        let feed = self.live.feed_figures();
        let node = self.live.node();
        // The size counts one for each type, and one for each object of a collection.
        let size = node.published().map(|tables| tables.size()).unwrap_or(0);
        let types = node
            .published()
            .map(|tables| tables.count_types())
            .unwrap_or(0);
        Status {
            version: VERSION,
            contest: self.watched.contest.as_str(),
            uptime_ms: self.now,
            silence_ms: self.watched.silence,
            answering: self.live.is_answering(),
            upstream: upstream_of(&feed, self.words, self.now),
            token: node.token().map(|token| token.text()),
            commits: feed.commits,
            commit_age_ms: feed.committed.map(|at| self.now.saturating_sub(at)),
            types: types as u64,
            objects: size.saturating_sub(types) as u64,
            bytes: feed.bytes,
            refused_by_address: self.refused,
            screens: screens_of(&self.live.screen_figures()),
            state_file: file_of(self.live.file_figures(), self.words, self.now),
            latency: self.watched.latency,
            plot: self.watched.plots.latest(),
        }
    }

    fn servers(&self, alloc: Global) -> Result<Vec<WatchedServer>, AllocError> {
        let feed = self.live.feed_figures();
        let token = self.live.node().token().map(|token| token.text());
        let standing = Standing {
            feed: &feed,
            token,
            now: self.now,
        };
        let mut told = Vec::new(alloc);
        let named = self.words.servers.iter().zip(self.live.server_figures());
        for (number, (name, server)) in named.enumerate() {
            told.push(server_of(alloc, number, name.as_str(), server, standing)?)?;
        }
        Ok(told)
    }

    fn screens(&self, alloc: Global, most: usize) -> Result<Vec<WatchedScreen>, AllocError> {
        let mut screens = Vec::new(alloc);
        for row in &self.live.screen_rows(alloc, most)? {
            screens.push(screen_of(alloc, row, self.now)?)?;
        }
        Ok(screens)
    }

    fn plots(&self) -> &Plots {
        &self.watched.plots
    }

    fn process(&self) -> Option<Process> {
        process(self.rt, self.watched.began)
    }
}
