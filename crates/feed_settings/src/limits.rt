//! How much a node keeps.

ghost use Rattle.std.specs.Prelude.{◌≡◌, ◌<◌, None, Some, IfOk, OnErr};
ghost use Rattle.feed_settings.specs.Limits.{IsInRange, IsMemory, by_count, history_of, most_memory};

use std::marker::Model;
use thiserror::Error;

/// The limits are out of range.
#[derive(Clone, Copy, Debug, PartialEq, Eq, Error)]
#[error("bad limits")]
pub struct BadLimits;

/// How many commits any node keeps at most.
pub const MOST_COMMITS: usize = 65_536;

/// How many changes may wait for a token at any node at most; and the greatest size of any
/// published tables.
pub const MOST_CHANGES: usize = 1_000_000;

/// How many bytes the memory of any node is limited to at most.
pub const MOST_MEMORY: usize = 1_000_000_000_000;

/// How many commits a node keeps, 1 to [`MOST_COMMITS`], and how many changes may wait for a token,
/// 1 to [`MOST_CHANGES`]; the second bounds the size of the tables that it publishes, too. Where
/// its memory is limited, so are the bytes of the objects that wait, of those in these tables, and
/// of those in the commits that it keeps. The last may be limited alone.
#[derive(Clone, Copy)]
pub struct Limits {
    history: usize,
    history_bytes: Option<usize>,
    staged: usize,
    memory: Option<usize>,
}

impl Model for Limits {
    ghost use Rattle.feed_settings.specs.Limits.{Limits, IsInRange, IsMemory, history_of};

    ghost Value = { Limits };

    ghost view = { λ a. record {
      history = history_of a.history a.history_bytes;
      staged = a.staged;
      memory = a.memory;
    } };

    ghost inverse = { λ b. record {
      history = b.history.commits;
      history_bytes = b.history.bytes;
      staged = b.staged;
      memory = b.memory;
    } };

    ghost invariant = { λ a. IsInRange a.history a.staged × IsMemory a.history_bytes
        × IsMemory a.memory };
}

impl Limits {
    /// The limits, where they are in range. Bytes are not limited.
    pub fn new(history: usize, staged: usize) -> Result<Limits, BadLimits>
        ensures ok { IfOk result (λ limits. limits
            ≡ record { history = by_count history; staged = staged; memory = None }) }
        ensures within { IfOk result (λ limits. IsInRange limits.history.commits limits.staged) }
        ensures err { OnErr result (¬ (IsInRange history staged)) }
    {
        if (1..=MOST_COMMITS).contains(&history) && (1..=MOST_CHANGES).contains(&staged) {
            Ok(Limits {
                history,
                history_bytes: None,
                staged,
                memory: None,
            })
        } else {
            Err(BadLimits)
        }
    }

    /// The same where memory is limited to so many bytes, [`MOST_MEMORY`] at most: those of the
    /// objects that wait for a token, those of the objects in published tables, and those of the
    /// objects in kept commits, each with its id and the name of its type.
    pub fn with_memory(self, bytes: usize) -> Result<Limits, BadLimits>
        ensures ok { IfOk result (λ limits. limits ≡ record {
          history = history_of self.history.commits (Some bytes);
          staged = self.staged;
          memory = Some bytes;
        }) }
        ensures err { OnErr result (most_memory < bytes) }
    {
        if bytes > MOST_MEMORY {
            return Err(BadLimits);
        }
        Ok(Limits {
            history_bytes: Some(bytes),
            memory: Some(bytes),
            ..self
        })
    }

    /// The same where the objects in kept commits have so many bytes at most, [`MOST_MEMORY`] at
    /// most, each with its id and the name of its type. Nothing else is limited by it.
    pub fn with_history_bytes(self, bytes: usize) -> Result<Limits, BadLimits>
        ensures ok { IfOk result (λ limits. limits ≡ record {
          history = history_of self.history.commits (Some bytes);
          staged = self.staged;
          memory = self.memory;
        }) }
        ensures err { OnErr result (most_memory < bytes) }
    {
        if bytes > MOST_MEMORY {
            return Err(BadLimits);
        }
        Ok(Limits {
            history_bytes: Some(bytes),
            ..self
        })
    }

    /// How many bytes memory is limited to, where it is, [`MOST_MEMORY`] at most.
    pub fn memory(self) -> Option<usize>
        ensures memory { result ≡ self.memory }
        ensures within { IsMemory self.memory }
    {
        self.memory
    }

    /// How many commits are kept at most, 1 to [`MOST_COMMITS`].
    pub fn history(self) -> usize
        ensures history { result ≡ self.history.commits }
        ensures within { IsInRange self.history.commits self.staged }
    {
        self.history
    }

    /// How many bytes the objects in kept commits have at most, where that is limited,
    /// [`MOST_MEMORY`] at most. A commit of more is kept alone.
    pub fn history_bytes(self) -> Option<usize>
        ensures bytes { result ≡ self.history.bytes }
        ensures within { IsMemory self.history.bytes }
    {
        self.history_bytes
    }

    /// How many changes may wait for a token at most, 1 to [`MOST_CHANGES`]; and the greatest size
    /// of published tables.
    pub fn staged(self) -> usize
        ensures staged { result ≡ self.staged }
        ensures within { IsInRange self.history.commits self.staged }
    {
        self.staged
    }
}
