//! Where connections come from: only a program opens sockets.
ghost use Rattle.std.specs.Prelude.{◌≡◌, ℕ, Option};
ghost use Rattle.feed_relay.specs.Misses.{misses_after};

use feed_http::{FeedRead, FeedWrite};

/// What opens connections to servers.
pub trait Dial {
    /// What a server sends is read from.
    type Reader: FeedRead + Drop;

    /// What a server is sent is written to.
    type Writer: FeedWrite + Drop;

    // How many calls opened none. The count stays at `u64::MAX`.
    ghost misses: { Self → ℕ };

    // What a call for the server of this number makes of it, and which connection that opens.
    ghost dials: { Self → ℕ → Self → Option (Self.Reader × Self.Writer) → Type 0 };

    // What it is once a connection, at these ends, was given back.
    ghost closes: { Self → Self.Reader → Self.Writer → Self → Type 0 };

    /// Opens a connection to the server of this number, counted from 0.
    fn dial(&mut self, server: usize) -> Option<(Self::Reader, Self::Writer)>
        ensures misses { misses self.new ≡ misses_after (misses self.old) result }
        ensures dialed { dials self.old server self.new result };

    /// Takes a connection back that it opened, and closes it.
    fn close(&mut self, reader: Self::Reader, writer: Self::Writer)
        ensures misses { misses self.new ≡ misses self.old }
        ensures closed { closes self.old reader writer self.new };
}

/// What followers connect to.
pub trait Accept {
    /// What a follower sends is read from.
    type Reader: FeedRead + Drop;

    /// What a follower is sent is written to.
    type Writer: FeedWrite + Drop;

    // How many calls accepted none. The count stays at `u64::MAX`.
    ghost misses: { Self → ℕ };

    // What a call makes of it, and which connection that accepts.
    ghost accepts: { Self → Self → Option (Self.Reader × Self.Writer) → Type 0 };

    // What it is once a connection, at these ends, was given back.
    ghost closes: { Self → Self.Reader → Self.Writer → Self → Type 0 };

    /// Waits for the next follower.
    fn accept(&mut self) -> Option<(Self::Reader, Self::Writer)>
        ensures misses { misses self.new ≡ misses_after (misses self.old) result }
        ensures accepted { accepts self.old self.new result };

    /// Takes a connection back that it accepted, and closes it.
    fn close(&mut self, reader: Self::Reader, writer: Self::Writer)
        ensures misses { misses self.new ≡ misses self.old }
        ensures closed { closes self.old reader writer self.new };
}
