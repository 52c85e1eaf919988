//! One connection, from its beginning to its end.

ghost use Rattle.std.specs.Prelude.{OnOk, IfErr};
ghost use Rattle.keep_a_mirror.specs.Following.{HasFollowed, HasGivenUp};

use feed_node::{FeedFault, Mirror};
use std::alloc::Global;

/// As many bytes as are fed at once. What the mirror shows doesn't depend on it.
const PIECE: usize = 32;

/// Feeds a mirror all that a connection brings.
///
/// After `Ok` the mirror shows exactly what the lines of the connection publish, however the bytes
/// were cut into pieces: that is `ok`. A connection may end anywhere; what it brought behind its
/// last line with a token is dropped. After a fault, as of a line that has no meaning, the mirror
/// shows what the good lines before it published: that is `err`. Either way the connection is gone.
pub fn follow(alloc: Global, mirror: &mut Mirror, connection: &[u8]) -> Result<(), FeedFault>
    ensures ok { OnOk result (HasFollowed mirror.old connection.now mirror.new) }
    ensures err { IfErr result (λ fault. HasGivenUp mirror.old connection.now fault mirror.new) }
{
    mirror.begin();
    let mut rest = connection;
    while !rest.is_empty() {
        let (piece, behind) = rest.split_at(PIECE.min(rest.len()));
        // Answers how many times the mirror published: a screen is drawn again where it did.
        mirror.feed(alloc, piece)?;
        rest = behind;
    }
    mirror.cut();
    Ok(())
}
