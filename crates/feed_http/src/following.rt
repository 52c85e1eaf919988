//! The reading of a response, whose feed goes to a mirror.
ghost use Rattle.std.specs.Prelude.{◌≡◌, [], None};
ghost use Rattle.feed_follow.specs.Standing.{in_head};
ghost use Rattle.feed_follow.specs.Follower.{FollowsAt};
ghost use Rattle.feed_http.specs.Device.{RoseAtMost};
ghost use Rattle.feed_http.specs.Exchange.{gave_by, failed_reads_after};
ghost use Rattle.feed_http.specs.Following.{Comes, Follows};

use crate::device::{Failed, FeedRead};
use crate::fault::{EngineFault, Followed};
use crate::head_reading::READ_BYTES;
use feed_follow::{Follower, Progress, follow_laws};
use feed_node::Mirror;
use std::alloc::Global;

/// Pushes a response to a follower, piece by piece, until it is over.
fn push_response<R: FeedRead>(
    alloc: Global,
    reader: &mut R,
    follower: &mut Follower,
    mirror: &mut Mirror,
    most_reads: u64,
) -> Result<Followed, EngineFault>
    requires { FollowsAt mirror.old [] in_head follower.old mirror.old }
    ensures came { let gave = gave_by R.remaining R.reads R.failures reader.old reader.new in
        Comes most_reads gave mirror.old result mirror.new }
    ensures failures { R.failures reader.new
        ≡ failed_reads_after (R.failures reader.old) result }
    ensures reads { RoseAtMost (R.reads reader.old) (R.reads reader.new) most_reads }
{
    // What no `Closed` rests on.
    follow_laws();
    let mut piece = [0u8; READ_BYTES];
    let mut at_end = Followed::Early;
    'pieces: for _ in 0..most_reads {
        let len = match reader.read_some(&mut piece) {
            Ok(0) => return Ok(at_end),
            Ok(len) => len,
            Err(Failed) => return Err(EngineFault::Read),
        };
        at_end = match follower.push(alloc, mirror, &piece[..len])? {
            Progress::Head => Followed::Early,
            Progress::Body => Followed::Ended,
            Progress::Done => return Ok(Followed::Done),
            Progress::TokenRefused => return Ok(Followed::TokenRefused),
        };
    }
    Err(EngineFault::TooManyReads)
}

/// Reads the response to what a mirror asked with, in at most so many reads (`most_reads`) of at
/// most 4,096 bytes, and feeds what it carries to the mirror, which is then cut: until the reader
/// ends, the body is whole, or the token is refused. Where a read fails or is one too many, the
/// response still went on, and what it published stands. A fault of the response is that of the
/// last piece; running out of memory is one of these, and leaves what the earlier pieces published,
/// or more.
pub fn follow<R: FeedRead>(
    alloc: Global,
    reader: &mut R,
    mirror: &mut Mirror,
    most_reads: u64,
) -> Result<Followed, EngineFault>
    ensures followed { let gave = gave_by R.remaining R.reads R.failures reader.old reader.new in
        Follows most_reads gave mirror.old result mirror.new }
    ensures cut { mirror.new.connection ≡ None }
    ensures failures { R.failures reader.new
        ≡ failed_reads_after (R.failures reader.old) result }
    ensures reads { RoseAtMost (R.reads reader.old) (R.reads reader.new) most_reads }
{
    let mut follower = Follower::new(mirror);
    let followed = push_response(alloc, reader, &mut follower, mirror, most_reads);
    follower.end(mirror);
    followed
}
