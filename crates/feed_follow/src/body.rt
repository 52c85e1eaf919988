//! The body of a response, whose payload goes to a mirror.
ghost use Rattle.feed_wire.specs.declared.chunk.Chunking.{Chunking as Place};
ghost use Rattle.std.specs.Prelude.{◌≡◌, ◌≢◌, ◌<◌, ◌≤◌, ℕ, List, [], length, take, IfOk, IfErr, OnOk};
ghost use Rattle.feed_wire.specs.ChunkReading.{IsChunkPlace};
ghost use Rattle.feed_follow.specs.Follower.{IsPart};
ghost use Rattle.feed_follow.specs.Feeding.{HasFed, StopsFeeding, FeedsChunks, FeedsToEnd, StopsInChunks, BodyGoesOn, BodyStops};

use crate::FollowFault;
use crate::follower::Part;
use feed_node::Mirror;
use feed_wire::{Chunking, after_byte};
use std::alloc::Global;

/// Feeds bytes of the payload.
fn feed_payload(alloc: Global, mirror: &mut Mirror, bytes: &[u8]) -> Result<(), FollowFault>
    ensures ok { OnOk result (HasFed mirror.old bytes.now mirror.new) }
    ensures err { IfErr result (StopsFeeding mirror.old bytes.now mirror.new) }
    ensures limits { mirror.new.limits ≡ mirror.old.limits }
{
    mirror.feed(alloc, bytes)?;
    Ok(())
}

/// How many of the next bytes belong to a text of which so many are still to come.
fn len_within(left: u64, bytes: &[u8]) -> usize
    ensures within { result ≤ length bytes.now }
    ensures fits { result ≤ left }
    ensures all { result < length bytes.now → result ≡ left }
{
    let len = bytes.len();
    if left < len as u64 {
        left as usize
    } else {
        len
    }
}

/// Reads as many bytes of a chunk as there are, where so many of them are still to come, and
/// answers how many these are.
fn feed_data(
    alloc: Global,
    mirror: &mut Mirror,
    left: u64,
    bytes: &[u8],
) -> Result<(Chunking, usize), FollowFault>
    requires left { 0 < left }
    requires some { 0 < length bytes.now }
    ensures place { IfOk result (λ r. IsChunkPlace r.0) }
    ensures some { IfOk result (λ r. 0 < r.1) }
    ensures within { IfOk result (λ r. r.1 ≤ length bytes.now) }
    ensures ok { IfOk result (λ r. FeedsChunks (Place.InBytes left) (take r.1 bytes.now) mirror.old
        r.0 mirror.new) }
    ensures err { IfErr result (StopsInChunks (Place.InBytes left) bytes.now
        mirror.old mirror.new) }
    ensures limits { mirror.new.limits ≡ mirror.old.limits }
{
    let len = len_within(left, bytes);
    feed_payload(alloc, mirror, &bytes[..len])?;
    let to = if left == len as u64 {
        Chunking::BytesEnd
    } else {
        Chunking::InBytes(left - len as u64)
    };
    Ok((to, len))
}

/// Reads a byte of a chunked body, or as many as there are of a chunk's, and answers how many these
/// are.
fn feed_chunk(
    alloc: Global,
    mirror: &mut Mirror,
    at: Chunking,
    bytes: &[u8],
) -> Result<(Chunking, usize), FollowFault>
    requires place { IsChunkPlace at }
    requires going { at ≢ Place.Whole }
    requires some { 0 < length bytes.now }
    ensures place { IfOk result (λ r. IsChunkPlace r.0) }
    ensures some { IfOk result (λ r. 0 < r.1) }
    ensures within { IfOk result (λ r. r.1 ≤ length bytes.now) }
    ensures ok { IfOk result (λ r. FeedsChunks at (take r.1 bytes.now) mirror.old r.0 mirror.new) }
    ensures err { IfErr result (StopsInChunks at bytes.now mirror.old mirror.new) }
    ensures limits { mirror.new.limits ≡ mirror.old.limits }
{
    if let Chunking::InBytes(left) = at {
        return feed_data(alloc, mirror, left, bytes);
    }
    match after_byte(at, bytes[0]) {
        Some(to) => Ok((to, 1)),
        None => Err(FollowFault::BadChunk),
    }
}

/// Reads the next bytes of a chunked body; what comes after the body is ignored.
fn feed_chunks(
    alloc: Global,
    mirror: &mut Mirror,
    from: Chunking,
    piece: &[u8],
) -> Result<Chunking, FollowFault>
    requires { IsChunkPlace from }
    ensures place { IfOk result IsChunkPlace }
    ensures ok { IfOk result (λ to. FeedsToEnd from piece.now mirror.old to mirror.new) }
    ensures err { IfErr result (StopsInChunks from piece.now mirror.old mirror.new) }
    ensures limits { mirror.new.limits ≡ mirror.old.limits }
{
    let mut at = from;
    let mut read = 0;
    'chunks: while read < piece.len() {
        if matches!(at, Chunking::Whole) {
            return Ok(at);
        }
        let (to, len) = feed_chunk(alloc, mirror, at, &piece[read..])?;
        at = to;
        read += len;
    }
    Ok(at)
}

/// Reads the next bytes of a body of which so many are still to come.
fn feed_sized(
    alloc: Global,
    mirror: &mut Mirror,
    left: u64,
    piece: &[u8],
) -> Result<Part, FollowFault>
    ensures part { IfOk result IsPart }
    ensures ok { IfOk result (BodyGoesOn (Part.Sized left) piece.now mirror.old mirror.new) }
    ensures err { IfErr result (BodyStops (Part.Sized left) piece.now mirror.old mirror.new) }
    ensures limits { mirror.new.limits ≡ mirror.old.limits }
{
    let len = len_within(left, piece);
    feed_payload(alloc, mirror, &piece[..len])?;
    if left == len as u64 {
        Ok(Part::Done)
    } else {
        Ok(Part::Sized(left - len as u64))
    }
}

/// Reads the next bytes of a chunked body.
fn feed_chunked(
    alloc: Global,
    mirror: &mut Mirror,
    at: Chunking,
    piece: &[u8],
) -> Result<Part, FollowFault>
    requires { IsChunkPlace at }
    ensures part { IfOk result IsPart }
    ensures ok { IfOk result (BodyGoesOn (Part.InChunks at) piece.now mirror.old mirror.new) }
    ensures err { IfErr result (BodyStops (Part.InChunks at) piece.now mirror.old mirror.new) }
    ensures limits { mirror.new.limits ≡ mirror.old.limits }
{
    match feed_chunks(alloc, mirror, at, piece)? {
        Chunking::Whole => Ok(Part::Done),
        to => Ok(Part::InChunks(to)),
    }
}

/// Reads the next bytes of a body up to the end of the connection.
fn feed_open(alloc: Global, mirror: &mut Mirror, piece: &[u8]) -> Result<Part, FollowFault>
    ensures part { IfOk result IsPart }
    ensures ok { IfOk result (BodyGoesOn Part.ToEnd piece.now mirror.old mirror.new) }
    ensures err { IfErr result (BodyStops Part.ToEnd piece.now mirror.old mirror.new) }
    ensures limits { mirror.new.limits ≡ mirror.old.limits }
{
    feed_payload(alloc, mirror, piece)?;
    Ok(Part::ToEnd)
}

/// Reads the next bytes of a body in this part of it.
pub(crate) fn feed_body(
    alloc: Global,
    mirror: &mut Mirror,
    part: Part,
    piece: &[u8],
) -> Result<Part, FollowFault>
    requires { IsPart part }
    ensures part { IfOk result IsPart }
    ensures ok { IfOk result (BodyGoesOn part piece.now mirror.old mirror.new) }
    ensures err { IfErr result (BodyStops part piece.now mirror.old mirror.new) }
    ensures limits { mirror.new.limits ≡ mirror.old.limits }
{
    match part {
        Part::Sized(left) => feed_sized(alloc, mirror, left, piece),
        Part::InChunks(at) => feed_chunked(alloc, mirror, at, piece),
        Part::ToEnd => feed_open(alloc, mirror, piece),
        _ => Ok(part),
    }
}
