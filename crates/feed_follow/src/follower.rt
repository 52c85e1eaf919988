//! A reader of one response, which feeds what it carries to a mirror.
ghost use Rattle.std.specs.Prelude.{◌≡◌, ◌≢◌, ◌≤◌, ◌⊎◌, ◌+◌, ◌++◌, ℕ, List, [], length, is_some, None, Ok, Err, IfOk, IfErr, IfSome, IfNone};
ghost use Rattle.feed_node.specs.Mirroring.{MirrorState, cut_off};
ghost use Rattle.feed_follow.specs.declared.fault.FollowFault.{FollowFault as Fault};
ghost use Rattle.feed_follow.specs.Standing.{Standing, in_head};
ghost use Rattle.feed_follow.specs.Following.{Fails};
ghost use Rattle.feed_follow.specs.Follower.{FollowsAt, GoesOn, GoesOnOrRefuses, IsPart, IsPush, first_part as part_for, progress as reached};
ghost use Rattle.feed_follow.specs.HeadRead.{IsHeadRead, IsNoHead, IsUnfinished};
ghost use Rattle.feed_wire.specs.HeadSizes.{head_bytes};
ghost use Rattle.feed_follow.specs.Keeping.{kept_bytes, follower_of, KeepsLittle, HeadGoesOn, HeadStops};

use crate::body::feed_body;
use crate::coding::BodyFraming;
use crate::heads::{Verdict, WholeHead, look_at_head};
use crate::{FollowFault, Progress};
use feed_node::Mirror;
use feed_wire::{Chunking, HEAD_BYTES};
use std::alloc::{AllocError, Global};
use std::marker::Model;

/// What is read next: the head; a body to the end of the connection, one of which so many bytes are
/// still to come, or a chunked one; nothing, since the body is whole; or nothing more.
#[derive(Clone, Copy)]
pub(crate) enum Part {
    Head,
    ToEnd,
    Sized(u64),
    InChunks(Chunking),
    Done,
    Closed,
}

/// Reads a response in any pieces, and feeds its payload to a mirror.
#[derive(Drop)]
pub struct Follower {
    had_token: bool,
    // The bytes of an unfinished head.
    kept: Option<Vec<u8>>,
    part: Part,
}

impl Model for Follower {
    ghost use Rattle.feed_follow.specs.Follower.{FollowerState};
    ghost use Rattle.feed_follow.specs.Codes.{follower_code};

    ghost Value = { FollowerState };

    ghost coded = { follower_code };

    ghost use Rattle.feed_follow.specs.Keeping.{follower_of, KeepsLittle};

    ghost view = { λ a. follower_of a.had_token a.kept a.part };

    ghost invariant = { λ a. KeepsLittle a.kept a.part };
}

impl Follower {
    /// A reader of the response to a request with the mirror's `since`, which is to stay the same
    /// until the head has been read.
    pub fn new(mirror: &Mirror) -> Follower
        ensures { FollowsAt mirror.now [] in_head result mirror.now }
    {
        Follower {
            had_token: mirror.since().is_some(),
            kept: None,
            part: Part::Head,
        }
    }

    /// Reads the next bytes of the response, in any pieces. At a head with status 200 the mirror
    /// begins, and is then fed what the body carries; at status 400 after a request with a token,
    /// its token is refused, and the follower is closed. After a fault the mirror is cut, and the
    /// follower closed. Bytes after a whole body are ignored.
    pub fn push(
        &mut self,
        alloc: Global,
        mirror: &mut Mirror,
        piece: &[u8],
    ) -> Result<Progress, FollowFault>
        ensures push { IsPush piece.now self.old self.new mirror.old mirror.new result }

        // wherever the response stands
        ensures ok { (start : MirrorState) (before : List ℕ) (standing : Standing)
            → FollowsAt start before standing self.old mirror.old
            → IfOk result (GoesOn start (before ++ piece.now) self.new mirror.new) }
        ensures err { (start : MirrorState) (before : List ℕ) (standing : Standing)
            → FollowsAt start before standing self.old mirror.old
            → IfErr result (Fails start self.old.had_token before piece.now mirror.new) }
    {
        match self.push_keeping_token(alloc, mirror, piece)? {
            Progress::TokenRefused => {
                mirror.refused();
                Ok(Progress::TokenRefused)
            }
            progress => Ok(progress),
        }
    }

    /// Reads the next bytes as `push` does, but leaves a refused token to its caller: the mirror is
    /// cut then, and asks with the token again, so that another server may be asked with it.
    /// `Mirror::refused` has it forgotten.
    pub fn push_keeping_token(
        &mut self,
        alloc: Global,
        mirror: &mut Mirror,
        piece: &[u8],
    ) -> Result<Progress, FollowFault>
        ensures push { IsPush piece.now self.old self.new mirror.old mirror.new result }

        // wherever the response stands
        ensures ok { (start : MirrorState) (before : List ℕ) (standing : Standing)
            → FollowsAt start before standing self.old mirror.old
            → IfOk result (GoesOnOrRefuses start (before ++ piece.now) self.new mirror.new) }
        ensures err { (start : MirrorState) (before : List ℕ) (standing : Standing)
            → FollowsAt start before standing self.old mirror.old
            → IfErr result (Fails start self.old.had_token before piece.now mirror.new) }
    {
        if matches!(self.part, Part::Closed) {
            return Err(FollowFault::Closed);
        }
        if piece.is_empty() {
            return Ok(progress(self.part));
        }
        match read_part(
            alloc,
            mirror,
            self.had_token,
            self.part,
            &mut self.kept,
            piece,
        ) {
            Ok(part) => {
                self.part = part;
                Ok(progress(part))
            }
            Err(fault) => {
                self.close(mirror);
                Err(fault)
            }
        }
    }

    /// Nothing more is read, and the mirror is cut.
    fn close(&mut self, mirror: &mut Mirror)
        ensures cut { mirror.new ≡ cut_off mirror.old }
        ensures kept { self.new.kept ≡ [] }
        ensures part { self.new.part ≡ Part.Closed }
        ensures asked { self.new.had_token ≡ self.old.had_token }
    {
        mirror.cut();
        self.kept = None;
        self.part = Part::Closed;
    }

    /// The response has ended, or is left.
    pub fn end(self, mirror: &mut Mirror)
        ensures { mirror.new ≡ cut_off mirror.old }
    {
        let mut left = self;
        left.close(mirror);
    }
}

/// How far a response has come of which this part is next.
fn progress(part: Part) -> Progress
    ensures { result ≡ reached part }
{
    match part {
        Part::Head => Progress::Head,
        Part::Done => Progress::Done,
        Part::Closed => Progress::TokenRefused,
        _ => Progress::Body,
    }
}

/// The part of a response after a head that frames its body so.
fn first_part(framing: BodyFraming) -> Part
    ensures { result ≡ part_for framing }
{
    match framing {
        BodyFraming::ToEnd => Part::ToEnd,
        BodyFraming::Sized(0) => Part::Done,
        BodyFraming::Sized(length) => Part::Sized(length),
        BodyFraming::InChunks => Part::InChunks(Chunking::LineStart),
    }
}

fn kept_len(kept: &Option<Vec<u8>>) -> usize
    ensures { result ≡ length (kept_bytes kept.now) }
{
    match kept {
        Some(head) => head.len(),
        None => 0,
    }
}

/// The bytes of the head so far, with these after them.
fn with_more(alloc: Global, kept: Option<Vec<u8>>, bytes: &[u8]) -> Result<Vec<u8>, AllocError>
    ensures { IfOk result (λ head. head.items ≡ kept_bytes kept ++ bytes.now) }
{
    let mut head = match kept {
        Some(head) => head,
        None => Vec::new(alloc),
    };
    head.extend_from_slice(bytes)?;
    Ok(head)
}

/// Looks at the bytes of the head so far and these after them, which are kept while no head is
/// whole.
fn look_further(
    alloc: Global,
    had_token: bool,
    kept: &mut Option<Vec<u8>>,
    bytes: &[u8],
) -> Result<Option<WholeHead>, FollowFault>
    ensures whole { IfOk result (λ found. IfSome found
        (IsHeadRead had_token (kept_bytes kept.old ++ bytes.now))) }
    ensures unfinished { IfOk result (λ found. IfNone found
        (IsUnfinished (kept_bytes kept.old ++ bytes.now))) }
    ensures err { IfErr result (λ fault. (fault ≡ Fault.Memory)
        ⊎ IsNoHead had_token (kept_bytes kept.old ++ bytes.now) fault) }
    ensures kept { IfOk result (λ found. IfNone found
        (kept_bytes kept.new ≡ kept_bytes kept.old ++ bytes.now)) }
    ensures bounded { length (kept_bytes kept.new)
        ≤ length (kept_bytes kept.old) + length bytes.now }
{
    let head = with_more(alloc, kept.take(), bytes)?;
    match look_at_head(had_token, &head)? {
        Some(whole) => Ok(Some(whole)),
        None => {
            *kept = Some(head);
            Ok(None)
        }
    }
}

/// Reads the next bytes of a head, and what stands of the body after it.
fn read_head(
    alloc: Global,
    mirror: &mut Mirror,
    had_token: bool,
    kept: &mut Option<Vec<u8>>,
    piece: &[u8],
) -> Result<Part, FollowFault>
    requires { length (kept_bytes kept.old) ≤ head_bytes }
    ensures part { IfOk result IsPart }
    ensures bounded { length (kept_bytes kept.new) ≤ head_bytes }
    ensures ok { IsUnfinished (kept_bytes kept.old) → IfOk result (HeadGoesOn had_token
        (kept_bytes kept.old ++ piece.now) mirror.old (kept_bytes kept.new) mirror.new) }
    ensures err { IsUnfinished (kept_bytes kept.old) → IfErr result
        (HeadStops had_token (kept_bytes kept.old) piece.now mirror.old mirror.new) }
    ensures limits { mirror.new.limits ≡ mirror.old.limits }
{
    let before = kept_len(kept);
    let len = piece.len().min(HEAD_BYTES - before);
    let Some(whole) = look_further(alloc, had_token, kept, &piece[..len])? else {
        if len < piece.len() {
            return Err(FollowFault::LongHead);
        }
        return Ok(Part::Head);
    };
    let Verdict::Body(framing) = whole.says else {
        mirror.cut();
        return Ok(Part::Closed);
    };
    mirror.begin();
    let body = &piece[whole.len.saturating_sub(before)..];
    feed_body(alloc, mirror, first_part(framing), body)
}

/// Reads the next bytes of a response in this part of it.
fn read_part(
    alloc: Global,
    mirror: &mut Mirror,
    had_token: bool,
    part: Part,
    kept: &mut Option<Vec<u8>>,
    piece: &[u8],
) -> Result<Part, FollowFault>
    requires keeps { KeepsLittle kept.old part }
    requires going { part ≢ Part.Closed }
    ensures part { IfOk result IsPart }
    ensures bounded { length (kept_bytes kept.new) ≤ head_bytes }

    // wherever the response stands
    ensures ok { (start : MirrorState) (before : List ℕ) (standing : Standing)
        → FollowsAt start before standing (follower_of had_token kept.old part) mirror.old
        → IfOk result (λ to. GoesOnOrRefuses start (before ++ piece.now)
        (follower_of had_token kept.new to) mirror.new (reached to)) }
    ensures err { (start : MirrorState) (before : List ℕ) (standing : Standing)
        → FollowsAt start before standing (follower_of had_token kept.old part) mirror.old
        → IfErr result (Fails start had_token before piece.now (cut_off mirror.new)) }
    ensures done { part ≡ Part.Done → (result ≡ Ok Part.Done) × (mirror.new ≡ mirror.old) }
    ensures done_stays { part ≡ Part.Done → kept_bytes kept.new ≡ kept_bytes kept.old }
    ensures limits { mirror.new.limits ≡ mirror.old.limits }
{
    match part {
        Part::Head => read_head(alloc, mirror, had_token, kept, piece),
        Part::Done => Ok(Part::Done),
        _ => feed_body(alloc, mirror, part, piece),
    }
}
