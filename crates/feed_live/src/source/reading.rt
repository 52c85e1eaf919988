//! The response is read and followed.

ghost use Rattle.std.specs.Prelude.{◌≡◌, ◌≢◌, ◌↔◌, ◌⊎◌, IsTrue, ◌+◌, ◌<◌, ◌++◌, [], List, ℕ, length, Result, OnOk, IfOk, IfErr, IfSome, None, Bool, is_some};
ghost use Rattle.feed_device.specs.Calls.{HasRead, AnsweredAtLeastOnce, AnsweredSince};
ghost use Rattle.feed_device.specs.declared.device.Stop.{Stop as Stops};
ghost use Rattle.feed_node.specs.Mirroring.{MirrorState};
ghost use Rattle.feed_follow.specs.Following.{Fails};
ghost use Rattle.feed_follow.specs.Standing.{Standing};
ghost use Rattle.feed_hub.specs.Upstream.{IsFollowing, IsPushed};
ghost use Rattle.feed_live.specs.Upstream.{wants_memory};

use crate::source::settling::{End, followed_of};
use crate::source::{Reach, Source, has_to_wait};
use feed_device::{Desk, Excerpt, Link, Report, Why};
use feed_follow::{FollowFault, Progress};
use feed_node::{FeedFault, Mirror};
use feed_screens::Screens;
use memchr::memchr;
use std::alloc::{AllocError, Global};
use std::mem;

/// How many reads one turn makes at most before the screens are served, and how many bytes each
/// takes.
const READS: usize = 16;

const PIECE: usize = 16_384;

/// How the field of a head begins that says where something is.
const LOCATION: &[u8] = b"location:";

impl Source {
    ghost use Rattle.feed_live.specs.Calling.{AsRead, ReadAtOnce, KeepsNothing, LeavesOnlyFor, MarksMore, MayReadOn, TakesWhatCame};
    ghost use Rattle.feed_live.specs.Times.{HeedsTime, SameTimes};
    ghost use Rattle.feed_live.specs.Relaying.{StillFollows, SameSource, within_turn};
    ghost use Rattle.feed_live.specs.Relaying.{SameButUnread, PushesOnly, followed_by};
    ghost use Rattle.feed_live.specs.declared.source.Reach.TheVariants.{Away, Reads as Read};

    /// Takes what was kept, and reads what came, so many times.
    pub(crate) fn read_some<L: Link>(
        &mut self,
        desk: &mut Desk,
        link: &mut L,
        screens: &mut Screens,
    )
        ensures follows { self.old.reach ≡ Read → StillFollows
            (within_turn (L.exchanges link.old) self.old self.old.rest.items screens.old)
            (within_turn (L.exchanges link.new) self.new self.new.rest.items screens.new) }
        ensures heeds { HeedsTime self.old self.new desk.old.time desk.new.time }
        ensures looks { (L.calls link.new).looked ≡ (L.calls link.old).looked }
        ensures written { (L.calls link.new).written ≡ (L.calls link.old).written }
        ensures begun { (L.calls link.new).begun ≡ (L.calls link.old).begun }
        // it is read at least once, where it may be
        ensures reads { MayReadOn self.old screens.old.saying.waits
            → AnsweredAtLeastOnce (L.calls link.old).read (L.calls link.new).read }
        // so it is once what was kept is taken, unless something waits to be said
        ensures takes { self.old.reach ≡ Read → (self.new.reach ≡ Away)
            ⊎ (screens.new.saying.waits ≢ None)
            ⊎ AnsweredAtLeastOnce (L.calls link.old).read (L.calls link.new).read }
        ensures more { MarksMore self.new (L.calls link.new).read }
        ensures keeps { KeepsNothing self.new screens.new.saying.waits }
        // it is left only for what came of the response, now or before, or since a read failed
        ensures leaves { LeavesOnlyFor (ReadAtOnce (L.calls link.old).read (L.calls link.new).read
            ⊎ (self.old.rest.items ≢ [])) self.old self.new }
    {
        self.take_kept(desk, link, screens);
        if !self.may_read(screens) {
            self.has_more = self.reach == Reach::Reads;
            return;
        }
        if self.read(desk, link, screens) {
            self.read_more(desk, link, screens);
        }
    }

    /// What was kept of the response is taken.
    fn take_kept<L: Link>(&mut self, desk: &mut Desk, link: &mut L, screens: &mut Screens)
        ensures follows { self.old.reach ≡ Read → StillFollows
            (within_turn (L.exchanges link.old) self.old self.old.rest.items screens.old)
            (within_turn (L.exchanges link.new) self.new self.new.rest.items screens.new) }
        ensures heeds { HeedsTime self.old self.new desk.old.time desk.new.time }
        ensures calls { L.calls link.new ≡ L.calls link.old }
        // nothing is done where nothing was kept
        ensures nothing { self.old.rest.items ≡ []
            → (self.new ≡ self.old) × (screens.new ≡ screens.old) }
        // nothing is kept any more, unless something waits to be said
        ensures takes { (self.new.reach ≡ Away) ⊎ ((self.new.reach ≡ self.old.reach)
            × ((screens.new.saying.waits ≢ None) ⊎ (self.new.rest.items ≡ []))) }
    {
        if self.rest.is_empty() {
            return;
        }
        let rest = self.kept(desk.alloc);
        self.take(desk, link, screens, rest.as_slice());
    }

    /// Whether the response may be read on: what is kept comes before what is still to be read.
    fn may_read(&self, screens: &Screens) -> bool
        ensures { IsTrue result ↔ MayReadOn self.now screens.now.saying.waits }
    {
        self.rest.is_empty() && screens.says_at().is_none() && self.reach == Reach::Reads
    }

    /// Reads on, as often as a turn may.
    fn read_more<L: Link>(&mut self, desk: &mut Desk, link: &mut L, screens: &mut Screens)
        ensures follows { StillFollows
            (within_turn (L.exchanges link.old) self.old self.old.rest.items screens.old)
            (within_turn (L.exchanges link.new) self.new self.new.rest.items screens.new) }
        ensures heeds { HeedsTime self.old self.new desk.old.time desk.new.time }
        ensures looks { (L.calls link.new).looked ≡ (L.calls link.old).looked }
        ensures written { (L.calls link.new).written ≡ (L.calls link.old).written }
        ensures begun { (L.calls link.new).begun ≡ (L.calls link.old).begun }
        ensures since { AnsweredSince (L.calls link.old).read (L.calls link.new).read }
        ensures more { MarksMore self.new (L.calls link.new).read }
        ensures keeps { KeepsNothing self.old screens.old.saying.waits
            → KeepsNothing self.new screens.new.saying.waits }
        ensures leaves { LeavesOnlyFor
            (ReadAtOnce (L.calls link.old).read (L.calls link.new).read) self.old self.new }
    {
        for _ in 1..READS {
            if !self.may_read(screens) {
                break;
            }
            if !self.read(desk, link, screens) {
                return;
            }
        }
        self.has_more = self.reach == Reach::Reads;
    }

    /// One read. Whether there may be more.
    fn read<L: Link>(&mut self, desk: &mut Desk, link: &mut L, screens: &mut Screens) -> bool
        ensures follows { self.old.reach ≡ Read → self.old.rest.items ≡ []
            → StillFollows
            (within_turn (L.exchanges link.old) self.old [] screens.old)
            (within_turn (L.exchanges link.new) self.new self.new.rest.items screens.new) }
        ensures heeds { HeedsTime self.old self.new desk.old.time desk.new.time }
        ensures calls { (answer : Result ℕ Stops)
            × HasRead answer (L.calls link.old) (L.calls link.new)
            × AsRead answer result self.old self.new }
        ensures goes_on { IsTrue result → self.new.reach ≡ Read }
        // what came is taken, until something waits to be said
        ensures keeps { self.old.rest.items ≡ []
            → KeepsNothing self.new screens.new.saying.waits }
    {
        let mut buf = [0u8; PIECE];
        match link.read(&mut buf) {
            Ok(0) => {
                self.settle_ended(desk, link, screens, 0, End::Cut);
                self.end(desk, link, Why::Ended);
                false
            }
            Ok(count) => {
                self.figures
                    .hear(count, self.body_since.is_some(), desk.time);
                self.settling.hear(count, desk.time);
                self.take(desk, link, screens, &buf[..count]);
                self.reach == Reach::Reads
            }
            Err(stop) => {
                if !has_to_wait(stop) {
                    self.settle_ended(desk, link, screens, 0, End::Cut);
                    self.end(desk, link, Why::Broke);
                }
                false
            }
        }
    }

    /// Bytes came: they are followed up to each line feed, so that one step publishes at most once.
    fn take<L: Link>(&mut self, desk: &mut Desk, link: &mut L, screens: &mut Screens, piece: &[u8])
        ensures follows { self.old.reach ≡ Read → self.old.rest.items ≡ []
            → StillFollows
            (within_turn (L.exchanges link.old) self.old piece.now screens.old)
            (within_turn (L.exchanges link.new) self.new self.new.rest.items screens.new) }
        ensures heeds { HeedsTime self.old self.new desk.old.time desk.new.time }
        ensures calls { L.calls link.new ≡ L.calls link.old }
        ensures takes { TakesWhatCame self.old self.new screens.new.saying.waits }
    {
        let mut rest = piece;
        // The mirror goes no further than what is said.
        'lines: while !rest.is_empty() && screens.says_at().is_none() {
            match self.take_next(desk, link, screens, rest) {
                Some(next) => rest = next,
                None => return,
            }
        }
        if self.keep(rest).is_err() {
            self.lost(desk, link, Why::Memory);
        }
    }

    /// Keeps what came until all before it was said.
    pub(crate) fn keep(&mut self, rest: &[u8]) -> Result<(), AllocError>
        ensures ok { OnOk result (self.new.rest.items ≡ self.old.rest.items ++ rest.now) }
        ensures same { SameButUnread self.old self.new }
        ensures times { SameTimes self.old self.new }
    {
        self.rest.extend_from_slice(rest)
    }

    /// What was kept, and nothing is kept then.
    pub(crate) fn kept(&mut self, alloc: Global) -> Vec<u8>
        ensures kept { result.items ≡ self.old.rest.items }
        ensures rest { self.new.rest.items ≡ [] }
        ensures same { SameButUnread self.old self.new }
        ensures times { SameTimes self.old self.new }
    {
        mem::replace(&mut self.rest, Vec::new(alloc))
    }

    /// The first line of the piece, or a part of one, is taken, unless a server sends again what it
    /// was not asked for. What comes after it, where the connection goes on.
    fn take_next<'a, L: Link>(
        &mut self,
        desk: &mut Desk,
        link: &mut L,
        screens: &mut Screens,
        piece: &'a [u8],
    ) -> Option<&'a [u8]>
        ensures goes_on { IfSome result (λ next. (self.new.reach ≡ self.old.reach)
            × (self.new.rest.items ≡ self.old.rest.items)
            × (self.old.reach ≡ Read → StillFollows
            (within_turn (L.exchanges link.old) self.old piece.entry.now screens.old)
            (within_turn (L.exchanges link.new) self.new next.now screens.new))) }
        ensures stops { result ≡ None → (self.new.reach ≡ Away) × (self.old.reach ≡ Read
            → (left : List ℕ) → StillFollows
            (within_turn (L.exchanges link.old) self.old piece.entry.now screens.old)
            (within_turn (L.exchanges link.new) self.new left screens.new)) }
        ensures shorter { piece.entry.now ≢ [] → IfSome result (λ next.
            length next.now < length piece.entry.now) }
        ensures heeds { HeedsTime self.old self.new desk.old.time desk.new.time }
        ensures calls { L.calls link.new ≡ L.calls link.old }
    {
        if self.is_replay(desk.alloc, piece) {
            self.ignored(desk, link);
            return None;
        }
        self.take_checked(desk, link, screens, piece)
    }

    /// Reports more of a fault: where the feed is said to be, or the line that can't be followed.
    fn report_fault(&self, desk: &mut Desk, fault: FollowFault, line: &[u8])
        ensures { desk.new.time ≡ desk.old.time }
    {
        if self.returning.has_left_quiet() {
            return;
        }
        let server = self.upstream.place();
        match (fault, self.beginning.location()) {
            (FollowFault::Status(300..=399), Some(location)) => {
                desk.reports.add(Report::Moved { server, location });
            }
            (FollowFault::Status(404), _) => {
                let line = Excerpt::of_line(first_line(self.request.as_slice()));
                desk.reports.add(Report::NotFound { server, line });
            }
            (FollowFault::Feed(_), _) => {
                let line = Excerpt::of_line(line);
                desk.reports.add(Report::Faulty { server, line });
            }
            _ => {}
        }
    }

    /// The first line of the piece, or a part of one, is taken. What comes after it, where the
    /// connection goes on.
    pub(crate) fn take_line<'a, L: Link>(
        &mut self,
        desk: &mut Desk,
        link: &mut L,
        screens: &mut Screens,
        piece: &'a [u8],
    ) -> Option<&'a [u8]>
        ensures goes_on { IfSome result (λ next. (self.new.reach ≡ self.old.reach)
            × (self.new.rest.items ≡ self.old.rest.items)
            × (self.old.reach ≡ Read → StillFollows
            (within_turn (L.exchanges link.old) self.old piece.entry.now screens.old)
            (within_turn (L.exchanges link.new) self.new next.now screens.new))) }
        ensures stops { result ≡ None → (self.new.reach ≡ Away) × (self.old.reach ≡ Read
            → (left : List ℕ) → StillFollows
            (within_turn (L.exchanges link.old) self.old piece.entry.now screens.old)
            (within_turn (L.exchanges link.new) self.new left screens.new)) }
        ensures shorter { piece.entry.now ≢ [] → IfSome result (λ next.
            length next.now < length piece.entry.now) }
        ensures heeds { HeedsTime self.old self.new desk.old.time desk.new.time }
        ensures calls { L.calls link.new ≡ L.calls link.old }
    {
        let (line, next) = line_or_part(piece);
        let had_part = self.followed().has_part();
        match self.push(desk, line) {
            Ok(Progress::Head) => Some(next),
            Ok(Progress::Body) => {
                self.found(desk);
                self.note_lines(had_part, line, desk.time);
                self.note_beginning(desk);
                self.say(desk, screens);
                Some(next)
            }
            Ok(Progress::Done) => {
                self.found(desk);
                self.note_beginning(desk);
                self.say(desk, screens);
                self.settle_ended(desk, link, screens, next.len(), End::Whole);
                self.end(desk, link, Why::Ended);
                None
            }
            Ok(Progress::TokenRefused) => {
                self.refused(desk, link);
                None
            }
            Err(fault) => {
                if is_want_of_memory(fault) {
                    self.lost(desk, link, Why::Memory);
                    return None;
                }
                self.report_fault(desk, fault, line);
                self.say(desk, screens);
                self.settle_ended(desk, link, screens, next.len(), End::Bad(line));
                self.lost(desk, link, Why::Fault(fault));
                None
            }
        }
    }

    /// The mirror that follows the response.
    fn followed(&self) -> &Mirror
        ensures { result.now ≡ followed_by self.now }
    {
        followed_of(&self.coming, self.answers.shown.mirror())
    }

    /// A part of a body was taken that ends with a line feed, or all that came. It begins a line of
    /// the feed where none was begun before, and one is now or it is one.
    fn note_lines(&mut self, had_part: bool, line: &[u8], now: u64)
        ensures same { SameSource self.old self.new }
        ensures times { SameTimes self.old self.new }
    {
        let is_begun = self.followed().has_part() || line.trim_ascii_start().first() == Some(&b'{');
        if !had_part && is_begun {
            self.settling.count_line();
        }
        let waiting = self.followed().waiting() as u64;
        self.figures.stage(waiting, now);
    }

    /// The mirror that follows the response takes bytes of it: what comes afresh is shown to nobody
    /// until it has settled.
    fn push(&mut self, desk: &Desk, line: &[u8]) -> Result<Progress, FollowFault>
        ensures ok { (start : MirrorState) (before : List ℕ) (standing : Standing)
            → IsFollowing start before standing self.old.upstream.follower (followed_by self.old)
            → IfOk result (IsPushed start (before ++ line.now) self.new.upstream.follower
            (followed_by self.new)) }
        ensures err { (start : MirrorState) (before : List ℕ) (standing : Standing)
            → IsFollowing start before standing self.old.upstream.follower (followed_by self.old)
            → IfErr result (λ fault. (had_token : Bool) × (had_token ≡ is_some start.since)
            × Fails start had_token before line.now (followed_by self.new) fault) }
        ensures only { PushesOnly self.old self.new }
        ensures heeds { HeedsTime self.old self.new desk.now.time desk.now.time }
    {
        match &mut self.coming {
            Some(coming) => self.upstream.take(desk.alloc, coming, line, desk.time),
            None => {
                let mirror = self.answers.shown.change();
                self.upstream.take(desk.alloc, mirror, line, desk.time)
            }
        }
    }
}

/// Whether memory ran out, and nothing is wrong with what came.
pub(crate) fn is_want_of_memory(fault: FollowFault) -> bool
    ensures { result ≡ wants_memory fault }
{
    match fault {
        FollowFault::Memory => true,
        FollowFault::Feed(fault) => fault == FeedFault::Memory,
        _ => false,
    }
}

/// The first line of a request, without what ends it.
fn first_line(request: &[u8]) -> &[u8] {
    request
        .split(|byte| *byte == b'\r')
        .next()
        .unwrap_or(request)
}

/// Where a line of a head says that something is: the value of the field `Location`.
pub(crate) fn location_of(line: &[u8]) -> Option<&[u8]> {
    let (name, rest) = line.split_at_checked(LOCATION.len())?;
    if !name.eq_ignore_ascii_case(LOCATION) {
        return None;
    }
    let value = rest.split(|byte| *byte == b'\r' || *byte == b'\n').next()?;
    Some(value.trim_ascii())
}

/// The first line of a piece, with its line feed, or all of it, where it has none: a part of a
/// line; and what comes after that.
pub(crate) fn line_or_part(piece: &[u8]) -> (&[u8], &[u8])
    ensures whole { result.0.now ++ result.1.now ≡ piece.now }
    // the first has some bytes, where there are some
    ensures shorter { piece.now ≢ [] → length result.1.now < length piece.now }
{
    match memchr(b'\n', piece) {
        Some(at) => piece.split_at(at + 1),
        None => (piece, &[]),
    }
}
