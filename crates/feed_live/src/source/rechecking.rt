//! A server that was set back, as after a rehearsal, may give the tokens that this relay has to
//! other states. So a connection asks for the newest commit again, and that has to be what it was.
//! Only commits that the relay holds may come before it. Else everything is asked for.

ghost use Rattle.std.specs.Prelude.{◌≡◌, ◌≢◌, ◌<◌, ◌&&◌, [], List, ℕ, length, IfOk, IfSome, None, Some, false, true, not, is_some, is_none};
ghost use Rattle.std.specs.Option.{option_copied};
ghost use Rattle.feed_node.specs.States.{nothing_published};
ghost use Rattle.feed_laws.specs.Follows.{MayAskWith};
ghost use Rattle.feed_live.specs.Upstream.{asked_with};
ghost use Rattle.feed_live.specs.Leaving.{brought};

use crate::source::Source;
use crate::source::reading::{is_want_of_memory, line_or_part};
use crate::source::saying::given_twice;
use crate::times::QUIET;
use feed_device::{Desk, Excerpt, Link, Report};
use feed_follow::Follower;
use feed_node::{Limits, Mirror, Node};
use feed_screens::Screens;
use feed_tables::{Change, Tables};
use std::alloc::{AllocError, Global};

/// What a connection brings that asks for the newest commit again, up to that one, or to the first
/// token that isn't held.
#[derive(Drop)]
pub(crate) struct Again {
    /// How far the response was read into the mirror.
    follower: Follower,
    /// It had nothing when the connection began, and is shown to nobody.
    mirror: Mirror,
}

impl Again {
    /// What was published last of it.
    pub(crate) fn node(&self) -> &Node {
        self.mirror.node()
    }

    /// The token of that.
    pub(crate) fn token(&self) -> Option<&str> {
        self.mirror.since()
    }

    pub(crate) fn new(alloc: Global, limits: Limits) -> Result<Again, AllocError>
        ensures { IfOk result (λ again. again.mirror.node ≡ nothing_published) }
    {
        let mirror = Mirror::new(alloc, few(limits))?;
        Ok(Again {
            follower: Follower::new(&mirror),
            mirror,
        })
    }

    /// Bytes came. Whether there was memory to look at them: what else is wrong with them, whoever
    /// follows the connection sees.
    pub(crate) fn hears(&mut self, alloc: Global, bytes: &[u8]) -> bool {
        match self.follower.push(alloc, &mut self.mirror, bytes) {
            Ok(_) => true,
            Err(fault) => !is_want_of_memory(fault),
        }
    }
}

/// The same limits, but that one commit is kept.
fn few(limits: Limits) -> Limits {
    let Ok(few) = Limits::new(1, limits.staged()) else {
        return limits;
    };
    match limits.memory() {
        Some(bytes) => few.with_memory(bytes).unwrap_or(few),
        None => few,
    }
}

/// Whether, and how far, a server was asked for the newest commit again.
#[derive(Drop)]
pub(crate) struct Rechecking {
    /// Whether servers are asked for it.
    is_on: bool,
    /// What comes, until it has come.
    again: Option<Again>,
    /// It came last.
    came_again: bool,
    /// It came with other changes than those that are kept of it.
    has_others: bool,
    /// The server does not hold the token before the newest: it is asked with that.
    asks_newest: bool,
    /// A server has another one, and nothing was published since then.
    is_doubted: bool,
    /// Which server that was, until something was published.
    doubted: Option<usize>,
}

impl Rechecking {
    pub(crate) fn new(is_on: bool) -> Rechecking
        ensures { result ≡ record {
          is_on = is_on;
          again = None;
          came_again = false;
          has_others = false;
          asks_newest = false;
          is_doubted = false;
          doubted = None;
        } }
    {
        Rechecking {
            is_on,
            again: None,
            came_again: false,
            has_others: false,
            asks_newest: false,
            is_doubted: false,
            doubted: None,
        }
    }

    /// A connection begins, which brings this, or asks for everything.
    pub(crate) fn begin(&mut self, again: Option<Again>, is_fresh: bool)
        // a doubt is over once everything is asked for
        ensures { self.new ≡ record {
          is_on = self.old.is_on;
          again = again;
          came_again = false;
          has_others = false;
          asks_newest = false;
          is_doubted = self.old.is_doubted && not is_fresh;
          doubted = self.old.doubted;
        } }
    {
        self.is_doubted = self.is_doubted && !is_fresh;
        self.again = again;
        self.came_again = false;
        self.has_others = false;
        self.asks_newest = false;
    }

    /// The connection is over.
    pub(crate) fn leave(&mut self)
        ensures { self.new ≡ record self.old { again = None; came_again = false } }
    {
        self.again = None;
        self.came_again = false;
    }

    /// It failed: the next server is asked.
    pub(crate) fn lose(&mut self)
        ensures { self.new ≡ record self.old { asks_newest = false } }
    {
        self.asks_newest = false;
    }

    /// Something was published.
    pub(crate) fn trust(&mut self)
        ensures { self.new ≡ record self.old { is_doubted = false; doubted = None } }
    {
        self.is_doubted = false;
        self.doubted = None;
    }

    /// Whether the server of a place had another one, and nothing was published since then.
    pub(crate) fn has_doubted(&self, place: usize) -> bool {
        self.doubted == Some(place)
    }

    /// The server does not hold the token before the newest.
    fn refuse(&mut self)
        ensures { self.new ≡ record self.old { again = None; asks_newest = true } }
    {
        self.again = None;
        self.asks_newest = true;
    }

    /// Whether a server has another one, and nothing was published since then.
    pub(crate) fn is_doubted(&self) -> bool
        ensures { result ≡ self.now.is_doubted }
    {
        self.is_doubted
    }

    /// Whether the newest commit is still to come again.
    pub(crate) fn is_going(&self) -> bool
        ensures { result ≡ is_some self.now.again }
    {
        self.again.is_some()
    }
}

/// What a connection brought that asked for the newest commit again.
#[derive(Clone, Copy)]
enum Brought {
    /// No token yet, or one from further back.
    Nothing,
    Newest,
    Another,
}

/// What this token is to a node, where one came.
fn what_came(token: Option<&str>, node: &Node) -> Brought
    ensures { result ≡ brought (option_copied token.entry) node.now.shown }
{
    let (Some(came), Some(newest)) = (token, node.token()) else {
        return Brought::Nothing;
    };
    if came == newest.text() {
        Brought::Newest
    } else if node.holds(came) {
        Brought::Nothing
    } else {
        Brought::Another
    }
}

/// Whether what came again has the changes of the newest commit that is kept. More may have come
/// before it. Where there is no memory to compare, it has them.
fn has_changes_of(alloc: Global, came: &Node, shown: &Node) -> bool {
    let (Some(tables), Some(commit)) = (came.published(), shown.newest_commit()) else {
        return true;
    };
    agree(alloc, tables, commit.changes.as_slice()).unwrap_or(true)
}

/// Whether tables have what some changes leave where they are made to nothing.
fn agree(alloc: Global, tables: &Tables, changes: &[Change]) -> Result<bool, AllocError> {
    let mut made = Tables::new(alloc);
    for change in changes {
        made.apply(alloc, change)?;
    }
    for change in changes {
        if !agree_where(tables, &made, change) {
            return Ok(false);
        }
    }
    Ok(true)
}

/// Whether tables have what others have where a change is. One that removes an object leaves the
/// type, which tables that were made of nothing lack: there the object counts alone.
fn agree_where(tables: &Tables, made: &Tables, change: &Change) -> bool {
    match change {
        Change::Remove(kind, id) => {
            let (kind, id) = (kind.text(), id.text());
            tables.get(kind, id).is_some() == made.get(kind, id).is_some()
        }
        _ => tables.agree_at(made, change),
    }
}

/// The token that a connection asks with: the one before the newest, where the newest commit is to
/// come again and that is held.
pub(crate) fn token_for<'a>(mirror: &'a Mirror, is_again: bool) -> Option<&'a str>
    ensures token { option_copied result ≡ asked_with is_again mirror.now }
    ensures may_ask { MayAskWith mirror.now (option_copied result) }
{
    // The newest token is one that is held.
    let node = mirror.node();
    let newest = mirror.since()?;
    if !is_again {
        return Some(newest);
    }
    match node.former_token() {
        Some(former) => Some(former.text()),
        None => Some(newest),
    }
}

impl Source {
    ghost use Rattle.feed_live.specs.Times.{HeedsTime, SameTimes};
    ghost use Rattle.feed_live.specs.Relaying.{StillFollows, SameSource, WasLeft, within_turn};
    ghost use Rattle.feed_live.specs.Leaving.{asked_after_refusal, is_past, is_to_recheck, newest_time, refused_after};
    ghost use Rattle.feed_live.specs.declared.source.Reach.TheVariants.{Away, Reads as Read};

    /// What the next connection is to bring, where it asks for the newest commit again.
    pub(crate) fn begin_again(&self, alloc: Global) -> Result<Option<Again>, AllocError>
        ensures made { IfOk result (λ made. is_some made ≡ is_to_recheck self.now) }
        ensures blank { IfOk result (λ made. IfSome made (λ again.
            again.mirror.node ≡ nothing_published)) }
    {
        let shown = self.answers.shown.mirror();
        if !self.rechecking.is_on || self.rechecking.asks_newest || self.is_always_fresh() {
            return Ok(None);
        }
        if self.leading.wants_all(self.upstream.place()) {
            return Ok(None);
        }
        if shown.since().is_none() || shown.node().former_token().is_none() {
            return Ok(None);
        }
        Ok(Some(Again::new(alloc, shown.limits())?))
    }

    /// The first line of the piece comes, or a part of one, of a connection that asked for the
    /// newest commit again. Whether that brings a token that isn't held before the newest one came.
    /// A server may begin further back.
    fn brings_another(&mut self, alloc: Global, piece: &[u8]) -> bool
        ensures same { SameSource self.old self.new }
        ensures epoch { self.new.epoch ≡ self.old.epoch }
        ensures times { SameTimes self.old self.new }
    {
        self.rechecking.came_again = false;
        let Some(again) = &mut self.rechecking.again else {
            return false;
        };
        let (line, _) = line_or_part(piece);
        if !again.hears(alloc, line) {
            self.rechecking.again = None;
            return false;
        }
        let shown = self.answers.shown.node();
        let came = what_came(again.mirror.since(), shown);
        let has_others = matches!(came, Brought::Newest)
            && !has_changes_of(alloc, again.node(), shown);
        self.rechecking.has_others = has_others;
        match came {
            Brought::Nothing => false,
            Brought::Newest => {
                self.rechecking.again = None;
                self.rechecking.came_again = true;
                false
            }
            Brought::Another => {
                self.rechecking.again = None;
                true
            }
        }
    }

    /// Whether the newest commit just came again, and would change what is shown. If it wouldn't,
    /// the server has what this relay has.
    fn differs_again(&mut self) -> bool
        ensures same { SameSource self.old self.new }
        ensures epoch { self.new.epoch ≡ self.old.epoch }
        ensures times { SameTimes self.old self.new }
    {
        if !self.rechecking.came_again {
            return false;
        }
        if self.rechecking.has_others || given_twice(self.answers.shown.mirror()).is_some() {
            return true;
        }
        // Where another one was set back, refusals are counted on: else two relays that follow
        // each other would keep for ever what it had.
        if !self.rechecking.is_doubted {
            self.upstream.held();
        }
        self.leading.hold(self.upstream.place());
        false
    }

    /// When a server is asked with the newest token that was asked for that commit again, and sent
    /// nothing: requests wait for it.
    pub(crate) fn newest_at(&self) -> Option<u64>
        ensures { result ≡ newest_time self.now }
    {
        if self.is_heard || !self.rechecking.is_going() {
            return None;
        }
        Some(self.body_since?.saturating_add(QUIET))
    }

    /// Whether it is time for that.
    pub(crate) fn is_to_ask_newest(&self, now: u64) -> bool
        ensures { result ≡ is_past (newest_time self.now) now }
    {
        match self.newest_at() {
            Some(at) => at <= now,
            None => false,
        }
    }

    /// A server does not hold the token before the newest: it is asked with the newest.
    pub(crate) fn ask_newest<L: Link>(&mut self, link: &mut L, now: u64)
        ensures left { WasLeft self.old self.new (L.exchanges link.old) (L.exchanges link.new) }
        ensures rests { self.new.has_more ≡ false }
        ensures calls { L.calls link.new ≡ L.calls link.old }
        ensures at_once { self.new.upstream.since ≡ now }
        ensures heeds { HeedsTime self.old self.new now now }
        ensures refused { self.new.upstream.refused ≡ self.old.upstream.refused }
    {
        self.rechecking.refuse();
        self.ask_again(link, now);
    }

    /// A server has another commit where this relay has its newest one: the others are asked
    /// whether they have that, and then everything is asked for.
    fn forgot<L: Link>(&mut self, desk: &mut Desk, link: &mut L)
        ensures left { WasLeft self.old self.new (L.exchanges link.old) (L.exchanges link.new) }
        ensures next { self.new.upstream.since ≡ asked_after_refusal self.old desk.old.time }
        ensures counts { self.new.upstream.refused ≡ refused_after self.old desk.old.time }
        ensures heeds { HeedsTime self.old self.new desk.old.time desk.new.time }
        ensures calls { L.calls link.new ≡ L.calls link.old }
    {
        if let Some(token) = self.answers.shown.node().token() {
            let forgot = Report::Forgot {
                server: self.upstream.place(),
                token: Excerpt::of(token.text()),
            };
            desk.reports.add_if(!self.rechecking.is_doubted, forgot);
        }
        self.rechecking.is_doubted = true;
        self.rechecking.doubted = Some(self.upstream.place());
        self.without_token(desk, link, true);
    }

    /// Where the newest commit just came again, the server has what this relay has: the first one
    /// is followed again.
    fn find_again(&mut self, desk: &mut Desk)
        ensures same { SameSource self.old self.new }
        ensures times { SameTimes self.old self.new }
        ensures time { desk.new.time ≡ desk.old.time }
    {
        if self.rechecking.came_again {
            self.leading.show(desk, self.upstream.place());
        }
    }

    /// The first line of the piece is taken, or a part of one, unless the server has another commit
    /// where this relay has its newest one. What comes after it, where the connection goes on.
    pub(crate) fn take_checked<'a, L: Link>(
        &mut self,
        desk: &mut Desk,
        link: &mut L,
        screens: &mut Screens,
        piece: &'a [u8],
    ) -> Option<&'a [u8]>
        ensures goes_on { IfSome result (λ next. (self.new.reach ≡ self.old.reach)
            × (self.new.rest.items ≡ self.old.rest.items)
            × (self.old.reach ≡ Read → StillFollows
            (within_turn (L.exchanges link.old) self.old piece.entry.now screens.old)
            (within_turn (L.exchanges link.new) self.new next.now screens.new))) }
        ensures stops { result ≡ None → (self.new.reach ≡ Away) × (self.old.reach ≡ Read
            → (left : List ℕ) → StillFollows
            (within_turn (L.exchanges link.old) self.old piece.entry.now screens.old)
            (within_turn (L.exchanges link.new) self.new left screens.new)) }
        ensures shorter { piece.entry.now ≢ [] → IfSome result (λ next.
            length next.now < length piece.entry.now) }
        ensures heeds { HeedsTime self.old self.new desk.old.time desk.new.time }
        ensures calls { L.calls link.new ≡ L.calls link.old }
    {
        if self.brings_another(desk.alloc, piece) {
            self.forgot(desk, link);
            return None;
        }
        let Some(next) = self.take_line(desk, link, screens, piece) else {
            return None;
        };
        if self.differs_again() {
            self.forgot(desk, link);
            return None;
        }
        self.find_again(desk);
        Some(next)
    }
}
