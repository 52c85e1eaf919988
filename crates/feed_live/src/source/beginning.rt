//! How a body begins. A server that ignores the token that it was asked with sends all that it has:
//! what ever happened, or what there is. Both are seen at the first token of the body. It is read
//! beside the mirror that is shown, before anything of it is. The bytes may be cut anywhere, and
//! framed in chunks.

ghost use Rattle.std.specs.Prelude.{◌≡◌};

use crate::source::Source;
use crate::source::positions::Positions;
use crate::source::reading::{line_or_part, location_of};
use crate::source::rechecking::Again;
use feed_device::{Desk, Excerpt, Report};
use feed_node::{Mirror, Node};
use feed_tables::{Change, Name, Tables};
use std::alloc::{AllocError, Global};

/// Of how many types and objects a state has to be at least that is compared with what a body
/// begins with.
const LEAST: usize = 8;

/// How many tokens are looked at of what comes after ours.
const LOOKED_AT: usize = 64;

/// How many bytes of a line of a head are looked at.
const LONGEST_FIELD: usize = 2_048;

/// How a body that comes afresh began, and how this one does.
#[derive(Drop)]
pub(crate) struct Beginning {
    /// The first token of the body that came afresh last, and how many types and objects there were
    /// at it; none where none came.
    first: Option<(Name, usize)>,
    /// Whether that was noted of this connection.
    is_noted: bool,
    /// What follows the body up to its first tokens, where our token was asked with.
    follows: Option<Again>,
    /// How many bytes of what came it has read ahead, and how many tokens there were.
    ahead: usize,
    tokens: usize,
    /// Whether the latest of them is one that is held, and isn't ours.
    is_back: bool,
    /// Whether tokens are positions in what is sent.
    positions: Positions,
    /// What came of a line of the head.
    field: Vec<u8>,
    /// Where the head says that the feed is.
    location: Option<Excerpt>,
}

impl Beginning {
    pub(crate) fn new(alloc: Global) -> Beginning {
        Beginning {
            first: None,
            is_noted: false,
            follows: None,
            ahead: 0,
            tokens: 0,
            is_back: false,
            positions: Positions::new(alloc),
            field: Vec::new(alloc),
            location: None,
        }
    }

    /// A connection begins.
    pub(crate) fn begin(&mut self, follows: Option<Again>) {
        self.is_noted = false;
        self.follows = follows;
        self.ahead = 0;
        self.tokens = 0;
        self.is_back = false;
        self.positions.begin();
        self.field.clear();
        self.location = None;
    }

    /// The connection is over.
    pub(crate) fn leave(&mut self) {
        self.follows = None;
    }

    /// Where the head says that the feed is.
    pub(crate) fn location(&self) -> Option<Excerpt> {
        self.location
    }

    /// Whether an answer begins as one in TLS: with an alert, or a handshake.
    pub(crate) fn is_tls(&self) -> bool {
        matches!(self.field.as_slice(), [0x15 | 0x16, 0x03, ..])
    }

    /// A line of the head comes, or a part of one: where it says that the feed is, is noted. Of a
    /// line that is too long what there is room for is looked at.
    pub(crate) fn take_head(&mut self, part: &[u8]) {
        let room = LONGEST_FIELD.saturating_sub(self.field.len());
        let fits = part.get(..room).unwrap_or(part);
        let is_kept = self.field.extend_from_slice(fits).is_ok();
        if part.last() != Some(&b'\n') {
            return;
        }
        if let Some(location) = location_of(self.field.as_slice()) {
            if is_kept {
                self.location = Some(Excerpt::of_line(location));
            }
        }
        self.field.clear();
    }

    /// What a mirror that comes afresh published is noted. Whether its last token shows that its
    /// tokens are no positions.
    fn note(&mut self, coming: &Mirror) -> bool {
        let Some(token) = coming.since() else {
            return false;
        };
        self.note_first(coming);
        self.positions.goes_back(token)
    }

    /// What it published first is noted.
    fn note_first(&mut self, coming: &Mirror) {
        if self.is_noted {
            return;
        }
        self.is_noted = true;
        let node = coming.node();
        let size = size_of(node);
        self.first = match node.token() {
            Some(token) => token.copy().ok().map(|token| (token, size)),
            None => None,
        };
    }

    /// What came afresh is shown at its last token.
    pub(crate) fn show(&mut self)
        ensures { self.new.positions.shown ≡ self.old.positions.came }
    {
        self.positions.show();
    }

    /// The token of what comes after ours that was sent before that, where there was one.
    pub(crate) fn known_again(&self) -> Option<Excerpt> {
        self.positions.against()
    }

    /// Whether a body that was asked for with our token is followed beside the mirror: not where
    /// none came afresh before.
    fn is_followed(&self) -> bool {
        self.first.is_some()
    }

    /// This is to be taken, of which some was read ahead. Whether the server, which was asked with
    /// our newest token or with an older one, ignores that, or its tokens are no positions.
    pub(crate) fn is_replay(
        &mut self,
        alloc: Global,
        piece: &[u8],
        shown: &Node,
        asks_newest: bool,
    ) -> bool {
        if self.follows.is_none() {
            return false;
        }
        let mut rest = piece.get(self.ahead..).unwrap_or(&[]);
        for _ in 0..piece.len() {
            if rest.is_empty() || self.follows.is_none() {
                break;
            }
            let (line, next) = line_or_part(rest);
            if self.takes_back(alloc, line, shown, asks_newest) {
                return true;
            }
            rest = next;
        }
        let (line, _) = line_or_part(piece);
        self.ahead = piece.len().saturating_sub(line.len());
        false
    }

    /// A line of the body comes, or a part of one. Whether the server ignores our token: the body
    /// begins with the first token of all that was sent before, or with all that is shown. Or
    /// whether a token comes again that was sent before ours, or a new one comes behind such.
    fn takes_back(&mut self, alloc: Global, line: &[u8], shown: &Node, asks_newest: bool) -> bool {
        let Some(follows) = &mut self.follows else {
            return false;
        };
        if !follows.hears(alloc, line) {
            self.follows = None;
            return false;
        }
        let Some(token) = follows.token() else {
            return false;
        };
        if !self.positions.is_news(token) {
            return false;
        }
        let is_first = self.tokens == 0;
        self.tokens = self.tokens.saturating_add(1);
        let is_newest = shown.token().is_some_and(|newest| newest.text() == token);
        let is_all = is_first && !is_newest && begins_again(alloc, &self.first, follows, shown);
        let is_held = shown.holds(token);
        // A server may begin further back, with commits that are held. Then ours comes again before
        // any other.
        let is_behind = self.is_back && asks_newest;
        let is_over = !is_all && !is_held && self.positions.is_over(token, is_behind);
        self.is_back = is_held && !is_newest;
        if self.tokens >= LOOKED_AT || !self.positions.has_shown() {
            self.follows = None;
        }
        is_all || is_over
    }
}

/// Whether a body begins with the first token of all that was sent before, or with all that is
/// shown, at its first token.
fn begins_again(
    alloc: Global,
    first: &Option<(Name, usize)>,
    follows: &Again,
    shown: &Node,
) -> bool {
    match (first, follows.token()) {
        (Some((first, _)), Some(token)) if first.text() == token => true,
        (Some((_, size)), _) => *size >= LEAST && is_all(alloc, follows.node(), shown),
        (None, _) => false,
    }
}

/// How many types and objects a node shows.
fn size_of(node: &Node) -> usize {
    match node.published() {
        Some(tables) => tables.size(),
        None => 0,
    }
}

/// Whether tables have an object, or a type, at the place that a change of a snapshot sets; none
/// where it sets none.
fn has_its(tables: &Tables, change: &Change) -> Option<bool> {
    match change {
        Change::Set(kind, id, _) => Some(tables.get(kind.text(), id.text()).is_some()),
        Change::Single(kind, _) => Some(tables.single(kind.text()).is_some()),
        _ => None,
    }
}

/// Whether tables have nine of ten objects that others have.
fn have_nearly_all(alloc: Global, tables: &Tables, others: &Tables) -> Result<bool, AllocError> {
    let mut held: usize = 0;
    let mut lacking: usize = 0;
    for change in &others.snapshot(alloc)? {
        match has_its(tables, change) {
            Some(true) => held = held.saturating_add(1),
            Some(false) => lacking = lacking.saturating_add(1),
            None => {}
        }
    }
    Ok(held >= lacking.saturating_mul(9))
}

/// Whether what a body began with is all that there is, though what comes after our token was asked
/// for: nearly all that is shown comes again at once.
fn is_all(alloc: Global, begun: &Node, shown: &Node) -> bool {
    let (Some(tables), Some(others)) = (begun.published(), shown.published()) else {
        return false;
    };
    if others.size() < LEAST || tables.size() < others.size() / 10 * 9 {
        return false;
    }
    have_nearly_all(alloc, tables, others).unwrap_or(false)
}

impl Source {
    ghost use Rattle.feed_live.specs.Times.{SameTimes};
    ghost use Rattle.feed_live.specs.Relaying.{SameSource};

    /// What follows the next connection up to its first token, where it asks with ours.
    pub(crate) fn begin_beside(
        &self,
        alloc: Global,
        is_afresh: bool,
    ) -> Result<Option<Again>, AllocError> {
        let shown = self.answers.shown.mirror();
        if !self.beginning.is_followed() || is_afresh || shown.since().is_none() {
            return Ok(None);
        }
        Ok(Some(Again::new(alloc, shown.limits())?))
    }

    /// What comes afresh is noted. Where its tokens are no positions in what is sent, nothing goes
    /// on from one of them, and everything is asked for from here on: what comes after one is over.
    pub(crate) fn note_beginning(&mut self, desk: &mut Desk)
        ensures same { SameSource self.old self.new }
        ensures times { SameTimes self.old self.new }
        ensures time { desk.new.time ≡ desk.old.time }
    {
        let is_always = self.is_always_fresh();
        let Some(coming) = &self.coming else {
            return;
        };
        if !self.beginning.note(coming) {
            return;
        }
        self.settling.differ();
        if is_always {
            return;
        }
        let token = Excerpt::of(coming.since().unwrap_or(""));
        let server = self.upstream.place();
        desk.reports.add(Report::NoPositions { server, token });
        self.settling.ask_all();
    }

    /// The first line of the piece comes, or a part of one: of the head, or of the body. Whether
    /// the server ignores our token, or its tokens are no positions.
    pub(crate) fn is_replay(&mut self, alloc: Global, piece: &[u8]) -> bool
        ensures same { SameSource self.old self.new }
        ensures times { SameTimes self.old self.new }
    {
        if self.body_since.is_none() {
            let (line, _) = line_or_part(piece);
            self.beginning.take_head(line);
        }
        let asks_newest = !self.rechecking.is_going();
        self.beginning
            .is_replay(alloc, piece, self.answers.shown.node(), asks_newest)
    }
}
