//! A mirror that answers many.

ghost use Rattle.std.specs.Prelude.{◌≡◌, ◌↔◌, ◌<◌, ◌^◌, None, Some, IsTrue, IfOk, is_some, length};
ghost use Rattle.feed_node.specs.Texts.{published_text};
ghost use Rattle.feed_answer.specs.Served.{opening_text};
ghost use Rattle.feed_answer.specs.Replied.{reply_of};
ghost use Rattle.feed_hub.specs.Answering.{IsOpeningOf, NumbersText, NeedsText, TellsText};

use crate::screen::bytes_of;
use bytes::Bytes;
use feed_answer::{Framing, Reply, reply_to, snapshot_opening};
use feed_http::head_reading::is_needed;
use feed_node::{Mirror, Node};
use std::alloc::{AllocError, Global};

/// A mirror, and the text with which it answers each fresh request. That is made for the first of
/// them, and shared by the others for as long as the mirror isn't changed.
#[derive(Drop)]
pub struct Answering {
    mirror: Mirror,
    framing: Framing,
    opening: Option<Bytes>,
    // How many texts were made.
    made: u64,
    ghost fits: { IsOpeningOf mirror.node framing opening },
}

impl Answering {
    ghost use Rattle.std.specs.Borrow.{sem};
    ghost use Rattle.feed_hub.specs.Lending.{LendsMirror};

    /// A mirror whose answers are framed so, but to clients whose version of HTTP has no such
    /// frames.
    pub fn new(mirror: Mirror, framing: Framing) -> Answering
        ensures mirror { result.mirror ≡ mirror }
        ensures framing { result.framing ≡ framing }
        ensures opening { result.opening ≡ None }
    {
        Answering {
            mirror,
            framing,
            opening: None,
            made: 0,
        }
    }

    /// The mirror.
    pub fn mirror(&self) -> &Mirror
        ensures { result.now ≡ self.now.mirror }
    {
        &self.mirror
    }

    /// What the mirror shows.
    pub fn node(&self) -> &Node
        ensures { result.now.shown ≡ self.now.mirror.node }
    {
        self.mirror.node()
    }

    /// How many texts were made so far: those who share one have the same number.
    pub fn made(&self) -> u64
        ensures { result ≡ self.now.made }
    {
        self.made
    }

    /// The mirror, to be changed: the text is forgotten, whatever becomes of the mirror.
    pub fn change(&mut self) -> &mut Mirror
        ensures* changes { sem 𝓛 (LendsMirror self.entry result) }
        ensures mirror { result.now ≡ self.old.mirror }
    {
        self.opening = None;
        &mut self.mirror
    }

    /// Forgets the text where no screen has any of it.
    pub fn tidy(&mut self)
        ensures mirror { self.new.mirror ≡ self.old.mirror }
        ensures framing { self.new.framing ≡ self.old.framing }
        ensures made { self.new.made ≡ self.old.made }
    {
        let is_unused = match &self.opening {
            Some(text) => text.is_unique(),
            None => false,
        };
        if is_unused {
            let _text = self.opening.take();
        }
    }

    /// Whether there is a text that many can share.
    pub fn has_text(&self) -> bool
        ensures { result ≡ is_some self.now.opening }
    {
        self.opening.is_some()
    }

    /// The text with which an answer in these frames opens with the snapshot, and whether many
    /// share it.
    pub(crate) fn open(
        &mut self,
        alloc: Global,
        framing: Framing,
    ) -> Result<(Bytes, bool), AllocError>
        ensures text { IfOk result (λ opened. opened.0
            ≡ opening_text framing (published_text self.old.mirror.node.published)) }
        ensures fits { IfOk result (λ opened. length opened.0 < 2 ^ 64) }
        ensures shared { IfOk result (λ opened. IsTrue opened.1
            → self.new.opening ≡ Some opened.0) }
        // who takes such frames shares it
        ensures shares { framing ≡ self.old.framing → IfOk result (λ opened. IsTrue opened.1) }
        ensures made { NumbersText self.old.opening self.new.opening self.old.made self.new.made }
        ensures mirror { self.new.mirror ≡ self.old.mirror }
        ensures framing { self.new.framing ≡ self.old.framing }
    {
        if framing != self.framing {
            return Ok((self.make(alloc, framing)?, false));
        }
        if let Some(text) = &self.opening {
            return Ok((text.clone()?, true));
        }
        let text = self.make(alloc, framing)?;
        self.opening = Some(text.clone()?);
        self.made = self.made.wrapping_add(1);
        Ok((text, true))
    }

    /// Whether this head is a request for which that text has to be made.
    pub(crate) fn makes_text(
        &self,
        alloc: Global,
        head: &[u8],
        contest: &str,
        framing: Framing,
    ) -> Result<bool, AllocError>
        ensures { IfOk result (TellsText head.now contest.now self.now.mirror.node framing
            self.now.framing self.now.opening) }
    {
        if is_needed(head) {
            return Ok(false);
        }
        let reply = reply_to(alloc, head, self.node(), contest, framing, 0)?;
        Ok(self.needs_text(&reply))
    }

    /// Whether a reply opens with the snapshot, and no text is kept that is framed so.
    fn needs_text(&self, reply: &Reply) -> bool
        ensures { IsTrue result
            ↔ NeedsText self.now.framing self.now.opening (reply_of reply.now) }
    {
        match reply {
            Reply::Snapshot(framing, _) => *framing != self.framing || self.opening.is_none(),
            Reply::Whole(_) => false,
        }
    }

    /// Makes that text.
    fn make(&self, alloc: Global, framing: Framing) -> Result<Bytes, AllocError>
        ensures text { IfOk result (λ text. text
            ≡ opening_text framing (published_text self.now.mirror.node.published)) }
        ensures fits { IfOk result (λ text. length text < 2 ^ 64) }
    {
        bytes_of(snapshot_opening(alloc, self.node(), framing)?)
    }
}
