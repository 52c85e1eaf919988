//! The long texts that screens have yet to take, each counted once.

ghost use Rattle.std.specs.Prelude.{◌≡◌, ◌≢◌, ◌<◌, ◌^◌, ◌-◌, ℕ, [], None, Some, HoldsAt, IfSome, is_some, OnOk, OnErr, length, min};
ghost use Rattle.feed_screens.specs.declared.screens.pending.TextId.{TextId};
ghost use Rattle.feed_screens.specs.Pending.{total, takers, HasNone, Adds, Removes, HaveReaders, AreDistinct, AreCounted, owed_text_at, Pays};

use std::alloc::{AllocError, Global};

/// Which text that is.
#[derive(Clone, Copy, PartialEq, Eq)]
pub(crate) enum TextId {
    /// The snapshot, which many share: the number that what answers gave it.
    Opening(u64),
    /// The snapshot for the connection at this place alone.
    Own(usize),
    /// A commit: the number that the hub gave it.
    Commit(u64),
}

/// A text, of so many bytes, that so many screens have yet to take.
#[derive(Clone, Copy)]
pub(crate) struct Text {
    // No other text of the list has it.
    id: TextId,
    // How many bytes it has.
    length: usize,
    // How many screens have yet to take it: one at least.
    readers: usize,
}

/// Long texts, each with a reader, and none of them twice.
#[derive(Drop)]
pub(crate) struct Texts {
    // In the order in which they came.
    list: Vec<Text>,
    ghost read: { HaveReaders list.items },
    ghost once: { AreDistinct list.items },
}

impl Texts {
    fn new(alloc: Global) -> Texts
        ensures { result.list.items ≡ [] }
    {
        Texts {
            list: Vec::new(alloc),
        }
    }

    fn total(&self) -> usize
        ensures { result ≡ min (total self.now.list.items) (2 ^ 64 - 1) }
    {
        let mut total: usize = 0;
        for text in &self.list {
            total = total.saturating_add(text.length);
        }
        total
    }

    /// Where a text is.
    fn find(&self, id: TextId) -> Option<usize>
        ensures some { IfSome result (λ at. (at < length self.now.list.items)
            × HoldsAt (λ text. text.id ≡ id) self.now.list.items at) }
        ensures none { result ≡ None → HasNone self.now.list.items id }
    {
        for at in 0..self.list.len() {
            if self.list[at].id == id {
                return Some(at);
            }
        }
        None
    }

    /// One more screen has yet to take a text.
    fn add(&mut self, id: TextId, length: usize) -> Result<(), AllocError>
        ensures ok { OnOk result (Adds id length self.old.list.items self.new.list.items) }
        ensures err { OnErr result (self.new.list.items ≡ self.old.list.items) }
    {
        if let Some(at) = self.find(id) {
            let text = &mut self.list[at];
            text.readers = text.readers.saturating_add(1);
            return Ok(());
        }
        let text = Text {
            id,
            length,
            readers: 1,
        };
        match self.list.push(text) {
            Ok(()) => Ok(()),
            Err(_) => Err(AllocError),
        }
    }

    /// A screen took a text, or left. Nobody has yet to take it once the last one has.
    fn remove(&mut self, id: TextId)
        ensures { Removes id self.old.list.items self.new.list.items }
    {
        let Some(at) = self.find(id) else {
            return;
        };
        let readers = self.list[at].readers;
        if readers > 1 {
            self.list[at].readers = readers - 1;
        } else {
            let _text = self.list.remove(at);
        }
    }
}

/// The long texts that screens have yet to take: each has just as many readers as there are places
/// whose screens have it.
#[derive(Drop)]
pub(crate) struct Pending {
    /// Each once, for however many screens it is.
    texts: Texts,
    /// The text that the screen at each place has yet to take.
    places: Vec<Option<TextId>>,
    ghost counted: { AreCounted texts.list.items places.items },
}

impl Pending {
    /// No text yet.
    pub(crate) fn new(alloc: Global) -> Pending
        ensures { (at : ℕ) → owed_text_at result.places.items at ≡ None }
    {
        Pending {
            texts: Texts::new(alloc),
            places: Vec::new(alloc),
        }
    }

    /// How many bytes they have together, each counted once.
    pub(crate) fn total(&self) -> usize
        ensures { result ≡ min (total self.now.texts.list.items) (2 ^ 64 - 1) }
    {
        self.texts.total()
    }

    /// The text that the screen at a place has yet to take.
    fn text(&self, at: usize) -> Option<TextId>
        ensures is { result ≡ owed_text_at self.now.places.items at }
        ensures place { IfSome result (λ _. at < length self.now.places.items) }
    {
        if at < self.places.len() {
            self.places[at]
        } else {
            None
        }
    }

    /// Whether the screen at a place has yet to take a text.
    pub(crate) fn has(&self, at: usize) -> bool
        ensures { result ≡ is_some (owed_text_at self.now.places.items at) }
    {
        self.text(at).is_some()
    }

    /// The screen at a place, which has none, has yet to take a text.
    pub(crate) fn add(&mut self, at: usize, id: TextId, length: usize) -> Result<(), AllocError>
        requires { owed_text_at self.old.places.items at ≡ None }
        ensures ok { OnOk result (Adds id length self.old.texts.list.items
            self.new.texts.list.items) }
        ensures err { OnErr result (self.new.texts.list.items ≡ self.old.texts.list.items) }
        ensures has { OnOk result (owed_text_at self.new.places.items at ≡ Some id) }
        ensures none { OnErr result (owed_text_at self.new.places.items at ≡ None) }
        ensures others { (other : ℕ) → other ≢ at → owed_text_at self.new.places.items other
            ≡ owed_text_at self.old.places.items other }
    {
        reach(&mut self.places, at)?;
        self.texts.add(id, length)?;
        self.places[at] = Some(id);
        Ok(())
    }

    /// The screen at a place took its text, or left. Whether it had one.
    pub(crate) fn remove(&mut self, at: usize) -> bool
        ensures paid { Pays (owed_text_at self.old.places.items at) self.old.texts.list.items
            self.new.texts.list.items }
        ensures none { owed_text_at self.new.places.items at ≡ None }
        ensures others { (other : ℕ) → other ≢ at → owed_text_at self.new.places.items other
            ≡ owed_text_at self.old.places.items other }
    {
        let Some(id) = self.text(at) else {
            return false;
        };
        self.places[at] = None;
        self.texts.remove(id);
        true
    }
}

/// There are as many places as there have to be for this one.
fn reach(places: &mut Vec<Option<TextId>>, at: usize) -> Result<(), AllocError>
    ensures same { (other : ℕ) → owed_text_at places.new.items other
        ≡ owed_text_at places.old.items other }
    ensures takers { (id : TextId) → takers id places.new.items ≡ takers id places.old.items }
    ensures ok { OnOk result (at < length places.new.items) }
{
    while places.len() <= at {
        places.push(None)?;
    }
    Ok(())
}
