//! Long texts that several screens are sent, each kept once.

ghost use Rattle.std.specs.Prelude.{◌≡◌, ◌⊎◌, ◌+◌, ◌≤◌, None, Some, false, IfSome, IfNone, Contains, length};
ghost use Rattle.std.specs.List.{list_any};
ghost use Rattle.feed_hub.specs.declared.frames.Frame.{Frame};
ghost use Rattle.feed_hub.specs.Frames.{is_since, IsKeptAs, KeepsOneMore, GivesNumber};

use bytes::Bytes;
use std::alloc::Global;

/// How many bytes a text has at least that is long: it is looked for among those that are kept, and
/// it waits for room. With a thousand screens shorter ones take less than 64 MiB.
pub const LONG: usize = 65_536;

/// A long text, with a number that no other has.
#[derive(Drop)]
struct Frame {
    number: u64,
    text: Bytes,
}

/// A text that a screen is sent. A long one has a number where it is kept: those who share it have
/// the same.
#[derive(Drop)]
pub(crate) struct Shared {
    pub(crate) text: Bytes,
    pub(crate) number: Option<u64>,
}

/// The long texts that some screen has yet to take.
#[derive(Drop)]
pub(crate) struct Frames {
    kept: Vec<Frame>,
    next: u64,
}

impl Frames {
    /// No text yet.
    pub(crate) fn new(alloc: Global) -> Frames {
        Frames {
            kept: Vec::new(alloc),
            next: 0,
        }
    }

    /// Forgets the texts that no screen has any more.
    pub(crate) fn tidy(&mut self)
        ensures kept { (frame : Frame) → Contains self.new.kept.items frame
            → Contains self.old.kept.items frame }
        ensures next { self.new.next ≡ self.old.next }
    {
        self.kept.retain(|frame| !frame.text.is_unique());
    }

    /// The text that is kept with these bytes.
    fn find(&self, bytes: &[u8]) -> Option<Shared>
        ensures text { IfSome result (λ shared. shared.text ≡ bytes.now) }
        ensures number { IfSome result (λ shared.
            IfSome shared.number (IsKeptAs self.now.kept.items bytes.now)) }
    {
        for frame in &self.kept {
            if frame.text.as_slice() == bytes {
                let text = frame.text.clone().ok()?;
                let number = Some(frame.number);
                return Some(Shared { text, number });
            }
        }
        None
    }

    /// Keeps a text, where there is memory for that, and a number that none had. Its number then.
    fn keep(&mut self, text: &Bytes) -> Option<u64>
        ensures number { IfSome result
            (λ number. (number ≡ self.old.next) × (self.new.next ≡ self.old.next + 1)) }
        ensures kept { IfSome result
            (λ number. KeepsOneMore self.old.kept.items self.new.kept.items text.now number) }
        ensures none { IfNone result
            ((self.new.next ≡ self.old.next) × (self.new.kept.items ≡ self.old.kept.items)) }
    {
        let text = text.clone().ok()?;
        let number = self.next;
        let next = number.checked_add(1)?;
        self.kept.push(Frame { number, text }).ok()?;
        self.next = next;
        Some(number)
    }

    /// How many texts were kept so far.
    pub(crate) fn made(&self) -> u64
        ensures { result ≡ self.now.next }
    {
        self.next
    }

    /// Whether a text of so many bytes is kept that was made after so many others.
    pub(crate) fn has_since(&self, made: u64, length: usize) -> bool
        ensures { result ≡ list_any (is_since made length) self.now.kept.items }
    {
        self.kept
            .iter()
            .any(|frame| frame.number >= made && frame.text.len() == length)
    }

    /// The same text: where another screen has a long one with the same bytes, they share that. A
    /// long one that nobody has yet needs room.
    pub(crate) fn share(&mut self, text: Bytes, has_room: bool) -> Option<Shared>
        ensures text { IfSome result (λ shared. shared.text ≡ text) }
        ensures none { result ≡ None → (has_room ≡ false) × (65536 ≤ length text) }
        // its number is that of the same text, or the next one, so that no other text gets it
        ensures number { IfSome result
            (λ shared. GivesNumber self.old self.new text shared.number) }
        ensures kept { (frame : Frame) → Contains self.new.kept.items frame
            → Contains self.old.kept.items frame
            ⊎ (frame.text ≡ text) × (frame.number ≡ self.old.next) }
    {
        if text.len() < LONG {
            return Some(Shared { text, number: None });
        }
        self.tidy();
        if let Some(shared) = self.find(text.as_slice()) {
            return Some(shared);
        }
        if !has_room {
            return None;
        }
        let number = self.keep(&text);
        Some(Shared { text, number })
    }
}
