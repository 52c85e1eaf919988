//! The text of one object.

ghost use Rattle.std.specs.Prelude.{◌≡◌, ◌≤◌, ◌==◌, length, not, IsTrue, IsUtf8, MatchBool, List, IfOk, IfErr, OnOk};
ghost use Rattle.feed_text.specs.Ascii.{line_feed};
ghost use Rattle.feed_text.specs.Limits.{object_bytes, object_depth};
ghost use Rattle.feed_text.specs.Objects.{IsObjectText, IsObjectFaultOf, IsUnbroken, SpellsWithin, SpellsDeeper};
ghost use Rattle.feed_text.specs.Reading.{is_object_alone, rest_of, value_at};

use crate::nesting::nests_to;
use crate::value::{after_value, first_byte};
use std::alloc::{AllocError, Global};
use std::marker::Model;
use std::rc::RcSlice;
use thiserror::Error;

/// Why a text is no object that can be kept, the first that holds.
#[derive(Clone, Copy, Debug, PartialEq, Eq, Error)]
pub enum ObjectFault {
    /// It has over 1,048,576 bytes.
    #[error("object too long")]
    Long,
    /// It is not UTF-8.
    #[error("not UTF-8")]
    Utf8,
    /// It has a line feed.
    #[error("line break in object")]
    LineBreak,
    /// Some prefix has a level of 101 or more.
    #[error("nested too deep")]
    Deep,
    /// It is not one JSON object with nothing around it.
    #[error("not a JSON object")]
    Syntax,
    /// Nothing is wrong with it, but memory ran out.
    #[error("out of memory")]
    Memory,
}

/// The greatest number of bytes of an object's text.
pub const OBJECT_BYTES: usize = 1_048_576;

/// How deep an object's text may nest.
pub const OBJECT_LEVELS: usize = 100;

/// The first level that is too deep in an object's text.
const TOO_DEEP: usize = OBJECT_LEVELS + 1;

/// One JSON object with nothing around it, as its text. A copy shares the bytes.
#[derive(Drop)]
pub struct ObjectText {
    text: RcSlice<u8>,
}

impl Model for ObjectText {
    ghost use Rattle.std.specs.Prelude.{ℕ, List};
    ghost use Rattle.std.specs.Rc.{rc_slice_items};
    ghost use Rattle.feed_text.specs.Objects.{IsObjectText};

    ghost Value = { List ℕ };

    ghost view = { λ o. rc_slice_items o.text };

    ghost invariant = { λ o. IsObjectText (rc_slice_items o.text) };
}

impl ObjectText {
    /// A copy of the text, where it is one JSON object with nothing around it and no line feed in
    /// it, of at most 1,048,576 bytes and 100 levels. The fault is the first of those that hold.
    #[tactic(auto, using(crate::proofs::Kept::object_text))]
    pub fn parse(alloc: Global, bytes: &[u8]) -> Result<ObjectText, ObjectFault>
        ensures text { IfOk result (λ object. object ≡ bytes.now) }
        ensures object { OnOk result (IsObjectText bytes.now) }
        ensures fault { IfErr result (λ fault. IsObjectFaultOf bytes.now fault) }
    {
        if bytes.len() > OBJECT_BYTES {
            return Err(ObjectFault::Long);
        }
        if std::str::from_utf8(bytes).is_err() {
            return Err(ObjectFault::Utf8);
        }
        if has_line_feed(bytes) {
            return Err(ObjectFault::LineBreak);
        }
        if !is_object(bytes, OBJECT_LEVELS) {
            return Err(fault_of(bytes));
        }
        match ObjectText::from_object(alloc, bytes) {
            Ok(object) => Ok(object),
            Err(_) => Err(ObjectFault::Memory),
        }
    }

    /// A copy of a text that is known to be such an object: it is not read again. Fails only where
    /// memory for the bytes is refused.
    pub fn from_object(alloc: Global, bytes: &[u8]) -> Result<ObjectText, AllocError>
        requires { IsObjectText bytes.now }
        ensures { IfOk result (λ object. object ≡ bytes.now) }
    {
        let text = RcSlice::from_slice(alloc, bytes)?;
        Ok(ObjectText { text })
    }

    /// The bytes of the text.
    pub fn bytes(&self) -> &[u8]
        ensures text { result.now ≡ self.now }
        ensures object { IsObjectText self.now }
    {
        self.text.as_slice()
    }

    /// The same text again; the bytes are shared. Takes no memory, and fails only where the copies
    /// are too many to be counted.
    pub fn copy(&self) -> Result<ObjectText, AllocError>
        ensures { IfOk result (λ object. object ≡ self.now) }
    {
        let text = self.text.clone()?;
        Ok(ObjectText { text })
    }
}

#[tactic(auto, using(crate::proofs::Kept::line_feeds))]
fn has_line_feed(bytes: &[u8]) -> bool
    ensures { MatchBool result (¬ IsUnbroken bytes.now) (IsUnbroken bytes.now) }
{
    bytes.contains(&b'\n')
}

/// What is wrong with a text that is no object within the limit.
#[tactic(auto, using(crate::proofs::Kept::no_object))]
fn fault_of(bytes: &[u8]) -> ObjectFault
    requires size { length bytes.now ≤ object_bytes }
    requires utf8 { IsUtf8 bytes.now }
    requires unbroken { IsUnbroken bytes.now }
    requires none { SpellsDeeper object_depth bytes.now }
    ensures { IsObjectFaultOf bytes.now result }
{
    if nests_to(bytes, TOO_DEEP) {
        return ObjectFault::Deep;
    }
    ObjectFault::Syntax
}

/// Whether a UTF-8 text is one object with nothing around it, nested at most so deep.
#[tactic(auto, using(crate::proofs::Kept::alone_spells, crate::proofs::Kept::not_alone))]
fn is_object(bytes: &[u8], levels: usize) -> bool
    requires { IsUtf8 bytes.now }
    ensures { MatchBool result (SpellsWithin levels bytes.now) (SpellsDeeper levels bytes.now) }
{
    is_read_alone(bytes, levels)
}

fn is_read_alone(bytes: &[u8], levels: usize) -> bool
    ensures { result ≡ is_object_alone bytes.now (rest_of (value_at levels bytes.now)) }
{
    match after_value(bytes, levels) {
        Some(rest) => first_byte(bytes) == b'{' && rest.is_empty(),
        None => false,
    }
}
