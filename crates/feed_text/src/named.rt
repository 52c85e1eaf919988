//! The members of a line under four names, in any order.
//!
//! A notification has members `type`, `id`, `data` and `token`, and servers write them in different
//! orders, with others among them. One pass over the line keeps the value of the last of each name
//! as a slice, and takes no memory.

ghost use Rattle.std.specs.Prelude.{◌≡◌, ℕ, [], IfSome, IsTrue, Some, option_map};
ghost use Rattle.feed_text.specs.Members.{item_view, ArePlain, AreLastValues, AreSpeltValues, IsPlainString};
ghost use Rattle.feed_text.specs.FourNames.{IsKeyAt, IsNamed, IsPlainFor, with_value, PlainIfSaid, TakesMember, TakesAll, LineTakes};
ghost use Rattle.feed_text.specs.Reading.{value_at, item_at, item_and_rest};
ghost use Rattle.feed_text.specs.Scan.{HoldsNamed, NestsTooDeep};

use crate::ascii::is_text;
use crate::line::VALUE_LEVELS;
use crate::run::skip_unescaped;
use crate::scalar::{after_byte, after_mark, skip_white_space};
use crate::value::{Item, first_byte, next_item, prefix};

/// The values of the last members of a line whose names are `type`, `id`, `data` and `token`, as
/// slices of the line.
#[derive(Clone, Copy)]
pub struct NamedMembers<'a> {
    /// The value of `type`.
    pub kind: Option<Item<'a>>,
    /// The value of `id`.
    pub id: Option<Item<'a>>,
    /// The value of `data`.
    pub content: Option<Item<'a>>,
    /// The value of `token`.
    pub token: Option<Item<'a>>,
    /// Whether each value that stands under `type`, `id` and `token` is a string without a
    /// backslash.
    pub are_plain: bool,
}

/// Which of the four names a key has, if any.
#[derive(Clone, Copy)]
enum Key {
    Kind,
    Id,
    Content,
    Token,
    Other,
}

/// One of the four keys, where it stands to the letter behind a quotation mark, and what comes
/// after its colon.
#[inline(always)]
fn usual_key(text: &[u8]) -> Option<(Key, &[u8])>
    ensures { IfSome result (λ found. IsKeyAt text.now found.0 found.1.now) }
{
    match first_byte(text) {
        b't' => kind_or_token(text),
        b'i' => Some((Key::Id, text.strip_prefix(b"id\":")?)),
        b'd' => Some((Key::Content, text.strip_prefix(b"data\":")?)),
        _ => None,
    }
}

/// The same, of a type and a token.
#[inline(always)]
fn kind_or_token(text: &[u8]) -> Option<(Key, &[u8])>
    ensures { IfSome result (λ found. IsKeyAt text.now found.0 found.1.now) }
{
    match text.strip_prefix(b"type\":") {
        Some(rest) => Some((Key::Kind, rest)),
        None => Some((Key::Token, text.strip_prefix(b"token\":")?)),
    }
}

/// Which of the four names this is.
fn key_of(name: &[u8]) -> Key
    ensures { IsNamed result name.now }
{
    if name == b"type".as_slice() {
        return Key::Kind;
    }
    if name == b"id".as_slice() {
        return Key::Id;
    }
    if name == b"data".as_slice() {
        return Key::Content;
    }
    if name == b"token".as_slice() {
        return Key::Token;
    }
    Key::Other
}

/// A key without a backslash behind its quotation mark, and what comes after its colon. It is a
/// call of its own, so that what reads the four names stays short.
#[inline(never)]
fn any_key(text: &[u8]) -> Option<(Key, &[u8])>
    ensures { IfSome result (λ found. IsKeyAt text.now found.0 found.1.now) }
{
    let end = skip_unescaped(text);
    let rest = after_byte(end, b'"')?;
    let value = after_mark(rest, b':')?;
    Some((key_of(prefix(text, end)), value))
}

/// A key without a backslash behind its quotation mark, and what comes after its colon.
#[inline(always)]
fn next_key(text: &[u8]) -> Option<(Key, &[u8])>
    ensures { IfSome result (λ found. IsKeyAt text.now found.0 found.1.now) }
{
    match usual_key(text) {
        Some(found) => Some(found),
        None => any_key(text),
    }
}

/// A string without a backslash with the white space around it, and what comes after that.
#[inline(always)]
fn next_plain(text: &[u8]) -> Option<(Item<'_>, &[u8])>
    ensures item { (levels : ℕ) → IfSome result (λ found. Some (item_view found.0, found.1.now)
        ≡ item_and_rest (item_at (value_at levels) text.now)) }
    ensures plain { IfSome result (λ found. IsPlainString found.0) }
{
    let start = skip_white_space(text);
    let inside = after_byte(start, b'"')?;
    let rest = after_byte(skip_unescaped(inside), b'"')?;
    let text = prefix(start, rest);
    Some((Item { text }, skip_white_space(rest)))
}

/// Any value with the white space around it, in a call of its own.
#[inline(never)]
fn any_item(text: &[u8], levels: usize) -> Option<(Item<'_>, &[u8])>
    ensures { option_map (λ x. (item_view x.0, x.1.now)) result
        ≡ item_and_rest (item_at (value_at levels) text.now) }
{
    next_item(text, levels)
}

/// The value of a key with the white space around it, what comes after that, and whether it is a
/// string without a backslash where it has to be one.
#[inline(always)]
fn value_of(key: Key, text: &[u8], levels: usize) -> Option<(Item<'_>, &[u8], bool)>
    ensures item { IfSome result (λ found. Some (item_view found.0, found.1.now)
        ≡ item_and_rest (item_at (value_at levels) text.now)) }
    ensures plain { IfSome result (λ found. IsTrue found.2 → IsPlainFor key found.0) }
{
    match key {
        Key::Content => {
            let (item, rest) = next_item(text, levels)?;
            Some((item, rest, true))
        }
        Key::Other => {
            let (item, rest) = any_item(text, levels)?;
            Some((item, rest, true))
        }
        Key::Kind | Key::Id | Key::Token => name_value(text, levels),
    }
}

/// The same, of a type, an id or a token.
#[inline(always)]
fn name_value(text: &[u8], levels: usize) -> Option<(Item<'_>, &[u8], bool)>
    ensures item { IfSome result (λ found. Some (item_view found.0, found.1.now)
        ≡ item_and_rest (item_at (value_at levels) text.now)) }
    ensures plain { IfSome result (λ found. IsTrue found.2 → IsPlainString found.0) }
{
    match next_plain(text) {
        Some((item, rest)) => Some((item, rest, true)),
        None => {
            let (item, rest) = any_item(text, levels)?;
            Some((item, rest, false))
        }
    }
}

impl<'a> NamedMembers<'a> {
    /// Those of an object without members.
    #[inline(always)]
    fn none() -> NamedMembers<'a>
        ensures last { AreLastValues [] result }
        ensures plain { ArePlain result }
    {
        NamedMembers {
            kind: None,
            id: None,
            content: None,
            token: None,
            are_plain: true,
        }
    }

    /// Has the value of a member, where its name is one of the four, and whether it is plain.
    #[inline(always)]
    fn put(&mut self, key: Key, value: Item<'a>, is_plain: bool)
        ensures { self.new ≡ with_value key value.entry is_plain self.old }
    {
        self.are_plain &= is_plain;
        match key {
            Key::Kind => self.kind = Some(value),
            Key::Id => self.id = Some(value),
            Key::Content => self.content = Some(value),
            Key::Token => self.token = Some(value),
            Key::Other => {}
        }
    }

    /// Takes the member behind a quotation mark, and gives what comes after it.
    #[inline(always)]
    fn take_member(&mut self, text: &'a [u8], levels: usize) -> Option<&'a [u8]>
        ensures { IfSome result
            (λ rest. TakesMember levels text.now self.old self.new rest.now) }
    {
        let (key, value) = next_key(text)?;
        let (item, rest, is_plain) = value_of(key, value, levels)?;
        self.put(key, item, is_plain);
        Some(rest)
    }
}

/// The members up to the closing brace, and what comes after it.
#[inline(always)]
fn named_members(text: &[u8], levels: usize) -> Option<(NamedMembers<'_>, &[u8])>
    ensures { IfSome result (λ found. TakesAll levels text.now found.0 found.1.now) }
{
    let mut found = NamedMembers::none();
    if let Some(end) = after_mark(text, b'}') {
        return Some((found, end));
    }
    let mut rest = text;
    loop {
        let after = found.take_member(after_mark(rest, b'"')?, levels)?;
        if let Some(end) = after_byte(after, b'}') {
            return Some((found, end));
        }
        rest = after_byte(after, b',')?;
    }
}

/// The same of a line, whose values nest at most so deep.
#[inline(always)]
fn named_of_line(line: &[u8], levels: usize) -> Option<NamedMembers<'_>>
    ensures { IfSome result (λ found. LineTakes levels line.now found) }
{
    let (found, rest) = named_members(after_mark(line, b'{')?, levels)?;
    if skip_white_space(rest).is_empty() {
        Some(found)
    } else {
        None
    }
}

/// The last members of the four names among those that [`scan`](crate::scan) finds. None where some
/// key of the line has a backslash, and where the line has a fault. Takes no memory.
pub fn scan_named(line: &[u8]) -> Option<NamedMembers<'_>>
    ensures members { IfSome result (λ found. HoldsNamed line.now found) }
    ensures spelt { IfSome result (λ found. AreSpeltValues found) }
    ensures depth { IfSome result (λ _. ¬ NestsTooDeep line.now) }
    ensures plain { IfSome result (λ found. IsTrue found.are_plain → ArePlain found) }
{
    let found = named_of_line(line, VALUE_LEVELS)?;
    if is_text(line) { Some(found) } else { None }
}
