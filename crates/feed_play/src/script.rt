//! The lines of a script: their words and numbers, and what those ask for that are not the first.

ghost use Rattle.std.specs.Prelude.{◌≡◌, ◌≢◌, ◌≤◌, ◌<◌, ◌++◌, ◌∷◌, [], ℕ, List, length, position, Option, Some, None, IfSome, IfNone, IfOk, IfErr, true};
ghost use Rattle.std.specs.Option.{option_and_then};
ghost use Rattle.std.specs.Char.{is_ascii_digit};
ghost use Rattle.std.specs.List.{list_all};
ghost use Rattle.std.specs.Str.{bytes_eq};
ghost use Rattle.std.specs.Str.Parse.{digits_value};
ghost use Rattle.feed_play.specs.Script.{is_space, words, is_script_number as says_number, script_number, numbers_in, one_of, two_of, three_of, listed_for, connect_listed, connect_named, connect_of, other_by, action_in};
ghost use Rattle.feed_play.specs.declared.fault.PlayCause.TheVariants.{Script, Memory};

use crate::fault::PlayCause;
use crate::first::Asked;
use feed_world::Event;
use std::alloc::Global;

/// What a line of a script asks for.
#[derive(Drop)]
pub enum Action {
    /// The primary commits the changes of the next feed lines, this many.
    Commit(usize),
    /// This event happens, which is no commit.
    Event(Event),
    /// What the node of this number shows is printed.
    Show(usize),
}

/// The greatest number of digits of a number.
const DIGITS: usize = 9;

fn space_in(text: &[u8]) -> Option<usize>
    ensures { result ≡ position is_space text.now }
{
    text.iter().position(|byte| *byte == b' ')
}

/// The first word of a text, and what comes after the space that ends it.
pub fn split_word(text: &[u8]) -> (&[u8], Option<&[u8]>)
    ensures last { IfNone result.1 (words text.now ≡ result.0.now ∷ []) }
    ensures more { IfSome result.1 (λ behind. words text.now ≡ result.0.now ∷ words behind.now) }
    ensures shorter { IfSome result.1 (λ behind. length behind.now < length text.now) }
{
    match space_in(text) {
        Some(end) => (&text[..end], Some(&text[end + 1..])),
        None => (text, None),
    }
}

fn are_digits(word: &[u8]) -> bool
    ensures { result ≡ list_all is_ascii_digit word.now }
{
    word.iter().all(|byte| byte.is_ascii_digit())
}

fn is_number(word: &[u8]) -> bool
    ensures { result ≡ says_number word.now }
{
    !word.is_empty() && word.len() <= DIGITS && are_digits(word)
}

/// The number that decimal digits say.
fn value_of(digits: &[u8]) -> usize
    requires { says_number digits.now ≡ true }
    ensures { result ≡ digits_value 10 digits.now }
{
    let mut number = 0;
    'digits: for digit in digits {
        number = number * 10 + usize::from(*digit - b'0');
    }
    number
}

/// The number that a word says: 1 to 9 decimal digits.
pub fn read_number(word: &[u8]) -> Option<usize>
    ensures { result ≡ script_number word.now }
{
    if is_number(word) {
        Some(value_of(word))
    } else {
        None
    }
}

/// The numbers that the words of a text say.
pub fn read_numbers(alloc: Global, text: &[u8]) -> Result<Vec<usize>, PlayCause>
    ensures ok { IfOk result (λ numbers. numbers_in (words text.now) ≡ Some numbers.items) }
    ensures err { IfErr result (λ cause. cause ≢ Memory
        → (cause ≡ Script) × (numbers_in (words text.now) ≡ None)) }
{
    let mut numbers = Vec::new(alloc);
    let mut left = text;
    'words: loop {
        let (word, behind) = split_word(left);
        let Some(number) = read_number(word) else {
            return Err(PlayCause::Script);
        };
        numbers.push(number)?;
        match behind {
            Some(more) => left = more,
            None => return Ok(numbers),
        }
    }
}

/// Whether a word is this text.
pub fn is(word: &[u8], text: &str) -> bool
    ensures { result ≡ bytes_eq word.now text.now }
{
    word == text.as_bytes()
}

/// The number that a text says, where it is one word.
fn read_one(text: &[u8]) -> Option<usize>
    ensures { result ≡ option_and_then one_of (numbers_in (words text.now)) }
{
    // No digit is a space.
    read_number(text)
}

/// The numbers that a text of two words says.
fn read_two(text: &[u8]) -> Option<(usize, usize)>
    ensures { result ≡ option_and_then two_of (numbers_in (words text.now)) }
{
    let (first, behind) = split_word(text);
    let first = read_number(first)?;
    Some((first, read_one(behind?)?))
}

/// The numbers that a text of three words says.
fn read_three(text: &[u8]) -> Option<(usize, usize, usize)>
    ensures { result ≡ option_and_then three_of (numbers_in (words text.now)) }
{
    let (first, behind) = split_word(text);
    let first = read_number(first)?;
    let (second, third) = read_two(behind?)?;
    Some((first, second, third))
}

/// The node that is listed for the mirror of this number; the primary where none is.
fn listed_node(upstreams: &[usize], number: usize) -> usize
    ensures { result ≡ listed_for upstreams.now number }
{
    match number.checked_sub(1) {
        Some(place) => upstreams.get(place).copied().unwrap_or(0),
        None => 0,
    }
}

/// The connect of a mirror to the node that is listed for it.
fn read_listed(upstreams: &[usize], numbers: &[u8]) -> Option<Action>
    ensures { result
        ≡ option_and_then (connect_listed upstreams.now) (numbers_in (words numbers.now)) }
{
    let (number, back) = match read_two(numbers) {
        Some(both) => both,
        None => (read_one(numbers)?, 0),
    };
    let server = listed_node(upstreams, number);
    Some(Action::Event(Event::Connect(number, server, back)))
}

/// The connect of a mirror to the node that is named.
fn read_named(numbers: &[u8]) -> Option<Action>
    ensures { result ≡ option_and_then connect_named (numbers_in (words numbers.now)) }
{
    if let Some((number, server, back)) = read_three(numbers) {
        return Some(Action::Event(Event::Connect(number, server, back)));
    }
    let (number, server) = read_two(numbers)?;
    Some(Action::Event(Event::Connect(number, server, 0)))
}

/// The connect that these numbers ask for.
fn read_connect(asked: &Asked, numbers: &[u8]) -> Option<Action>
    ensures { result
        ≡ option_and_then (connect_of asked.now.upstreams) (numbers_in (words numbers.now)) }
{
    match asked.upstreams() {
        Some(upstreams) => read_listed(upstreams, numbers),
        None => read_named(numbers),
    }
}

/// What this name asks for with one number.
fn action_named(name: &[u8], number: usize) -> Option<Action>
    ensures { result ≡ other_by name.now (number ∷ []) }
{
    if is(name, "commit") {
        Some(Action::Commit(number))
    } else if is(name, "serve") {
        Some(Action::Event(Event::Serve(number)))
    } else if is(name, "idle") {
        Some(Action::Event(Event::Idle(number)))
    } else if is(name, "cut") {
        Some(Action::Event(Event::Cut(number)))
    } else if is(name, "save") {
        Some(Action::Event(Event::Save(number)))
    } else if is(name, "show") {
        Some(Action::Show(number))
    } else {
        None
    }
}

/// What this name asks for with two numbers.
fn action_of_two(name: &[u8], first: usize, second: usize) -> Option<Action>
    ensures { result ≡ other_by name.now (first ∷ second ∷ []) }
{
    if is(name, "deliver") {
        Some(Action::Event(Event::Deliver(first, second)))
    } else if is(name, "restart") {
        Some(Action::Event(Event::Restart(first, second)))
    } else {
        None
    }
}

/// What another name than that of a connect asks for with these numbers.
fn read_other(name: &[u8], numbers: &[u8]) -> Option<Action>
    ensures { result ≡ option_and_then (other_by name.now) (numbers_in (words numbers.now)) }
{
    if let Some((first, second)) = read_two(numbers) {
        return action_of_two(name, first, second);
    }
    let number = read_one(numbers)?;
    action_named(name, number)
}

/// What a line of a script asks for that is not the first.
pub fn read_action(asked: &Asked, line: &[u8]) -> Option<Action>
    ensures { result ≡ action_in asked.now line.now }
{
    let (name, numbers) = split_word(line);
    if is(name, "connect") {
        read_connect(asked, numbers?)
    } else {
        read_other(name, numbers?)
    }
}
