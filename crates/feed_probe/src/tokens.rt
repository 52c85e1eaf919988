//! Tokens of a feed, and where their lines end.
ghost use Rattle.std.specs.Prelude.{◌≤◌, length, IfOk, IfSome};
ghost use Rattle.feed_note.specs.Lines.{HasNoLineFeed};

use feed_note::{Line, LineFault, read_line, split_line};
use std::alloc::{AllocError, Global};

/// A token, and how many bytes of the feed there are up to the end of its line.
#[derive(Drop)]
pub struct TokenEnd {
    pub token: String,
    pub end: usize,
}

/// The token of a line; none where it has none, or can't be read.
fn token_of(alloc: Global, line: &[u8]) -> Result<Option<String>, AllocError>
    requires { HasNoLineFeed line.now }
{
    match read_line(alloc, line) {
        Ok(Line::Note { changes: _, token }) => match token {
            Some(token) => Ok(Some(String::from_str(alloc, token.text())?)),
            None => Ok(None),
        },
        Err(LineFault::Memory) => Err(AllocError),
        _ => Ok(None),
    }
}

/// The token on the line of this number among those that have one, counted from 0; none where there
/// are fewer.
pub fn token_end(alloc: Global, text: &[u8], number: u64) -> Result<Option<TokenEnd>, AllocError>
    ensures { IfOk result (λ found. IfSome found (λ m. m.end ≤ length text.now)) }
{
    let mut rest = text;
    let mut passed: u64 = 0;
    'lines: while let Some((line, behind)) = split_line(rest) {
        rest = behind;
        let Some(token) = token_of(alloc, line)? else {
            continue;
        };
        if passed == number {
            return Ok(Some(TokenEnd {
                token,
                end: text.len() - rest.len(),
            }));
        }
        passed = passed.saturating_add(1);
    }
    Ok(None)
}

/// Appends the lines of a text that aren't of white space alone, each with its line feed. What
/// stands behind the last line feed is left away.
pub fn put_notes(text: &[u8], out: &mut Vec<u8>) -> Result<(), AllocError> {
    let mut rest = text;
    'lines: while let Some((line, behind)) = split_line(rest) {
        rest = behind;
        if !line.iter().all(|byte| byte.is_ascii_whitespace()) {
            out.extend_from_slice(line)?;
            out.push(b'\n')?;
        }
    }
    Ok(())
}

/// How far a token that can't have been given yet is from the newest one.
const FAR: u64 = 1_000_003;

/// How many digits of a token are read as a number.
const MOST_DIGITS: usize = 15;

/// A token that no server can have given yet, of the form of its newest one.
pub fn unheld_token(alloc: Global, newest: &str) -> Result<String, AllocError> {
    let digits = newest.trim_start_matches(|letter: char| !letter.is_ascii_digit());
    let other = newest.strip_suffix(digits).unwrap_or("");
    if digits.len() > MOST_DIGITS {
        return String::from_str(alloc, "tunygarop-probe");
    }
    match digits.parse::<u64>() {
        Ok(number) => {
            let far = number.saturating_add(FAR);
            format!(in alloc; "{other}{far}")
        }
        Err(_) => String::from_str(alloc, "tunygarop-probe"),
    }
}
