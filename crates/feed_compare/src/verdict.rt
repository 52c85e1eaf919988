//! What is printed of two servers at one token: as lines, or as a line of JSON.

use feed_audit::{Difference, Side};
use feed_tables::Name;
use feed_text::encode_string;
use std::alloc::{AllocError, Global};
use std::str;

/// How many bytes of an object are printed at most, where it isn't to be printed whole.
const PRINTED: usize = 200;

/// Appends that both have the same state at this token.
pub fn print_agreement(
    alloc: Global,
    json: bool,
    token: &str,
    out: &mut Vec<u8>,
) -> Result<(), AllocError> {
    if json {
        begin_json(alloc, "agree", token, out)?;
        return put(&["}\n"], out);
    }
    put(&["agree: token ", token, "\n"], out)
}

/// Appends where they differ at this token, and what each of them has there. Objects are printed
/// whole where that is asked for, and in JSON.
pub fn print_difference(
    alloc: Global,
    json: bool,
    whole: bool,
    token: &str,
    difference: &Difference,
    out: &mut Vec<u8>,
) -> Result<(), AllocError> {
    if json {
        begin_json(alloc, "differ", token, out)?;
        put_place_json(alloc, difference, out)?;
        return put(&["}\n"], out);
    }
    put(&["differ: token ", token, "\n"], out)?;
    put_place(whole, difference, out)
}

/// Begins a line of JSON with a verdict and its token.
fn begin_json(
    alloc: Global,
    verdict: &str,
    token: &str,
    out: &mut Vec<u8>,
) -> Result<(), AllocError> {
    put(&["{\"verdict\":\"", verdict, "\",\"token\":"], out)?;
    encode_string(alloc, token, out)
}

fn put(texts: &[&str], out: &mut Vec<u8>) -> Result<(), AllocError> {
    for text in texts {
        out.extend_from_slice(text.as_bytes())?;
    }
    Ok(())
}

fn put_place(whole: bool, difference: &Difference, out: &mut Vec<u8>) -> Result<(), AllocError> {
    match difference {
        Difference::At {
            kind,
            id,
            primary,
            screen,
        } => {
            put_name(kind, id.as_ref(), out)?;
            put_of("\nof: ", primary, whole, out)?;
            put_of("\nagainst: ", screen, whole, out)?;
            put(&["\n"], out)
        }
        _ => put(&["the tables are the same\n"], out),
    }
}

/// Appends a collection, and the id of an object in it, where there is one.
fn put_name(kind: &Name, id: Option<&Name>, out: &mut Vec<u8>) -> Result<(), AllocError> {
    put(&["first at ", kind.text()], out)?;
    match id {
        Some(id) => put(&[" ", id.text()], out),
        None => Ok(()),
    }
}

/// Appends what one of them has there, behind a text.
fn put_of(before: &str, side: &Side, whole: bool, out: &mut Vec<u8>) -> Result<(), AllocError> {
    put(&[before], out)?;
    put_side(side, whole, out)
}

fn put_side(side: &Side, whole: bool, out: &mut Vec<u8>) -> Result<(), AllocError> {
    match side {
        Side::Nothing => put(&["nothing"], out),
        Side::Collection => put(&["a collection"], out),
        Side::Object(object) => put_object(object.bytes(), whole, out),
    }
}

/// Appends an object: its first bytes, as far as they are whole characters, and dots where there
/// are more.
fn put_object(object: &[u8], whole: bool, out: &mut Vec<u8>) -> Result<(), AllocError> {
    match object.get(..PRINTED) {
        Some(front) if !whole => {
            out.extend_from_slice(whole_characters(front))?;
            put(&["..."], out)
        }
        _ => out.extend_from_slice(object),
    }
}

/// The first of these bytes, as far as they are whole characters.
fn whole_characters(bytes: &[u8]) -> &[u8] {
    match str::from_utf8(bytes) {
        Ok(_) => bytes,
        Err(error) => bytes.get(..error.valid_up_to()).unwrap_or(bytes),
    }
}

fn put_place_json(
    alloc: Global,
    difference: &Difference,
    out: &mut Vec<u8>,
) -> Result<(), AllocError> {
    match difference {
        Difference::At {
            kind,
            id,
            primary,
            screen,
        } => {
            put_name_json(alloc, kind, id.as_ref(), out)?;
            put_of_json(",\"of\":", primary, out)?;
            put_of_json(",\"against\":", screen, out)
        }
        _ => put(&[",\"why\":\"same\""], out),
    }
}

/// Appends a collection, and the id of an object in it, which may be `null`.
fn put_name_json(
    alloc: Global,
    kind: &Name,
    id: Option<&Name>,
    out: &mut Vec<u8>,
) -> Result<(), AllocError> {
    put(&[",\"why\":\"tables\",\"type\":"], out)?;
    encode_string(alloc, kind.text(), out)?;
    put(&[",\"id\":"], out)?;
    put_id_json(alloc, id, out)
}

/// Appends what one of them has there, behind the name of the member.
fn put_of_json(before: &str, side: &Side, out: &mut Vec<u8>) -> Result<(), AllocError> {
    put(&[before], out)?;
    put_side_json(side, out)
}

fn put_id_json(alloc: Global, id: Option<&Name>, out: &mut Vec<u8>) -> Result<(), AllocError> {
    match id {
        Some(id) => encode_string(alloc, id.text(), out),
        None => put(&["null"], out),
    }
}

/// Appends an object as it is, `null` for nothing, and `[]` for a collection.
fn put_side_json(side: &Side, out: &mut Vec<u8>) -> Result<(), AllocError> {
    match side {
        Side::Nothing => put(&["null"], out),
        Side::Collection => put(&["[]"], out),
        Side::Object(object) => out.extend_from_slice(object.bytes()),
    }
}
