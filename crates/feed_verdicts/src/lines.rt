//! What is printed of a verdict, as lines.

ghost use Rattle.std.specs.Prelude.{◌≡◌, ◌++◌, OnOk, decimal};
ghost use Rattle.std.specs.Option.{option_copied};
ghost use Rattle.feed_verdicts.specs.Verdicts.{whole_characters as characters, object_text, side_text, place_text, difference_text, end_text, verdict_text as text_of, agreement_text, differs_text, stray_text};

use feed_audit::{Difference, Side, Stray};
use feed_tables::Name;
use std::alloc::{AllocError, Global};

/// How many bytes of an object are printed at most, where it isn't to be printed whole.
const PRINTED_BYTES: usize = 200;

/// Appends a number in decimal digits.
pub(crate) fn print_number(
    alloc: Global,
    number: usize,
    out: &mut Vec<u8>,
) -> Result<(), AllocError>
    ensures { OnOk result (out.new.items ≡ out.old.items ++ decimal number) }
{
    let text = format!(in alloc; "{number}")?;
    out.extend_from_slice(text.as_bytes())
}

/// Appends the line that says so: so many states of the screen's record are states of the
/// primary's, which has so many. Out of memory, a part of it may be appended.
pub fn print_agreement(
    alloc: Global,
    states: usize,
    primary: usize,
    out: &mut Vec<u8>,
) -> Result<(), AllocError>
    ensures { OnOk result (out.new.items ≡ out.old.items ++ agreement_text states primary) }
{
    out.extend_from_slice(b"agrees: ")?;
    print_number(alloc, states, out)?;
    out.extend_from_slice(b" states of ")?;
    print_number(alloc, primary, out)?;
    out.extend_from_slice(b"\n")
}

/// The characters that are whole among these bytes.
fn whole_characters(bytes: &[u8]) -> &[u8]
    ensures { result.now ≡ characters bytes.now }
{
    match std::str::from_utf8(bytes) {
        Ok(_) => bytes,
        Err(error) => &bytes[..error.valid_up_to()],
    }
}

/// Appends an object: whole where that is asked for, and else its first 200 bytes, as far as they
/// are whole characters, and dots where there are more.
fn print_object(object: &[u8], whole: bool, out: &mut Vec<u8>) -> Result<(), AllocError>
    ensures { OnOk result (out.new.items ≡ out.old.items ++ object_text whole object.now) }
{
    if whole {
        return out.extend_from_slice(object);
    }
    if object.len() <= PRINTED_BYTES {
        return out.extend_from_slice(object);
    }
    let (front, _) = object.split_at(PRINTED_BYTES);
    out.extend_from_slice(whole_characters(front))?;
    out.extend_from_slice(b"...")
}

/// Appends what stands on one side.
fn print_side(side: &Side, whole: bool, out: &mut Vec<u8>) -> Result<(), AllocError>
    ensures { OnOk result (out.new.items ≡ out.old.items ++ side_text whole side.now) }
{
    match side {
        Side::Nothing => out.extend_from_slice(b"nothing"),
        Side::Object(object) => print_object(object.bytes(), whole, out),
        Side::Collection => out.extend_from_slice(b"a collection"),
    }
}

/// Appends a type, and an id where there is one.
fn print_place(kind: &Name, id: Option<&Name>, out: &mut Vec<u8>) -> Result<(), AllocError>
    ensures { OnOk result (out.new.items
        ≡ out.old.items ++ place_text kind.now (option_copied id.entry)) }
{
    out.extend_from_slice(kind.text().as_bytes())?;
    match id {
        Some(id) => {
            out.extend_from_slice(b" ")?;
            out.extend_from_slice(id.text().as_bytes())
        }
        None => Ok(()),
    }
}

/// Appends the line that says where the primary's record ends: at a token, or with none.
fn print_end(last: Option<&Name>, out: &mut Vec<u8>) -> Result<(), AllocError>
    ensures { OnOk result (out.new.items ≡ out.old.items ++ end_text (option_copied last.entry)) }
{
    match last {
        Some(last) => {
            out.extend_from_slice(b"the primary's record ends at token ")?;
            out.extend_from_slice(last.text().as_bytes())?;
            out.extend_from_slice(b"\n")
        }
        None => out.extend_from_slice(b"the primary's record publishes nothing\n"),
    }
}

/// Appends the lines that say why a state is none of the primary's.
fn print_difference(
    difference: &Difference,
    whole: bool,
    out: &mut Vec<u8>,
) -> Result<(), AllocError>
    ensures { OnOk result (out.new.items
        ≡ out.old.items ++ difference_text whole difference.now) }
{
    match difference {
        Difference::NoToken => out.extend_from_slice(b"the primary has no such token\n"),
        Difference::Ended(last) => print_end(last.as_ref(), out),
        Difference::Same => out.extend_from_slice(b"the tables are the same\n"),
        Difference::At {
            kind,
            id,
            primary,
            screen,
        } => {
            out.extend_from_slice(b"first at ")?;
            print_place(kind, id.as_ref(), out)?;
            out.extend_from_slice(b"\nprimary: ")?;
            print_side(primary, whole, out)?;
            out.extend_from_slice(b"\nscreen: ")?;
            print_side(screen, whole, out)?;
            out.extend_from_slice(b"\n")
        }
    }
}

/// How the verdict is called: a primary's record that ends too soon shows no difference.
fn verdict_text(difference: &Difference) -> &'static str
    ensures { result.now ≡ text_of difference.now }
{
    match difference {
        Difference::Ended(_) => "undecided: token ",
        _ => "differs: token ",
    }
}

/// Appends the line that says which state is none of the primary's.
fn print_state(alloc: Global, stray: &Stray, out: &mut Vec<u8>) -> Result<(), AllocError>
    ensures { OnOk result (out.new.items ≡ out.old.items ++ differs_text stray.now) }
{
    out.extend_from_slice(verdict_text(&stray.difference).as_bytes())?;
    out.extend_from_slice(stray.token.text().as_bytes())?;
    out.extend_from_slice(b" at line ")?;
    print_number(alloc, stray.line, out)?;
    out.extend_from_slice(b", after ")?;
    print_number(alloc, stray.before, out)?;
    out.extend_from_slice(b" states\n")
}

/// Appends the lines that say which state is none of the primary's, and why. Objects are printed
/// whole where that is asked for, and else their first 200 bytes. Out of memory, a part of them may
/// be appended.
pub fn print_stray(
    alloc: Global,
    stray: &Stray,
    whole: bool,
    out: &mut Vec<u8>,
) -> Result<(), AllocError>
    ensures { OnOk result (out.new.items ≡ out.old.items ++ stray_text whole stray.now) }
{
    print_state(alloc, stray, out)?;
    print_difference(&stray.difference, whole, out)
}
