//! What is printed of a verdict, as a line of JSON (RFC 8259).

ghost use Rattle.std.specs.Prelude.{◌≡◌, ◌++◌, OnOk};
ghost use Rattle.std.specs.Option.{option_copied};
ghost use Rattle.feed_note.specs.Written.{written_name};
ghost use Rattle.feed_verdicts.specs.Verdicts.{side_json, place_json, sides_json, difference_json, verdict_json as json_of, agreement_json, differs_json, stray_json};

use crate::lines::print_number;
use feed_audit::{Difference, Side, Stray};
use feed_tables::Name;
use feed_text::encode_string;
use std::alloc::{AllocError, Global};

/// Appends the line that says so: so many states of the screen's record are states of the
/// primary's, which has so many. Out of memory, a part of it may be appended.
pub fn print_agreement_json(
    alloc: Global,
    states: usize,
    primary: usize,
    out: &mut Vec<u8>,
) -> Result<(), AllocError>
    ensures { OnOk result (out.new.items ≡ out.old.items ++ agreement_json states primary) }
{
    out.extend_from_slice(b"{\"verdict\":\"agrees\",\"states\":")?;
    print_number(alloc, states, out)?;
    out.extend_from_slice(b",\"of\":")?;
    print_number(alloc, primary, out)?;
    out.extend_from_slice(b"}\n")
}

/// Appends what stands on one side: an object as it is, `null` for nothing, and `[]` for a
/// collection.
fn print_side(side: &Side, out: &mut Vec<u8>) -> Result<(), AllocError>
    ensures { OnOk result (out.new.items ≡ out.old.items ++ side_json side.now) }
{
    match side {
        Side::Nothing => out.extend_from_slice(b"null"),
        Side::Object(object) => out.extend_from_slice(object.bytes()),
        Side::Collection => out.extend_from_slice(b"[]"),
    }
}

/// Appends an id or a token as a string, and `null` where there is none.
fn print_name(alloc: Global, name: Option<&Name>, out: &mut Vec<u8>) -> Result<(), AllocError>
    ensures { OnOk result (out.new.items
        ≡ out.old.items ++ written_name (option_copied name.entry)) }
{
    match name {
        Some(name) => encode_string(alloc, name.text(), out),
        None => out.extend_from_slice(b"null"),
    }
}

/// Appends the members that name a type, and an id in its collection.
fn print_place(
    alloc: Global,
    kind: &Name,
    id: Option<&Name>,
    out: &mut Vec<u8>,
) -> Result<(), AllocError>
    ensures { OnOk result (out.new.items
        ≡ out.old.items ++ place_json kind.now (option_copied id.entry)) }
{
    out.extend_from_slice(b"\"why\":\"tables\",\"type\":")?;
    encode_string(alloc, kind.text(), out)?;
    out.extend_from_slice(b",\"id\":")?;
    print_name(alloc, id, out)
}

/// Appends the members that say what stands there.
fn print_sides(primary: &Side, screen: &Side, out: &mut Vec<u8>) -> Result<(), AllocError>
    ensures { OnOk result (out.new.items ≡ out.old.items ++ sides_json primary.now screen.now) }
{
    out.extend_from_slice(b",\"primary\":")?;
    print_side(primary, out)?;
    out.extend_from_slice(b",\"screen\":")?;
    print_side(screen, out)
}

/// Appends the members that say why a state is none of the primary's.
fn print_difference(
    alloc: Global,
    difference: &Difference,
    out: &mut Vec<u8>,
) -> Result<(), AllocError>
    ensures { OnOk result (out.new.items ≡ out.old.items ++ difference_json difference.now) }
{
    match difference {
        Difference::NoToken => out.extend_from_slice(b"\"why\":\"no token\""),
        Difference::Ended(last) => {
            out.extend_from_slice(b"\"why\":\"ended\",\"last\":")?;
            print_name(alloc, last.as_ref(), out)
        }
        Difference::Same => out.extend_from_slice(b"\"why\":\"same\""),
        Difference::At {
            kind,
            id,
            primary,
            screen,
        } => {
            print_place(alloc, kind, id.as_ref(), out)?;
            print_sides(primary, screen, out)
        }
    }
}

/// The members that say how the verdict is called.
fn verdict_json(difference: &Difference) -> &'static str
    ensures { result.now ≡ json_of difference.now }
{
    match difference {
        Difference::Ended(_) => "{\"verdict\":\"undecided\",\"token\":",
        _ => "{\"verdict\":\"differs\",\"token\":",
    }
}

/// Appends the members that say which state is none of the primary's.
fn print_state(alloc: Global, stray: &Stray, out: &mut Vec<u8>) -> Result<(), AllocError>
    ensures { OnOk result (out.new.items ≡ out.old.items ++ differs_json stray.now) }
{
    out.extend_from_slice(verdict_json(&stray.difference).as_bytes())?;
    encode_string(alloc, stray.token.text(), out)?;
    out.extend_from_slice(b",\"line\":")?;
    print_number(alloc, stray.line, out)?;
    out.extend_from_slice(b",\"after\":")?;
    print_number(alloc, stray.before, out)?;
    out.extend_from_slice(b",")
}

/// Appends the line that says which state is none of the primary's, and why. Objects are printed
/// whole. Out of memory, a part of it may be appended.
pub fn print_stray_json(alloc: Global, stray: &Stray, out: &mut Vec<u8>) -> Result<(), AllocError>
    ensures { OnOk result (out.new.items ≡ out.old.items ++ stray_json stray.now) }
{
    print_state(alloc, stray, out)?;
    print_difference(alloc, &stray.difference, out)?;
    out.extend_from_slice(b"}\n")
}
