//! Texts in a page.

ghost use Rattle.std.specs.Prelude.{◌≡◌, ◌++◌, true, OnOk};
ghost use Rattle.std.specs.List.{list_all};
ghost use Rattle.feed_status.specs.Escape.{escape, escaped, is_of_text};

use std::alloc::AllocError;

/// Appends what stands for one byte: a reference for one that a browser would take as markup.
fn put_byte(byte: u8, out: &mut Vec<u8>) -> Result<(), AllocError>
    ensures { OnOk result (out.new.items ≡ out.old.items ++ escape byte) }
{
    match byte {
        b'&' => out.extend_from_slice(b"&amp;"),
        b'<' => out.extend_from_slice(b"&lt;"),
        b'>' => out.extend_from_slice(b"&gt;"),
        b'"' => out.extend_from_slice(b"&quot;"),
        b'\'' => out.extend_from_slice(b"&#39;"),
        _ => Ok(out.push(byte)?),
    }
}

/// Appends a text to a page, so that a browser shows it as it stands, in a tag's text and in an
/// attribute's value between quotation marks alike: five characters are written as references
/// (HTML, section 13.3, "escaping a string").
pub fn put_text(text: &str, out: &mut Vec<u8>) -> Result<(), AllocError>
    ensures ok { OnOk result (out.new.items ≡ out.old.items ++ escaped text.now) }
    ensures shown { list_all is_of_text (escaped text.now) ≡ true }
{
    'bytes: for byte in text.as_bytes() {
        put_byte(*byte, out)?;
    }
    Ok(())
}

/// Appends a text between two pieces of markup.
pub(crate) fn put_element(
    open: &str,
    text: &str,
    close: &str,
    out: &mut Vec<u8>,
) -> Result<(), AllocError> {
    out.extend_from_slice(open.as_bytes())?;
    put_text(text, out)?;
    out.extend_from_slice(close.as_bytes())
}
