//! How the body of an answer is framed.
ghost use Rattle.std.specs.Prelude.{◌≡◌, ◌++◌, [], false, IsOk, IfOk, OnOk, OnErr};
ghost use Rattle.feed_text.specs.Beginnings.{Begins};
ghost use Rattle.std.specs.Fmt.{digits};
ghost use Rattle.httparse.specs.Ascii.{crlf_bytes};
ghost use Rattle.feed_wire.specs.Framed as framed;

use feed_settings::Framing;
use std::alloc::{AllocError, Global};

/// Appends the bytes as they stand in a body. Of no bytes nothing is appended: an empty chunk would
/// end the body. Out of memory, nothing is appended, either.
pub fn frame(
    alloc: Global,
    framing: Framing,
    bytes: &[u8],
    out: &mut Vec<u8>,
) -> Result<(), AllocError>
    ensures ok { OnOk result (out.new.items ≡ out.old.items ++ framed.frame framing bytes.now) }
    ensures err { OnErr result (out.new.items ≡ out.old.items) }
    // No bytes take no memory.
    ensures free { bytes.now ≡ [] → framing ≡ Framing.Chunked → IsOk result }
{
    match framing {
        Framing::Close => out.extend_from_slice(bytes),
        Framing::Chunked if bytes.is_empty() => Ok(()),
        Framing::Chunked => append_chunk(alloc, bytes, out),
    }
}

/// A head, and behind it the bytes as they stand in a body. These may be many, so they are moved,
/// and not copied.
pub fn frame_behind(
    alloc: Global,
    head: &[u8],
    framing: Framing,
    bytes: Vec<u8>,
) -> Result<Vec<u8>, AllocError>
    ensures { IfOk result (λ text. text.items ≡ head.now ++ framed.frame framing bytes.items) }
{
    match framing {
        Framing::Close => put_behind(head, bytes),
        Framing::Chunked if bytes.is_empty() => Vec::from_slice(alloc, head),
        Framing::Chunked => chunk_behind(alloc, head, bytes),
    }
}

/// Appends the end of a body. Out of memory, nothing is appended.
pub fn frame_end(framing: Framing, out: &mut Vec<u8>) -> Result<(), AllocError>
    ensures ok { OnOk result (out.new.items ≡ out.old.items ++ framed.frame_end framing) }
    ensures err { OnErr result (out.new.items ≡ out.old.items) }
    ensures free { framing ≡ Framing.Close → IsOk result }
{
    match framing {
        Framing::Close => Ok(()),
        Framing::Chunked => out.extend_from_slice(b"0\r\n\r\n"),
    }
}

fn put_behind(head: &[u8], mut bytes: Vec<u8>) -> Result<Vec<u8>, AllocError>
    ensures { IfOk result (λ text. text.items ≡ head.now ++ bytes.items) }
{
    let len = bytes.len();
    bytes.extend_from_slice(head)?;
    bytes.rotate_left(len);
    Ok(bytes)
}

fn chunk_behind(alloc: Global, head: &[u8], mut bytes: Vec<u8>) -> Result<Vec<u8>, AllocError>
    ensures { IfOk result (λ text. text.items ≡ head.now ++ framed.chunk_text bytes.items) }
{
    let mut front = Vec::from_slice(alloc, head)?;
    append_size(alloc, bytes.len(), &mut front)?;
    bytes.extend_from_slice(b"\r\n")?;
    put_behind(front.as_slice(), bytes)
}

fn append_chunk(alloc: Global, bytes: &[u8], out: &mut Vec<u8>) -> Result<(), AllocError>
    ensures ok { OnOk result (out.new.items ≡ out.old.items ++ framed.chunk_text bytes.now) }
    ensures err { OnErr result (out.new.items ≡ out.old.items) }
{
    let start = out.len();
    let appended = append_parts(alloc, bytes, out);
    if appended.is_err() {
        out.truncate(start);
    }
    appended
}

// Each of the functions below leaves a part of its text where memory runs out.

fn append_parts(alloc: Global, bytes: &[u8], out: &mut Vec<u8>) -> Result<(), AllocError>
    ensures ok { OnOk result (out.new.items ≡ out.old.items ++ framed.chunk_text bytes.now) }
    ensures kept { Begins out.old.items out.new.items }
{
    append_size(alloc, bytes.len(), out)?;
    out.extend_from_slice(bytes)?;
    out.extend_from_slice(b"\r\n")
}

/// Appends the line that says how many bytes a chunk has.
fn append_size(alloc: Global, len: usize, out: &mut Vec<u8>) -> Result<(), AllocError>
    ensures ok { OnOk result
        (out.new.items ≡ out.old.items ++ (digits 16 false len ++ crlf_bytes)) }
    ensures kept { Begins out.old.items out.new.items }
{
    let size = format!(in alloc; "{len:x}")?;
    out.extend_from_slice(size.as_bytes())?;
    out.extend_from_slice(b"\r\n")
}
