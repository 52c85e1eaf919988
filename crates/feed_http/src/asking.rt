//! The request for what a mirror lacks.
ghost use Rattle.std.specs.Prelude.{◌≡◌, IfOk};
ghost use Rattle.feed_wire.specs.RequestText as texts;
ghost use Rattle.feed_http.specs.Exchange.{wrote_by};
ghost use Rattle.feed_http.specs.Writing.{Writes};

use crate::device::FeedWrite;
use crate::fault::EngineFault;
use crate::serving::write_bytes;
use feed_answer::{Identity, Place, request_text_as};
use feed_node::Mirror;
use std::alloc::{AllocError, Global};

/// Writes the request to a place for what a mirror lacks: what came after its token, or all; and as
/// whom it asks. Where it fails, a prefix of the request was written.
pub fn ask<W: FeedWrite>(
    alloc: Global,
    writer: &mut W,
    place: &Place,
    identity: &Identity,
    mirror: &Mirror,
) -> Result<(), EngineFault>
    ensures { Writes (wrote_by W.contents W.failures writer.old writer.new)
        (texts.request_text_as place.now mirror.now.since identity.now) result }
{
    let text = request_for(alloc, place, identity, mirror)?;
    write_bytes(writer, text.as_slice())
}

fn request_for(
    alloc: Global,
    place: &Place,
    identity: &Identity,
    mirror: &Mirror,
) -> Result<Vec<u8>, AllocError>
    ensures { IfOk result (λ text. text.items
        ≡ texts.request_text_as place.now mirror.now.since identity.now) }
{
    let mut text = Vec::new(alloc);
    request_text_as(place, mirror.since(), identity, &mut text)?;
    Ok(text)
}
