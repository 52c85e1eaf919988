//! What a mirror of a world asks another node, and what that answers.

ghost use Rattle.std.specs.Prelude.{◌≡◌, [], IfOk, codes};
ghost use Rattle.std.specs.Option.{option_copied};
ghost use Rattle.feed_settings.specs.Place.{make_place};
ghost use Rattle.feed_wire.specs.RequestText.{request_text as text_of_request};
ghost use Rattle.feed_wire.specs.RequestLaws.{MayBeAskedWith};
ghost use Rattle.feed_answer.specs.Opening.{opens};
ghost use Rattle.feed_answer.specs.Answered.{parts_of, answer_opened};

use feed_answer::{Answered, Framing, Place, answer, answer_laws, request_text};
use feed_node::Node;
use std::alloc::{AllocError, Global};

/// The contest whose feed a world carries, and the name of its servers' host.
const CONTEST: &str = "world";

/// The request for what came after a token, or for all.
fn request(alloc: Global, since: Option<&str>) -> Result<Vec<u8>, AllocError>
    ensures { IfOk result (λ text. text.items ≡ text_of_request
        (make_place (codes "world") [] (codes "world")) (option_copied since.entry)) }
{
    let Ok(place) = Place::new(alloc, CONTEST, "", CONTEST) else {
        // Memory ran out: the constants are those of a place.
        return Err(AllocError);
    };
    let mut text = Vec::new(alloc);
    request_text(&place, since, &mut text)?;
    Ok(text)
}

/// What a node answers to the request for what came after a token, or for all, with so many commits
/// again.
pub(crate) fn ask_for_feed(
    alloc: Global,
    server: &Node,
    since: Option<&str>,
    framing: Framing,
    back: usize,
) -> Result<Answered, AllocError>
    ensures { MayBeAskedWith (option_copied since.entry) → IfOk result (λ answered.
        parts_of answered.status answered.framing answered.bytes.items answered.session
        ≡ answer_opened framing (opens server.now.shown back (option_copied since.entry))) }
{
    // What it rests on.
    answer_laws();
    let head = request(alloc, since)?;
    answer(alloc, head.as_slice(), server, CONTEST, framing, back)
}
