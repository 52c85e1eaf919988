//! The one place where a screen is sent anything of the hub's.

ghost use Rattle.std.specs.Prelude.{◌≡◌, ◌≢◌, ◌≤◌, ◌++◌, List, [], ℕ, IfOk, OnErr, length, take};
ghost use Rattle.feed_node.specs.States.{NodeState};
ghost use Rattle.feed_answer.specs.Answered.{AnswerParts};
ghost use Rattle.feed_hub.specs.Hub.{IsSeated, ChangesOnly, prefix_at};
ghost use Rattle.feed_hub.specs.Seats.{seat_at, Watched};
ghost use Rattle.feed_hub.specs.Steps.{taken};
ghost use Rattle.feed_device.specs.Calls.{CalledOnce, NotCalled, OthersNotCalled};
ghost use Rattle.feed_device.specs.Sockets.{IsWrite, OtherSockets};

use feed_device::{Sockets, Stop};
use feed_hub::{Hub, Key};

/// Writes once what the connection at a key is sent next, to the socket at a number, and counts in
/// the hub just the bytes that the socket took. Answers how many these are.
pub(crate) fn hand<S: Sockets>(
    hub: &mut Hub,
    sockets: &mut S,
    at: usize,
    key: Key,
    now: u64,
) -> Result<usize, Stop>
    requires { prefix_at hub.old key ≢ [] }
    // what the socket was given is what the hub counts, at the same key
    ensures bytes { IsWrite (S.socket sockets.old at) (S.socket sockets.new at) result
        (prefix_at hub.old key) }
    ensures bound { IfOk result (λ count. count ≤ length (prefix_at hub.old key)) }
    ensures served { (nodes : List NodeState) (answer : AnswerParts) (handed : List ℕ)
        → IsSeated nodes hub.old key answer handed
        → IfOk result (λ count. IsSeated nodes hub.new key answer
        (handed ++ take count (prefix_at hub.old key))) }

    // it is offered just once
    ensures offers { CalledOnce (S.offered sockets.old at) (S.offered sockets.new at) }

    // and no other one
    ensures unoffered { OthersNotCalled (S.offered sockets.old) (S.offered sockets.new) at }

    // and nothing else changes
    ensures exact { IfOk result (λ count. Watched (λ s t. t ≡ taken count now s)
        (seat_at hub.old.seats.slab key) (seat_at hub.new.seats.slab key)) }
    ensures others { OtherSockets (S.socket sockets.old) (S.socket sockets.new) at }
    ensures rest { IfOk result (λ _. ChangesOnly hub.old hub.new key) }
    ensures err { OnErr result (hub.new ≡ hub.old) }
    ensures asks { S.asked sockets.new ≡ S.asked sockets.old }
    ensures tries { NotCalled (S.tried sockets.old) (S.tried sockets.new) }
{
    let count = sockets.write(at, hub.prefix(key))?;
    hub.sent(key, count, now);
    Ok(count)
}
