//! Events at the mirror of a number. Mirrors are numbered from 1, in order.

ghost use Rattle.std.specs.Prelude.{◌≡◌, ◌≢◌, ◌⊎◌, ◌<◌, ◌≤◌, ◌+◌, ◌++◌, ◌∷◌, ℕ, suc, length, slice_get, option_map, Some, IfSome, IfNone, IsSome, IfOk, IfErr, OnErr};
ghost use Rattle.std.specs.Option.{option_copied};
ghost use Rattle.feed_node.specs.Log.{PrimaryState};
ghost use Rattle.feed_world.specs.declared.event.Event.TheVariants.{Idle, Deliver, Cut as DoCut, Save, Restart};
ghost use Rattle.feed_world.specs.declared.event.WorldFault.TheVariants.{NoNode};
ghost use Rattle.feed_world.specs.States.{FollowingMirror, AreNodes, NodesMove, IsFramedAs, all_shown, event_asking};
ghost use Rattle.feed_world.specs.Step.{EventIsRefused};
ghost use Rattle.feed_world.specs.World.{World as Numbers};

use crate::event::{Asks, Reply, WorldFault};
use crate::follower::Follower;
use feed_node::{Node, Primary};
use std::alloc::Global;

/// The place of the mirror of this number.
fn place_of(followers: &[Follower], number: usize) -> Result<usize, WorldFault>
    ensures ok { IfOk result (λ place. (number ≡ suc place) × (place < length followers.now)) }
    ensures err { IfErr result (λ fault. (fault ≡ NoNode) × ((place : ℕ) → number ≡ suc place
        → length followers.now ≤ place)) }
{
    match number.checked_sub(1) {
        Some(place) if place < followers.len() => Ok(place),
        _ => Err(WorldFault::NoNode),
    }
}

/// The node of this number, among the primary and these mirrors.
pub(crate) fn node_among<'a>(
    primary: &'a Primary,
    followers: &'a [Follower],
    number: usize,
) -> Option<&'a Node>
    ensures { option_map (λ node. node.shown) (option_copied result)
        ≡ slice_get (all_shown primary.now followers.now) number }
{
    match number.checked_sub(1) {
        Some(place) => Some(followers.get(place)?.node()),
        None => Some(primary.node()),
    }
}

/// The node of this number, among the primary, these mirrors, one that isn't looked at, and those
/// after it.
fn other_node<'a>(
    primary: &'a Primary,
    earlier: &'a [Follower],
    later: &'a [Follower],
    number: usize,
) -> Option<&'a Node>
    ensures some { (f : FollowingMirror) → IfSome result (λ node.
        slice_get (all_shown primary.now (earlier.now ++ f ∷ later.now)) number
        ≡ Some node.now.shown) }
    ensures other { IsSome result → number ≢ suc (length earlier.now) }
    ensures none { IfNone result ((number ≡ suc (length earlier.now))
        ⊎ (length earlier.now + length later.now + 2 ≤ number)) }
{
    if number <= earlier.len() {
        return node_among(primary, earlier, number);
    }
    let place = number.checked_sub(earlier.len())?.checked_sub(2)?;
    Some(later.get(place)?.node())
}

/// The mirror asks another node.
pub(crate) fn ask(
    alloc: Global,
    primary: &Primary,
    followers: &mut [Follower],
    number: usize,
    asks: Asks,
) -> Result<Reply, WorldFault>
    ensures ok { (w : Numbers) → AreNodes w primary.now followers.old → IsFramedAs w.framing asks
        → IfOk result (λ reply.
        NodesMove w primary.now (event_asking asks number) reply followers.new) }
    ensures err { (w : Numbers) → AreNodes w primary.now followers.old → IsFramedAs w.framing asks
        → IfErr result (λ fault. EventIsRefused w (event_asking asks number) fault) }
    ensures unchanged { OnErr result (followers.new ≡ followers.old) }
{
    let place = place_of(followers, number)?;
    let (earlier, rest) = followers.split_at_mut(place);
    let (own, later) = rest.split_at_mut(1);
    let follower = &mut own[0];
    match other_node(primary, earlier, later, asks.of(follower.upstream())) {
        Some(server) => follower.ask(alloc, server, number, asks),
        None => Err(WorldFault::NoNode),
    }
}

/// The node that the mirror is connected to has no more to send for now.
pub(crate) fn idle(
    alloc: Global,
    followers: &mut [Follower],
    number: usize,
) -> Result<Reply, WorldFault>
    ensures ok { (w : Numbers) (primary : PrimaryState) → AreNodes w primary followers.old
        → IfOk result (λ reply. NodesMove w primary (Idle number) reply followers.new) }
    ensures err { (w : Numbers) (primary : PrimaryState) → AreNodes w primary followers.old
        → IfErr result (λ fault. EventIsRefused w (Idle number) fault) }
    ensures unchanged { OnErr result (followers.new ≡ followers.old) }
{
    let place = place_of(followers, number)?;
    followers[place].idle(alloc)
}

/// The mirror's connection brings its next bytes, this many or all that remain.
pub(crate) fn deliver(
    alloc: Global,
    followers: &mut [Follower],
    number: usize,
    bytes: usize,
) -> Result<Reply, WorldFault>
    ensures ok { (w : Numbers) (primary : PrimaryState) → AreNodes w primary followers.old
        → IfOk result (λ reply. NodesMove w primary (Deliver number bytes) reply followers.new) }
    ensures err { (w : Numbers) (primary : PrimaryState) → AreNodes w primary followers.old
        → IfErr result (λ fault. EventIsRefused w (Deliver number bytes) fault) }
    ensures unchanged { OnErr result (followers.new ≡ followers.old) }
{
    let place = place_of(followers, number)?;
    followers[place].deliver(alloc, number, bytes)
}

/// The mirror's connection is cut.
pub(crate) fn cut(followers: &mut [Follower], number: usize) -> Result<Reply, WorldFault>
    ensures ok { (w : Numbers) (primary : PrimaryState) → AreNodes w primary followers.old
        → IfOk result (λ reply. NodesMove w primary (DoCut number) reply followers.new) }
    ensures err { (w : Numbers) (primary : PrimaryState) → AreNodes w primary followers.old
        → IfErr result (λ fault. EventIsRefused w (DoCut number) fault) }
    ensures unchanged { OnErr result (followers.new ≡ followers.old) }
{
    let place = place_of(followers, number)?;
    followers[place].cut()
}

/// What the mirror shows is saved.
pub(crate) fn save(
    alloc: Global,
    followers: &mut [Follower],
    number: usize,
) -> Result<Reply, WorldFault>
    ensures ok { (w : Numbers) (primary : PrimaryState) → AreNodes w primary followers.old
        → IfOk result (λ reply. NodesMove w primary (Save number) reply followers.new) }
    ensures err { (w : Numbers) (primary : PrimaryState) → AreNodes w primary followers.old
        → IfErr result (λ fault. EventIsRefused w (Save number) fault) }
    ensures unchanged { OnErr result (followers.new ≡ followers.old) }
{
    let place = place_of(followers, number)?;
    Ok(followers[place].save(alloc)?)
}

/// The mirror is restored from the first bytes that were saved, this many or all.
pub(crate) fn restart(
    alloc: Global,
    followers: &mut [Follower],
    number: usize,
    bytes: usize,
) -> Result<Reply, WorldFault>
    ensures ok { (w : Numbers) (primary : PrimaryState) → AreNodes w primary followers.old
        → IfOk result (λ reply. NodesMove w primary (Restart number bytes) reply followers.new) }
    ensures err { (w : Numbers) (primary : PrimaryState) → AreNodes w primary followers.old
        → IfErr result (λ fault. EventIsRefused w (Restart number bytes) fault) }
    ensures unchanged { OnErr result (followers.new ≡ followers.old) }
{
    let place = place_of(followers, number)?;
    match followers[place].restart(alloc, bytes) {
        Ok(reply) => Ok(reply),
        Err(_) => Err(WorldFault::Memory),
    }
}
