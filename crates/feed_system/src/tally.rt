//! How many connections each address has, kept as they come and go.

ghost use Rattle.std.specs.Prelude.{◌≡◌, ◌≢◌, ◌<◌, ◌≤◌, ◌-◌, if◌then◌else◌, ℕ, None, Some, OnOk, OnErr, IfSome, IsTrue, ◌↔◌, length};
ghost use Rattle.feed_system.specs.Counted.{counted_as};
ghost use Rattle.feed_system.specs.Tally.{HaveRightTallies, AreFew, count_in, holders, is_same, owner_at};
ghost use Rattle.feed_system.specs.declared.tally.Owner.{Owner};

use feed_arguments::Origin;
use std::alloc::{AllocError, Global};
use std::collections::{BTreeMap, BTreeSet};

/// How many bits of an address of IPv6 are those of its interface.
const INTERFACE_BITS: u32 = 64;

/// As whom a connection counts: an address of IPv4, or the first bits of addresses of IPv6.
#[derive(Clone, Copy, PartialEq, Eq, PartialOrd, Ord)]
pub(crate) enum Owner {
    V4(u32),
    V6(u128),
}

impl Owner {
    /// As whom somebody counts who connects.
    pub(crate) fn of(origin: Origin) -> Owner
        ensures { result ≡ counted_as origin }
    {
        match origin {
            Origin::V4(number) => Owner::V4(number),
            Origin::V6(number) => Owner::V6(number.unbounded_shr(INTERFACE_BITS)),
        }
    }
}

/// The connections that count, each at its number, of which nobody has more than a limit.
#[derive(Drop)]
pub(crate) struct Tally {
    /// How many somebody may have.
    most: u64,
    // As whom the connection at each number counts.
    owners: Vec<Option<Owner>>,
    // How many each has who has some.
    counts: BTreeMap<Owner, u64>,
    // Those who send no more: mostly who had them went away.
    ended: BTreeSet<(Owner, usize)>,
    ghost counted: { HaveRightTallies counts owners.items },
    ghost few: { AreFew most owners.items },
}

impl Tally {
    /// Nobody has a connection.
    pub(crate) fn new(alloc: Global, most: u64) -> Tally
        ensures most { result.most ≡ most }
        ensures none { (at : ℕ) → owner_at result.owners.items at ≡ None }
    {
        Tally {
            most,
            owners: Vec::new(alloc),
            counts: BTreeMap::new(alloc),
            ended: BTreeSet::new(alloc),
        }
    }

    /// How many connections somebody has.
    fn count(&self, owner: Owner) -> u64
        ensures { result ≡ holders owner self.now.owners.items }
    {
        match self.counts.get(&owner) {
            Some(count) => *count,
            None => 0,
        }
    }

    /// Whether somebody may have one more.
    pub(crate) fn has_room(&self, owner: Owner) -> bool
        ensures { IsTrue result ↔ (holders owner self.now.owners.items < self.now.most) }
    {
        self.count(owner) < self.most
    }

    /// As whom the connection at a number counts, where it does.
    fn owner(&self, at: usize) -> Option<Owner>
        ensures is { result ≡ owner_at self.now.owners.items at }
        ensures place { IfSome result (λ _. at < length self.now.owners.items) }
    {
        if at < self.owners.len() {
            self.owners[at]
        } else {
            None
        }
    }

    /// The connection at a number counts as somebody's, who may have one more.
    pub(crate) fn add(&mut self, at: usize, owner: Owner) -> Result<(), AllocError>
        requires { holders owner self.old.owners.items < self.old.most }
        ensures ok { OnOk result (owner_at self.new.owners.items at ≡ Some owner) }
        ensures err { OnErr result (owner_at self.new.owners.items at ≡ None) }
        ensures others { (other : ℕ) → other ≢ at → owner_at self.new.owners.items other
            ≡ owner_at self.old.owners.items other }
        ensures most { self.new.most ≡ self.old.most }
    {
        self.remove(at);
        let count = self.count(owner).saturating_add(1);
        reach(&mut self.owners, at)?;
        self.counts.insert(owner, count)?;
        self.owners[at] = Some(owner);
        Ok(())
    }

    /// The connection at a number counts no more.
    pub(crate) fn remove(&mut self, at: usize)
        ensures none { owner_at self.new.owners.items at ≡ None }
        ensures others { (other : ℕ) → other ≢ at → owner_at self.new.owners.items other
            ≡ owner_at self.old.owners.items other }
        ensures fewer { (owner : Owner) → holders owner self.new.owners.items
            ≤ holders owner self.old.owners.items }
        ensures most { self.new.most ≡ self.old.most }
    {
        let Some(owner) = self.owner(at) else {
            return;
        };
        let count = self.count(owner);
        let _ = self.ended.remove(&(owner, at));
        self.owners[at] = None;
        lower(&mut self.counts, owner, count);
    }

    /// The connection at a number sends no more.
    pub(crate) fn end(&mut self, at: usize) -> Result<(), AllocError>
        ensures owners { self.new.owners ≡ self.old.owners }
        ensures most { self.new.most ≡ self.old.most }
    {
        if let Some(owner) = self.owner(at) {
            self.ended.insert((owner, at))?;
        }
        Ok(())
    }

    /// The number of a connection of somebody that sends no more, if there is one.
    pub(crate) fn ended(&self, owner: Owner) -> Option<usize>
        ensures { IfSome result (λ at. owner_at self.now.owners.items at ≡ Some owner) }
    {
        let mut ended = self.ended.range((owner, 0)..=(owner, usize::MAX));
        let (_, at) = ended.next()?;
        // That it counts as theirs is seen here, so that nobody gives way to somebody else.
        if self.is_of(*at, owner) {
            Some(*at)
        } else {
            None
        }
    }

    /// Whether the connection at a number counts as somebody's.
    fn is_of(&self, at: usize, owner: Owner) -> bool
        ensures { IsTrue result → owner_at self.now.owners.items at ≡ Some owner }
    {
        match self.owner(at) {
            Some(other) => other == owner,
            None => false,
        }
    }
}

/// Somebody who has so many connections has one less.
fn lower(counts: &mut BTreeMap<Owner, u64>, owner: Owner, count: u64)
    requires { count_in counts.old owner ≡ count }
    ensures { (other : Owner) → count_in counts.new other
        ≡ (if is_same owner other then count - 1 else count_in counts.old other) }
{
    if count > 1 {
        // That takes no memory, since theirs is there.
        let _ = counts.insert(owner, count - 1);
    } else {
        let _ = counts.remove(&owner);
    }
}

/// There are as many places as there have to be for this one.
fn reach(owners: &mut Vec<Option<Owner>>, at: usize) -> Result<(), AllocError>
    ensures same { (other : ℕ) → owner_at owners.new.items other ≡ owner_at owners.old.items other }
    ensures holders { (owner : Owner) → holders owner owners.new.items
        ≡ holders owner owners.old.items }
    ensures ok { OnOk result (at < length owners.new.items) }
{
    while owners.len() <= at {
        owners.push(None)?;
    }
    Ok(())
}
