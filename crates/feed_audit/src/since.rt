//! What both records published since they last published the same.

ghost use Rattle.std.specs.Prelude.{◌≡◌, true, false, [], ◌++◌, IfOk, OnOk, IsTrue, Some};
ghost use Rattle.std.specs.List.{AllByRecursion};
ghost use Rattle.feed_tables.specs.Tables.{Contents, after};
ghost use Rattle.feed_tables.specs.Touched.{AgreeAt};
ghost use Rattle.feed_node.specs.declared.commit.Commit.{Commit as Batch};
ghost use Rattle.feed_node.specs.States.{NodeState, last_item, published_tables};
ghost use Rattle.feed_audit.specs.Walks.{CommitsOn, IsSince, IsSinceIn};

use feed_node::Node;
use feed_tables::{Change, Tables, touched_law};
use std::alloc::{AllocError, Global};

/// The changes that both published, where they once published the same, and nothing from scratch
/// since.
#[derive(Drop)]
pub struct Since {
    pub is_known: bool,
    pub ours: Vec<Change>,
    pub theirs: Vec<Change>,
}

/// Whether two changes are the same.
fn is_same_change(change: &Change, other: &Change) -> bool
    ensures { IsTrue result → change.now ≡ other.now }
{
    match (change, other) {
        (Change::Set(kind, id, object), Change::Set(type_, name, text)) => {
            kind.text() == type_.text()
                && id.text() == name.text()
                && object.bytes() == text.bytes()
        }
        (Change::Remove(kind, id), Change::Remove(type_, name)) => {
            kind.text() == type_.text() && id.text() == name.text()
        }
        (Change::Empty(kind), Change::Empty(type_)) => kind.text() == type_.text(),
        (Change::Single(kind, object), Change::Single(type_, text)) => {
            kind.text() == type_.text() && object.bytes() == text.bytes()
        }
        (Change::Clear(kind), Change::Clear(type_)) => kind.text() == type_.text(),
        _ => false,
    }
}

/// Whether changes are the same, one after the other.
fn are_same(changes: &[Change], others: &[Change]) -> bool
    ensures { IsTrue result → changes.now ≡ others.now }
{
    if changes.len() != others.len() {
        return false;
    }
    let mut i: usize = 0;
    'changes: while i < changes.len() {
        if !is_same_change(&changes[i], &others[i]) {
            return false;
        }
        i += 1;
    }
    true
}

/// Whether tables are the same wherever one of these changes could have made a difference.
fn agree_where(tables: &Tables, others: &Tables, changes: &[Change]) -> bool
    ensures { IsTrue result → AllByRecursion
        (AgreeAt tables.now.contents others.now.contents) changes.now }
{
    let mut rest = changes;
    'changes: while let [change, behind @ ..] = rest {
        if !tables.agree_at(others, change) {
            return false;
        }
        rest = behind;
    }
    true
}

/// Appends the changes of the newest commit that a node keeps, and answers whether it keeps any.
fn note(changes: &mut Vec<Change>, node: &Node) -> Result<bool, AllocError>
    ensures { IfOk result (λ there. there ≡ true → (commit : Batch)
        × (last_item node.now.shown.kept ≡ Some commit)
        × (changes.new.items ≡ changes.old.items ++ commit.changes)) }
{
    let Some(commit) = node.newest_commit() else {
        return Ok(false);
    };
    'changes: for change in commit.changes.as_slice() {
        changes.push(change.copy()?)?;
    }
    Ok(true)
}

impl Since {
    /// They never published the same.
    pub fn unknown(alloc: Global) -> Since
        ensures { result.is_known ≡ false }
    {
        Since {
            is_known: false,
            ours: Vec::new(alloc),
            theirs: Vec::new(alloc),
        }
    }

    /// They do now.
    pub fn meet(&mut self)
        ensures ours { self.new.ours.items ≡ [] }
        ensures theirs { self.new.theirs.items ≡ [] }
    {
        self.is_known = true;
        self.ours.clear();
        self.theirs.clear();
    }

    /// The primary's record published what its node shows.
    pub fn note_ours(&mut self, node: &Node) -> Result<(), AllocError>
        ensures { (before theirs : NodeState) → IsSince self.old before theirs
            → CommitsOn before node.now.shown
            → OnOk result (IsSince self.new node.now.shown theirs) }
    {
        if !self.is_known {
            return Ok(());
        }
        self.is_known = note(&mut self.ours, node)?;
        Ok(())
    }

    /// The screen's did.
    pub fn note_theirs(&mut self, node: &Node) -> Result<(), AllocError>
        ensures { (ours : Contents) (before : NodeState)
            → IsSinceIn self.old ours (published_tables before) → CommitsOn before node.now.shown
            → OnOk result (IsSinceIn self.new ours (published_tables node.now.shown)) }
    {
        if !self.is_known {
            return Ok(());
        }
        self.is_known = note(&mut self.theirs, node)?;
        Ok(())
    }

    /// The tables of the primary's side were changed.
    pub fn note_change(&mut self, change: &Change) -> Result<(), AllocError>
        ensures { (ours theirs : Contents) → IsSinceIn self.old ours theirs
            → OnOk result (IsSinceIn self.new (after ours change.now) theirs) }
    {
        if self.is_known {
            self.ours.push(change.copy()?)?;
        }
        Ok(())
    }

    /// They publish apart from now on.
    pub fn part(&mut self)
        ensures { self.new.is_known ≡ false }
    {
        self.is_known = false;
        self.ours.clear();
        self.theirs.clear();
    }

    /// Whether tables that these changes made are the same: where the changes are, and else where
    /// the tables are wherever one of the changes could have made a difference. It takes time by
    /// the changes.
    pub fn makes_same(&self, tables: &Tables, others: &Tables) -> bool
        ensures { (ours theirs : Contents) → IsSinceIn self.now ours theirs
            → ours ≡ tables.now.contents → theirs ≡ others.now.contents
            → IsTrue result → tables.now.contents ≡ others.now.contents }
    {
        touched_law();
        if !self.is_known {
            return false;
        }
        if are_same(self.ours.as_slice(), self.theirs.as_slice()) {
            return true;
        }
        agree_where(tables, others, self.ours.as_slice())
            && agree_where(tables, others, self.theirs.as_slice())
    }
}
