//! Entries in order, and how they are found and changed.

ghost use Rattle.std.specs.Prelude.{◌≡◌, ◌≤◌};
ghost use Rattle.uuid_index.specs.declared.entry.Entry.{Entry};
ghost use Rattle.uuid_index.specs.Entries.{IsOrdered, IsPlace, IsStart, has_at};
ghost use Rattle.uuid_index.specs.Found.{IsFound};

use crate::entry::Entry;
use std::alloc::AllocError;
use std::marker::Model;

/// How many live labels of a module have a uuid, and the slot of the only one.
#[derive(Clone, Copy, Debug, PartialEq, Eq)]
pub enum Found {
    Nowhere,
    Once { slot: u32 },
    /// Two or more.
    Repeated,
}

/// The entries of live labels in order.
#[derive(Debug, Drop)]
pub struct Index {
    entries: Vec<Entry>,
}

impl Model for Index {
    ghost use Rattle.uuid_index.specs.Contents.{Contents, contents_of};
    ghost use Rattle.uuid_index.specs.Entries.{IsOrdered};

    ghost Value = { Contents };

    ghost view = { λ index. contents_of index.entries };

    ghost invariant = { λ index. IsOrdered index.entries.items };
}

impl Index {
    ghost use Rattle.std.specs.Prelude.{◌+◌, ◌<◌, ◌↔◌, ◌∷◌, IsOk, IsTrue, OnOk};
    ghost use Rattle.std.specs.Bool.{OnFalse, OnTrue};
    ghost use Rattle.std.specs.List.{Contains};
    ghost use Rattle.std.specs.List.Sorted.{IsPermutation};
    ghost use Rattle.uuid_index.specs.Contents.{contents_of};
    ghost use Rattle.uuid_index.specs.Labels.{FollowsGain, FollowsLoss, IsFoundInLabels, IsIndexOfGiven};

    /// The index of these entries. It takes no memory.
    pub fn of(mut entries: Vec<Entry>) -> Index
        ensures entries { IsPermutation entries.items result.entries }
        ensures room { result.room ≡ (contents_of entries).room }
        ensures labels { IsIndexOfGiven entries.items result.entries }
    {
        entries.sort_unstable();
        Index { entries }
    }

    /// How many live labels with this uuid the module at a position has, and the slot of the only one.
    pub fn find(&self, uuid: &[u8; 16], position: usize) -> Found
        ensures found { IsFound uuid.now position self.now.entries result }
        ensures labels { IsFoundInLabels uuid.now position self.now.entries result }
    {
        found_in(&self.entries, uuid, position)
    }

    /// The entries, in their order.
    pub fn entries(&self) -> &[Entry]
        ensures entries { result.now ≡ self.now.entries }
        ensures ordered { IsOrdered self.now.entries }
    {
        &self.entries
    }

    /// How many more entries can be inserted before memory has to be reserved.
    pub fn room(&self) -> usize
        ensures { result ≡ self.now.room }
    {
        self.entries.capacity() - self.entries.len()
    }

    /// Makes room for so many more entries. It takes no memory where the index has that room. After a refusal of
    /// memory the index is as before.
    pub fn reserve(&mut self, additional: usize) -> Result<(), AllocError>
        ensures entries { self.new.entries ≡ self.old.entries }
        ensures room { self.old.room ≤ self.new.room }
        ensures ok { OnOk result (additional ≤ self.new.room) }
        ensures in_room { additional ≤ self.old.room → IsOk result }
    {
        self.entries.reserve(additional)
    }

    /// Inserts the entry of a label that the module at its position now has. It takes no memory.
    pub fn insert(&mut self, entry: Entry)
        requires { 0 < self.old.room }
        ensures entries { IsPermutation (entry ∷ self.old.entries) self.new.entries }
        ensures room { self.new.room + 1 ≡ self.old.room }
        ensures labels { FollowsGain entry self.old.entries self.new.entries }
    {
        let at = place_of(&self.entries, &entry);
        let _ = self.entries.insert(at, entry);
    }

    /// Removes the entry of a label that the module at its position no longer has, and tells whether it was there. It
    /// takes no memory.
    pub fn remove(&mut self, entry: &Entry) -> bool
        ensures there { IsTrue result ↔ Contains self.old.entries entry.now }
        ensures removed { OnTrue result (IsPermutation self.old.entries (entry.now ∷ self.new.entries)) }
        ensures unchanged { OnFalse result (self.new ≡ self.old) }
        ensures room { OnTrue result (self.new.room ≡ self.old.room + 1) }
        ensures labels { FollowsLoss entry.now self.old.entries self.new.entries }
    {
        match self.entries.binary_search(entry) {
            Ok(at) => {
                self.entries.remove(at);
                true
            }
            Err(_) => false,
        }
    }
}

/// How many entries are of this uuid at this position, and the slot of the only one.
fn found_in(entries: &[Entry], uuid: &[u8; 16], position: usize) -> Found
    requires { IsOrdered entries.now }
    ensures { IsFound uuid.now position entries.now result }
{
    let at = start_of(entries, uuid, position);
    if !has_at(entries, at, uuid, position) {
        return Found::Nowhere;
    }
    if has_at(entries, at + 1, uuid, position) {
        return Found::Repeated;
    }
    Found::Once {
        slot: entries[at].slot,
    }
}

/// The place of the first entry that does not stand before those of this uuid at this position.
fn start_of(entries: &[Entry], uuid: &[u8; 16], position: usize) -> usize
    requires { IsOrdered entries.now }
    ensures { IsStart uuid.now position entries.now result }
{
    entries.partition_point(|entry| entry.is_before(uuid, position))
}

/// Whether the entry at a place is of this uuid at this position.
fn has_at(entries: &[Entry], at: usize, uuid: &[u8; 16], position: usize) -> bool
    ensures { result ≡ has_at uuid.now position entries.now at }
{
    entries
        .get(at)
        .is_some_and(|entry| entry.is_of(uuid, position))
}

/// A place where an entry can go in.
fn place_of(entries: &[Entry], entry: &Entry) -> usize
    requires { IsOrdered entries.now }
    ensures { IsPlace entry.now entries.now result }
{
    match entries.binary_search(entry) {
        Ok(at) => at,
        Err(at) => at,
    }
}
