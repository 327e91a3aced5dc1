//! A keeper in memory.

ghost use Rattle.std.specs.Prelude.{◌≡◌, ◌↔◌, ◌+◌, ◌≤◌, ◌<◌, [], Contains, IfErr, IfOk, IsErr, IsTrue, OnErr, OnOk};
ghost use Rattle.std.specs.Prelude.{length, nat_lt, true, vec_capacity, vec_len};
ghost use Rattle.std.specs.List.{insert, position_or_len};
ghost use Rattle.inventory_keeper.specs.declared.keeper.KeepFault.TheVariants.{Failed, Memory};
ghost use Rattle.inventory_keeper.specs.Faults.{counted, has_failed};
ghost use Rattle.inventory_keeper.specs.Lists.{called, failed_call, no_lists};
ghost use Rattle.inventory_keeper.specs.Rows.{AreRows, swapped, with_row, with_rows, without};
ghost use Rattle.inventory_keeper.specs.Tags.{AreTags, is_before, tagged, untagged};

use crate::keeper::{KeepFault, Keeper};
use crate::rows::{BadRow, Tag};
use std::alloc::{AllocError, Global};
use std::cmp::Ordering;
use std::marker::Model;
use view_types::List;

/// A keeper in memory, which always tells its lists. It fails at the calls that are listed, and nowhere else.
#[derive(Drop)]
pub struct MapKeeper {
    bad: Vec<BadRow>,
    tags: Vec<Tag>,
    listed: Vec<u64>,
    calls: u64,
    faults: u64,
}

impl Model for MapKeeper {
    ghost use Rattle.inventory_keeper.specs.Lists.{Lists, lists_code};
    ghost use Rattle.inventory_keeper.specs.InMap.{AreInForm, lists_in};

    ghost Value = { Lists };

    ghost coded = { lists_code };

    ghost view = { lists_in };

    ghost invariant = { AreInForm };
}

impl From<AllocError> for KeepFault {
    ghost from_gives = { λ _ fault. fault ≡ Memory };

    fn from(_: AllocError) -> KeepFault {
        KeepFault::Memory
    }
}

impl MapKeeper {
    /// A keeper of nothing. It takes no memory.
    pub fn new(alloc: Global) -> MapKeeper
        ensures { result ≡ no_lists }
    {
        MapKeeper {
            bad: Vec::new(alloc),
            tags: Vec::new(alloc),
            listed: Vec::new(alloc),
            calls: 0,
            faults: 0,
        }
    }

    /// Lists the calls that fail, in place of those listed before. All calls but `faults` are numbered together, from
    /// 0 since the keeper was made.
    pub fn fail_at(&mut self, calls: Vec<u64>)
        ensures { self.new ≡ record self.old { listed = calls.items } }
    {
        self.listed = calls;
    }

    /// Counts a call, which fails where it is listed.
    fn count_call(&mut self) -> Result<(), KeepFault>
        ensures listed { IsErr result ↔ Contains self.old.listed self.old.calls }
        ensures ok { OnOk result (self.new ≡ called self.old) }
        ensures err { OnErr result (self.new ≡ failed_call self.old) }
        ensures failed { IfErr result (λ fault. fault ≡ Failed) }
    {
        let call = self.calls;
        self.calls = call.saturating_add(1);
        if self.listed.contains(&call) {
            self.faults = self.faults.saturating_add(1);
            return Err(KeepFault::Failed);
        }
        Ok(())
    }
}

/// Where a row stands that is put before the first that begins behind it.
fn place_of_row(rows: &[BadRow], new: &BadRow) -> usize
    ensures place { result ≡ position_or_len (λ row. nat_lt new.now.spa row.spa) rows.now }
    ensures within { result ≤ length rows.now }
{
    rows.iter()
        .position(|row| new.spa < row.spa)
        .unwrap_or(rows.len())
}

/// Puts a row before the first that begins behind it, for which there is room.
fn put_row(rows: &mut Vec<BadRow>, new: &BadRow)
    requires { vec_len rows.old < vec_capacity rows.old }
    ensures rows { rows.new.items ≡ with_row new.now rows.old.items }
    ensures len { vec_len rows.new ≡ vec_len rows.old + 1 }
    ensures room { vec_capacity rows.old ≤ vec_capacity rows.new }
{
    let at = place_of_row(rows, new);
    let _ = rows.insert(at, *new);
}

/// Takes rows away.
fn take_rows(rows: &mut Vec<BadRow>, taken: &[BadRow])
    ensures rows { rows.new.items ≡ without taken.now rows.old.items }
    ensures len { vec_len rows.new ≤ vec_len rows.old }
    ensures room { vec_capacity rows.new ≡ vec_capacity rows.old }
{
    rows.retain(|row| !taken.contains(row));
}

/// Puts rows, for which there is room.
fn put_rows(rows: &mut Vec<BadRow>, put: &[BadRow])
    requires { vec_len rows.old + length put.now ≤ vec_capacity rows.old }
    ensures { rows.new.items ≡ with_rows put.now rows.old.items }
{
    for row in put {
        put_row(rows, row);
    }
}

impl Keeper for MapKeeper {
    ghost tells = { λ _. true };

    ghost bad = { λ keeper. keeper.bad };

    ghost tags = { λ keeper. keeper.tags };

    ghost faults = { λ keeper. keeper.faults };

    fn bad_rows(&mut self, alloc: Global) -> Result<List<BadRow>, KeepFault>
        // It fails at the listed calls alone.
        ensures listed { IsTrue (has_failed result) ↔ Contains self.old.listed self.old.calls }

        ensures rows { IsTrue true → IfOk result (λ rows. rows ≡ self.old.bad) }
        ensures form { IfOk result AreRows }
        ensures bad { IsTrue true → self.new.bad ≡ self.old.bad }
        ensures tags { IsTrue true → self.new.tags ≡ self.old.tags }
        ensures tells { true ≡ true }
        ensures cause { self.new.faults ≡ counted (has_failed result) self.old.faults }
    {
        self.count_call()?;
        let rows: Vec<BadRow> = self.bad.iter().copied().collect(alloc)?;
        Ok(List::from_vec(rows))
    }

    fn swap_bad(&mut self, alloc: Global, taken: &[BadRow], put: &[BadRow]) -> Result<(), KeepFault>
        requires form { IsTrue true → AreRows (swapped taken.now put.now self.old.bad) }
        ensures listed { IsTrue (has_failed result) ↔ Contains self.old.listed self.old.calls }

        ensures swapped { IsTrue true → OnOk result (self.new.bad ≡ swapped taken.now put.now self.old.bad) }
        ensures kept { IsTrue true → OnErr result (self.new.bad ≡ self.old.bad) }
        ensures tags { IsTrue true → self.new.tags ≡ self.old.tags }
        ensures tells { true ≡ true }
        ensures cause { self.new.faults ≡ counted (has_failed result) self.old.faults }
    {
        self.count_call()?;
        self.bad.reserve(put.len())?;
        take_rows(&mut self.bad, taken);
        put_rows(&mut self.bad, put);
        Ok(())
    }

    fn tags(&mut self, alloc: Global) -> Result<List<Tag>, KeepFault>
        ensures listed { IsTrue (has_failed result) ↔ Contains self.old.listed self.old.calls }

        ensures found { IsTrue true → IfOk result (λ found. found ≡ self.old.tags) }
        ensures form { IfOk result AreTags }
        ensures bad { IsTrue true → self.new.bad ≡ self.old.bad }
        ensures tags { IsTrue true → self.new.tags ≡ self.old.tags }
        ensures tells { true ≡ true }
        ensures cause { self.new.faults ≡ counted (has_failed result) self.old.faults }
    {
        self.count_call()?;
        let tags: Vec<Tag> = self.tags.iter().copied().collect(alloc)?;
        Ok(List::from_vec(tags))
    }

    fn set_tag(&mut self, alloc: Global, uuid: &[u8; 16], text: &[u8; 64]) -> Result<(), KeepFault>
        ensures listed { IsTrue (has_failed result) ↔ Contains self.old.listed self.old.calls }

        ensures set { IsTrue true → OnOk result (self.new.tags
            ≡ tagged (record { uuid = uuid.now; text = text.now }) self.old.tags) }
        ensures kept { IsTrue true → OnErr result (self.new.tags ≡ self.old.tags) }
        ensures bad { IsTrue true → self.new.bad ≡ self.old.bad }
        ensures tells { true ≡ true }
        ensures cause { self.new.faults ≡ counted (has_failed result) self.old.faults }
    {
        self.count_call()?;
        self.tags.reserve(1)?;
        take_tag(&mut self.tags, uuid);
        let tag = Tag {
            uuid: *uuid,
            text: *text,
        };
        put_tag(&mut self.tags, tag);
        Ok(())
    }

    fn drop_tag(&mut self, alloc: Global, uuid: &[u8; 16]) -> Result<(), KeepFault>
        ensures listed { IsTrue (has_failed result) ↔ Contains self.old.listed self.old.calls }

        ensures dropped { IsTrue true → OnOk result (self.new.tags ≡ untagged uuid.now self.old.tags) }
        ensures kept { IsTrue true → OnErr result (self.new.tags ≡ self.old.tags) }
        ensures bad { IsTrue true → self.new.bad ≡ self.old.bad }
        ensures tells { true ≡ true }
        ensures cause { self.new.faults ≡ counted (has_failed result) self.old.faults }
    {
        self.count_call()?;
        take_tag(&mut self.tags, uuid);
        Ok(())
    }

    fn faults(&self) -> u64 {
        self.faults
    }
}

/// Where a tag stands that is put before the first whose uuid is greater.
fn place_of_tag(tags: &[Tag], uuid: &[u8; 16]) -> usize
    ensures place { result ≡ position_or_len (is_before uuid.now) tags.now }
    ensures within { result ≤ length tags.now }
{
    tags.iter()
        .position(|tag| is_before(uuid, tag))
        .unwrap_or(tags.len())
}

/// Puts a tag before the first whose uuid is greater, for which there is room.
fn put_tag(tags: &mut Vec<Tag>, new: Tag)
    requires { vec_len tags.old < vec_capacity tags.old }
    ensures { tags.new.items ≡ insert tags.old.items (position_or_len (is_before new.uuid) tags.old.items) new }
{
    let at = place_of_tag(tags, &new.uuid);
    let _ = tags.insert(at, new);
}

/// Takes the tag of a uuid away, where there is one.
fn take_tag(tags: &mut Vec<Tag>, uuid: &[u8; 16])
    ensures tags { tags.new.items ≡ untagged uuid.now tags.old.items }
    ensures len { vec_len tags.new ≤ vec_len tags.old }
    ensures room { vec_capacity tags.new ≡ vec_capacity tags.old }
{
    tags.retain(|tag| tag.uuid != *uuid);
}

/// Whether a uuid comes before that of a tag.
fn is_before(uuid: &[u8; 16], tag: &Tag) -> bool
    ensures { result ≡ is_before uuid.now tag.now }
{
    matches!(uuid.cmp(&tag.uuid), Ordering::Less)
}
