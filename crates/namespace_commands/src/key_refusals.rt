//! Why a change of the namespace that fits a key is refused: look-ups in the state.

ghost use Rattle.std.specs.Prelude.{◌≡◌, ◌∷◌, [], IfErr, IfOk, List, None, OnOk, Option, Some, map};
ghost use Rattle.view_types.specs.declared.refusal.Refusal.{Refusal};
ghost use Rattle.region_labels.specs.Named.{named_among};
ghost use Rattle.region_labels.specs.Marks.{listed_in};
ghost use Rattle.region_labels.specs.Statuses.{space_in};
ghost use Rattle.label_sets.specs.Sets.{labels_in};
ghost use Rattle.label_sets.specs.Staging.{OfRegion};
ghost use Rattle.table_steps.specs.Destroy.{destroy_refusals};
ghost use Rattle.table_steps.specs.Namespaces.{fitting};
ghost use Rattle.table_steps.specs.Refusals.{first_of};
ghost use Rattle.table_steps.specs.Rename.{name_taken_beside, rename_refusals};
ghost use Rattle.namespace_commands.specs.Keys.{IsChosen, IsOnly, IsRefusedBy, key_refusals, keyed};
ghost use Rattle.namespace_commands.specs.Lists.{IsStateOf};

use crate::create_refusals::{is_unnamed, no_slots, unhealed};
use crate::lists::region_refusal;
use crate::refusals::Unanswered;
use cmd_words::NameKey;
use label_sets::Sets;
use region_labels::Named;
use region_map::Platform;
use std::alloc::{AllocError, Global};
use view_types::{Namespace, Refusal};

/// Each module of the region needs a spare slot, for the labels that are written before any is freed.
const LEAST_SPARE: u32 = 1;

/// The namespace that a destroy takes away: of its region it alone fits the key. Else why the destroy is refused.
pub(crate) fn doomed_space(
    alloc: Global,
    platform: &Platform,
    sets: &Sets,
    index: u16,
    key: &NameKey,
) -> Result<Namespace, Unanswered>
    requires { IsStateOf platform.now sets.now }
    ensures chosen { IfOk result (IsChosen platform.now (labels_in sets.now) index key.now) }
    ensures unrefused { OnOk result
        (first_of (destroy_refusals platform.now (labels_in sets.now) index key.now) ≡ None) }
    ensures refused { IfErr result
        (IsRefusedBy (first_of (destroy_refusals platform.now (labels_in sets.now) index key.now))) }
{
    let space = match chosen_space(alloc, platform, sets, index, key) {
        Ok(space) => space,
        Err(unanswered) => return Err(unanswered),
    };
    match no_slots(sets, index, LEAST_SPARE) {
        Some(refusal) => Err(Unanswered::Refused(refusal)),
        None => Ok(space),
    }
}

/// The namespace that a rename gives a name: of its region it alone fits the key. Else why the rename is refused.
pub(crate) fn named_space(
    alloc: Global,
    platform: &Platform,
    sets: &Sets,
    index: u16,
    key: &NameKey,
    name: &[u8; 64],
) -> Result<Namespace, Unanswered>
    requires { IsStateOf platform.now sets.now }
    ensures chosen { IfOk result (IsChosen platform.now (labels_in sets.now) index key.now) }
    ensures unrefused { OnOk result
        (first_of (rename_refusals platform.now (labels_in sets.now) index key.now name.now) ≡ None) }
    ensures refused { IfErr result
        (IsRefusedBy (first_of (rename_refusals platform.now (labels_in sets.now) index key.now name.now))) }
{
    let space = match chosen_space(alloc, platform, sets, index, key) {
        Ok(space) => space,
        Err(unanswered) => return Err(unanswered),
    };
    let refusal = name_taken(sets, index, name, &space).or(no_slots(sets, index, LEAST_SPARE));
    match refusal {
        Some(refusal) => Err(Unanswered::Refused(refusal)),
        None => Ok(space),
    }
}

/// The namespace that alone fits a key, in a region that is Ready and can be recovered. Else why there is none that may
/// be changed.
fn chosen_space(
    alloc: Global,
    platform: &Platform,
    sets: &Sets,
    index: u16,
    key: &NameKey,
) -> Result<Namespace, Unanswered>
    requires { IsStateOf platform.now sets.now }
    ensures chosen { IfOk result (IsChosen platform.now (labels_in sets.now) index key.now) }
    ensures refused { (more : List (Option Refusal)) → IfErr result
        (IsRefusedBy (first_of (keyed platform.now (labels_in sets.now) index key.now more))) }
{
    match region_refusal(alloc, platform, sets, index) {
        Ok(None) => (),
        Ok(Some(refusal)) => return Err(Unanswered::Refused(refusal)),
        Err(AllocError) => return Err(Unanswered::Memory),
    }
    match unhealed(sets, index) {
        Some(refusal) => Err(Unanswered::Refused(refusal)),
        None => match only_space(sets, index, key) {
            Ok(space) => Ok(space),
            Err(refusal) => Err(Unanswered::Refused(refusal)),
        },
    }
}

/// The namespace of a region that alone fits a key, where it is not read-only.
fn only_space(sets: &Sets, index: u16, key: &NameKey) -> Result<Namespace, Refusal>
    ensures only { IfOk result (λ space. OfRegion sets.now index (IsOnly (labels_in sets.now) key.now space)) }
    ensures refused { IfErr result (λ refusal. OfRegion sets.now index (λ region.
        first_of (key_refusals (labels_in sets.now) key.now region) ≡ Some refusal)) }
{
    match fitting(sets, index, key) {
        Named::None => Err(Refusal::UnknownNamespace),
        Named::Several { count, .. } => Err(Refusal::Ambiguous { count }),
        Named::One(space) => {
            if space.read_only {
                let uuid = space.uuid;
                return Err(Refusal::ReadOnly { uuid });
            }
            Ok(space)
        }
    }
}

/// The namespaces of a region that fit a key: how many, and the first.
fn fitting(sets: &Sets, index: u16, key: &NameKey) -> Named
    ensures { OfRegion sets.now index (λ region. result
        ≡ named_among (map (listed_in (labels_in sets.now) region) (fitting (labels_in sets.now) region key.now))) }
{
    match key {
        NameKey::Uuid(uuid) => match sets.namespace(index, uuid) {
            Some(space) => Named::One(space),
            None => Named::None,
        },
        NameKey::Name(name) => match sets.namespaces_named(index, name) {
            Some(named) => named,
            None => Named::None,
        },
    }
}

/// Another namespace of the region than `own` has the name, and the name is not empty.
fn name_taken(sets: &Sets, index: u16, name: &[u8; 64], own: &Namespace) -> Option<Refusal>
    ensures { OfRegion sets.now index (λ region. result
        ≡ name_taken_beside (labels_in sets.now) region name.now (space_in own.now ∷ [])) }
{
    if is_unnamed(name) {
        return None;
    }
    match sets.other_named(index, name, &own.uuid) {
        Some(other) => {
            let uuid = other.uuid;
            Some(Refusal::NameInUse { uuid })
        }
        None => None,
    }
}
