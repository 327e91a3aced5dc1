//! Namespaces that are looked for among all those of a region.

ghost use Rattle.std.specs.Prelude.{◌≡◌, ◌+◌, ◌<◌, ◌++◌, ◌∷◌, ◌^◌, [], true, Bool, IfSome, List, Option, count_by};
ghost use Rattle.std.specs.Prelude.{find};
ghost use Rattle.std.specs.Option.{option_and_then, option_copied, option_to_list};
ghost use Rattle.std.proofs.lemmas.Map.Entries.{option_filter};
ghost use Rattle.view_types.specs.declared.namespaces.Namespace.{Namespace};
ghost use Rattle.label_codec.specs.Names.{name_before_zero};
ghost use Rattle.region_labels.specs.Marks.{namespace_at};
ghost use Rattle.region_labels.specs.Modules.{labels_in};
ghost use Rattle.region_labels.specs.Regions.{IsOver};
ghost use Rattle.region_labels.specs.ListedSpaces.{has_name, is_before, is_name, is_sought, listed_spaces};
ghost use Rattle.region_labels.specs.Tallies.{IsFirst, IsFirstSuch, IsTally, Leads, may_lead};

use crate::modules::LoadedModule;
use crate::region::RegionLabels;
use label_codec::Label;
use view_types::Namespace;

/// Which namespaces of a region are looked for.
#[derive(Clone, Copy)]
pub(crate) enum Sought {
    Named { name: [u8; 64] },
    /// Those with this name, but the one with this uuid.
    NamedBeside { name: [u8; 64], uuid: [u8; 16] },
    Pending,
}

/// The number of namespaces that are looked for, and the first of them by offset and then by uuid.
#[derive(Clone, Copy)]
pub(crate) struct Tally {
    pub(crate) count: u32,
    pub(crate) first: Option<Namespace>,
}

/// The namespaces of the region that are looked for.
pub(crate) fn tally_of(modules: &[LoadedModule], kept: &RegionLabels, sought: &Sought) -> Tally
    requires { IsOver modules.now kept.now }
    ensures count { result.count ≡
        count_by (is_sought sought.now) (listed_spaces (labels_in modules.now) kept.now.region) }
    ensures first { result.first ≡
        find (is_sought sought.now) (listed_spaces (labels_in modules.now) kept.now.region) }
{
    let mut tally = Tally {
        count: 0,
        first: None,
    };
    if kept.region.members.len() == 0 {
        return tally;
    }
    let leading = kept.module_at(modules, 0);
    for slot in 0..leading.slots() {
        tally = tally.with(namespace_of(modules, kept, sought, leading.label(slot)));
    }
    tally
}

/// The namespace of the region with the uuid of a label of position 0, where it is looked for.
fn namespace_of(
    modules: &[LoadedModule],
    kept: &RegionLabels,
    sought: &Sought,
    label: Option<&Label>,
) -> Option<Namespace>
    requires over { IsOver modules.now kept.now }
    requires leads { IfSome (option_copied label) (Leads (labels_in modules.now) kept.now.region) }
    ensures { result ≡ option_filter (is_sought sought.now) (option_and_then
        (λ l. namespace_at (labels_in modules.now) kept.now.region l.uuid) (option_copied label.entry)) }
{
    let Some(label) = label else {
        return None;
    };
    // A namespace has the name of its label of position 0, so that most uuids need not be looked up.
    if !sought.may_lead(label) {
        return None;
    }
    let space = kept.namespace(modules, &label.uuid)?;
    if sought.matches(&space) {
        Some(space)
    } else {
        None
    }
}

impl Tally {
    /// With one namespace more, if it is looked for.
    fn with(self, found: Option<Namespace>) -> Tally
        requires { self.count + 1 < 2 ^ 32 }
        ensures { (test : Namespace → Bool) (spaces : List Namespace) (space : Option Namespace)
            → found ≡ option_filter test space → IsTally test spaces self
            → IsTally test (spaces ++ option_to_list space) result }
    {
        let Some(space) = found else {
            return self;
        };
        Tally {
            count: self.count + 1,
            first: Some(self.first_with(space)),
        }
    }

    /// The first one, with one namespace more.
    fn first_with(self, space: Namespace) -> Namespace
        ensures { (test : Namespace → Bool) (spaces : List Namespace) → IsFirst test spaces self.first
            → test space ≡ true → IsFirstSuch test (spaces ++ space ∷ []) result }
    {
        match self.first {
            Some(first) => {
                if is_before(&space, &first) {
                    space
                } else {
                    first
                }
            }
            None => space,
        }
    }
}

impl Sought {
    /// The namespace that a label leads may be looked for.
    fn may_lead(&self, label: &Label) -> bool
        ensures { result ≡ may_lead self.now label.now }
    {
        match self {
            Sought::Named { name } => is_name(name, &label.name),
            Sought::NamedBeside { name, .. } => is_name(name, &label.name),
            Sought::Pending => true,
        }
    }

    /// A namespace is looked for.
    fn matches(&self, space: &Namespace) -> bool
        ensures { result ≡ is_sought self.now space.now }
    {
        match self {
            Sought::Named { name } => is_name(name, &space.name),
            Sought::NamedBeside { name, uuid } => {
                is_name(name, &space.name) && *uuid != space.uuid
            }
            Sought::Pending => space.pending,
        }
    }
}

/// A name is this one, up to the first zero byte of each.
fn is_name(name: &[u8; 64], other: &[u8; 64]) -> bool
    ensures { result ≡ is_name name.now other.now }
{
    before_zero(name) == before_zero(other)
}

/// The bytes before the first zero byte.
fn before_zero(name: &[u8; 64]) -> &[u8]
    ensures { result.now ≡ name_before_zero name.now }
{
    let end = name
        .iter()
        .position(|byte| *byte == 0)
        .unwrap_or(name.len());
    &name[..end]
}

/// One namespace stands before another, by offset and then by uuid.
fn is_before(a: &Namespace, b: &Namespace) -> bool
    ensures { result ≡ is_before a.now b.now }
{
    a.offset.cmp(&b.offset).then(a.uuid.cmp(&b.uuid)).is_lt()
}
