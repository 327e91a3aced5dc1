//! Which labels are dead, and which are held.

ghost use Rattle.std.specs.Prelude.{◌≡◌, Some, find};
ghost use Rattle.std.specs.List.{All};
ghost use Rattle.std.specs.Option.{option_copied};
ghost use Rattle.label_table.specs.Belonging.{belongs};
ghost use Rattle.label_table.specs.Fates.{is_dead, is_held, is_unfinished};
ghost use Rattle.region_labels.specs.Fates.{holds_in, is_dead_in, is_stale_in, platform_of};
ghost use Rattle.region_labels.specs.Modules.{labels_in};
ghost use Rattle.region_labels.specs.Regions.{IsOver};

use crate::modules::LoadedModule;
use crate::region::RegionLabels;
use label_codec::Label;
use label_table::belongs;

/// What is kept of the region that a label of the module with this device handle belongs to.
pub(crate) fn region_of<'a>(
    regions: &'a [RegionLabels],
    handle: u32,
    label: &Label,
) -> Option<&'a RegionLabels>
    ensures { option_copied result ≡ find (λ kept. belongs kept.region handle label.now) regions.now }
{
    regions
        .iter()
        .find(|kept| belongs(&kept.region, handle, label))
}

/// The label of the module with this device handle is dead.
pub fn is_dead(
    modules: &[LoadedModule],
    regions: &[RegionLabels],
    handle: u32,
    label: &Label,
) -> bool
    requires { All (IsOver modules.now) regions.now }
    ensures { result ≡ is_dead (platform_of regions.now) (labels_in modules.now) handle label.now }
{
    match region_of(regions, handle, label) {
        Some(kept) => kept.is_dead(modules, label),
        None => false,
    }
}

/// The label of the module with this device handle is held.
pub fn is_held(
    modules: &[LoadedModule],
    regions: &[RegionLabels],
    handle: u32,
    label: &Label,
) -> bool
    requires { All (IsOver modules.now) regions.now }
    ensures { result ≡ is_held (platform_of regions.now) (labels_in modules.now) handle label.now }
{
    match region_of(regions, handle, label) {
        Some(kept) => kept.holds(modules, label),
        None => true,
    }
}

impl RegionLabels {
    /// A label of the region is held: it is neither a namespace's nor dead.
    fn holds(&self, modules: &[LoadedModule], label: &Label) -> bool
        requires { IsOver modules.now self.now }
        ensures { result ≡ holds_in (labels_in modules.now) self.now.region label.now }
    {
        if self.is_whole(modules, &label.uuid) {
            return false;
        }
        !(is_stale(label) && self.all_ready(modules) && !self.is_doubled(&label.uuid))
    }

    /// A label of the region is dead.
    fn is_dead(&self, modules: &[LoadedModule], label: &Label) -> bool
        requires { IsOver modules.now self.now }
        ensures { result ≡ is_dead_in (labels_in modules.now) self.now.region label.now }
    {
        is_stale(label) && self.is_unfinished(modules, &label.uuid)
    }

    /// All modules of the region are Ready, and the uuid is neither whole there nor doubled.
    fn is_unfinished(&self, modules: &[LoadedModule], uuid: &[u8; 16]) -> bool
        requires { IsOver modules.now self.now }
        ensures { result ≡ is_unfinished (labels_in modules.now) uuid.now (Some self.now.region) }
    {
        self.all_ready(modules) && !self.is_whole(modules, uuid) && !self.is_doubled(uuid)
    }
}

/// A label of a region is being changed, and may be.
fn is_stale(label: &Label) -> bool
    ensures { result ≡ is_stale_in label.now }
{
    label.is_updating() && !label.is_read_only()
}
