//! Which uuids are namespaces of a region, and which are doubled there.

ghost use Rattle.std.specs.Prelude.{◌≡◌, ◌<◌, nat_lt, is_some, length};
ghost use Rattle.std.specs.Option.{option_copied};
ghost use Rattle.label_codec.specs.ModuleLabels.{Labels};
ghost use Rattle.label_table.specs.Belonging.{member_at};
ghost use Rattle.label_table.specs.Plain.{IsOnly};
ghost use Rattle.label_table.specs.Wholes.{agrees, all_ready, is_doubled, is_whole, label_count, labels_with};
ghost use Rattle.uuid_index.specs.Labels.{IsIndex};
ghost use Rattle.region_labels.specs.Marks.{marks_if_one_each, namespace_at};
ghost use Rattle.region_labels.specs.Modules.{labels_in, module_in};
ghost use Rattle.region_labels.specs.Regions.{IsAgreeing, IsOver, handles};

use crate::marks::Marks;
use crate::modules::LoadedModule;
use crate::region::RegionLabels;
use label_codec::Label;
use label_table::{belongs, offset_in};
use region_map::Region;
use uuid_index::Found;
use view_types::Namespace;

impl RegionLabels {
    /// The areas of all modules of the region are Ready.
    pub fn all_ready(&self, modules: &[LoadedModule]) -> bool
        requires { IsOver modules.now self.now }
        ensures { result ≡ all_ready self.now.region (labels_in modules.now) }
    {
        for position in 0..self.region.members.len() {
            if !self.module_at(modules, position).kind().is_ready() {
                return false;
            }
        }
        true
    }

    /// A module of the region has two live labels with the uuid or more.
    pub fn is_doubled(&self, uuid: &[u8; 16]) -> bool
        ensures { (labels : Labels) → IsIndex (handles self.now.region) labels self.now.index.entries
            → result ≡ is_doubled labels self.now.region uuid.now }
    {
        for position in 0..self.region.members.len() {
            if self.is_repeated(uuid, position) {
                return true;
            }
        }
        false
    }

    /// The uuid is that of a namespace of the region.
    pub fn is_whole(&self, modules: &[LoadedModule], uuid: &[u8; 16]) -> bool
        requires { IsOver modules.now self.now }
        ensures { result ≡ is_whole (labels_in modules.now) self.now.region uuid.now }
    {
        self.namespace(modules, uuid).is_some()
    }

    /// The namespace of the region with a uuid. `None` exactly where there is none.
    pub fn namespace(&self, modules: &[LoadedModule], uuid: &[u8; 16]) -> Option<Namespace>
        requires { IsOver modules.now self.now }
        ensures { result ≡ namespace_at (labels_in modules.now) self.now.region uuid.now }
    {
        if self.region.members.len() == 0 {
            return None;
        }
        if !self.all_ready(modules) {
            return None;
        }
        let Some(leading) = self.only_label(modules, uuid, 0) else {
            return None;
        };
        let Some(marks) = self.marks(modules, uuid, leading) else {
            return None;
        };
        if !marks.is_of_namespace(leading) {
            return None;
        }
        Some(marks.namespace(&self.region, leading))
    }

    /// What the labels of a uuid tell together. `None` exactly where a module hasn't one that agrees with the leading
    /// label, or has two.
    fn marks(&self, modules: &[LoadedModule], uuid: &[u8; 16], leading: &Label) -> Option<Marks>
        requires { IsOver modules.now self.now }
        ensures { result ≡
            marks_if_one_each self.now.region leading.now (labels_with uuid.now (labels_in modules.now)) }
    {
        let mut marks = Marks {
            one_size: true,
            read_only: false,
            updating: false,
        };
        for position in 0..self.region.members.len() {
            let Some(label) = self.agreeing_label(modules, uuid, leading, position) else {
                return None;
            };
            marks = marks.with(leading, label);
        }
        Some(marks)
    }

    /// The only label with the uuid in the module at a position, where it agrees with the leading one.
    fn agreeing_label<'a>(
        &self,
        modules: &'a [LoadedModule],
        uuid: &[u8; 16],
        leading: &Label,
        position: usize,
    ) -> Option<&'a Label>
        requires over { IsOver modules.now self.now }
        requires position { position < length self.now.region.members }
        ensures { IsAgreeing self.now.region leading.now (labels_with uuid.now (labels_in modules.now))
            (member_at self.now.region position) (option_copied result) }
    {
        let Some(label) = self.only_label(modules, uuid, position) else {
            return None;
        };
        let member = &self.region.members.as_slice()[position];
        if !agrees(&self.region, leading, member.handle, label) {
            return None;
        }
        Some(label)
    }

    /// The only label with the uuid in the module at a position. `None` where it has none, or more than one.
    fn only_label<'a>(
        &self,
        modules: &'a [LoadedModule],
        uuid: &[u8; 16],
        position: usize,
    ) -> Option<&'a Label>
        requires over { IsOver modules.now self.now }
        requires position { position < length self.now.region.members }
        ensures { IsOnly uuid.now (labels_in modules.now (member_at self.now.region position).handle)
            (option_copied result) }
    {
        match self.index.find(uuid, position) {
            Found::Nowhere => None,
            Found::Once { slot } => self.module_at(modules, position).label(slot),
            Found::Repeated => None,
        }
    }

    /// The module at a position has two live labels with the uuid or more.
    fn is_repeated(&self, uuid: &[u8; 16], position: usize) -> bool
        requires { position < length self.now.region.members }
        ensures { (labels : Labels) → IsIndex (handles self.now.region) labels self.now.index.entries → result ≡
            nat_lt 1 (label_count (labels_with uuid.now labels) (member_at self.now.region position).handle) }
    {
        match self.index.find(uuid, position) {
            Found::Nowhere => false,
            Found::Once { slot: _ } => false,
            Found::Repeated => true,
        }
    }

    /// The module of the member at a position.
    pub fn module_at<'a>(&self, modules: &'a [LoadedModule], position: usize) -> &'a LoadedModule
        requires over { IsOver modules.now self.now }
        requires position { position < length self.now.region.members }
        ensures stands { module_in result.now ≡ labels_in modules.now (member_at self.now.region position).handle }
        ensures handle { result.now.dimm ≡ (member_at self.now.region position).handle }
    {
        let seat = self.seats[position];
        &modules[seat]
    }
}

/// The label belongs to the region, at the offset of another.
fn agrees(region: &Region, leading: &Label, handle: u32, label: &Label) -> bool
    ensures { result ≡ agrees region.now leading.now handle label.now }
{
    belongs(region, handle, label) && offset_in(region, label) == offset_in(region, leading)
}
