//! The namespaces of a region in their order, and the status that they give it.

ghost use Rattle.std.specs.Prelude.{◌≡◌, ◌++◌, IfOk, OnOk, map};
ghost use Rattle.std.specs.Option.{option_and_then, option_copied, option_to_list};
ghost use Rattle.label_table.specs.Namespaces.{namespaces, spaces_by_slot};
ghost use Rattle.region_labels.specs.Marks.{listed_in, namespace_at};
ghost use Rattle.region_labels.specs.Modules.{labels_in};
ghost use Rattle.region_labels.specs.Regions.{IsOver};

use crate::modules::LoadedModule;
use crate::region::RegionLabels;
use label_codec::Label;
use std::alloc::{AllocError, Global};
use view_types::Namespace;

/// What namespaces are ordered by.
#[derive(Clone, Copy, Debug, PartialEq, Eq, PartialOrd, Ord)]
pub(crate) struct SpaceKey {
    pub(crate) offset: u64,
    pub(crate) uuid: [u8; 16],
}

impl RegionLabels {
    /// The namespaces of the region, by offset and then by uuid.
    pub fn namespaces(
        &self,
        alloc: Global,
        modules: &[LoadedModule],
    ) -> Result<Vec<Namespace>, AllocError>
        requires { IsOver modules.now self.now }
        ensures { IfOk result (λ spaces. spaces.items ≡
            map (listed_in (labels_in modules.now) self.now.region)
            (namespaces (labels_in modules.now) self.now.region)) }
    {
        let mut spaces = self.namespaces_by_slot(alloc, modules)?;
        spaces.sort_unstable_by_key(|space| SpaceKey {
            offset: space.offset,
            uuid: space.uuid,
        });
        Ok(spaces)
    }

    /// The namespaces of the region, in the order of the slots of position 0's module.
    fn namespaces_by_slot(
        &self,
        alloc: Global,
        modules: &[LoadedModule],
    ) -> Result<Vec<Namespace>, AllocError>
        requires { IsOver modules.now self.now }
        ensures { IfOk result (λ spaces. spaces.items ≡
            map (listed_in (labels_in modules.now) self.now.region)
            (spaces_by_slot (labels_in modules.now) self.now.region)) }
    {
        let mut spaces = Vec::new(alloc);
        if self.region.members.len() == 0 {
            return Ok(spaces);
        }
        let first = self.module_at(modules, 0);
        for slot in 0..first.slots() {
            self.push_namespace(&mut spaces, modules, first.label(slot))?;
        }
        Ok(spaces)
    }

    /// Adds the namespace with a label's uuid, if there is one.
    fn push_namespace(
        &self,
        spaces: &mut Vec<Namespace>,
        modules: &[LoadedModule],
        label: Option<&Label>,
    ) -> Result<(), AllocError>
        requires { IsOver modules.now self.now }
        ensures { OnOk result (spaces.new.items ≡ spaces.old.items ++ option_to_list
            (option_and_then (λ l. namespace_at (labels_in modules.now) self.now.region l.uuid)
            (option_copied label.entry))) }
    {
        let Some(label) = label else {
            return Ok(());
        };
        let Some(space) = self.namespace(modules, &label.uuid) else {
            return Ok(());
        };
        Ok(spaces.push(space)?)
    }
}
