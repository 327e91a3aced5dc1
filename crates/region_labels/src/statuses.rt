//! The status of a region.

ghost use Rattle.std.specs.Prelude.{◌≡◌, map};
ghost use Rattle.std.specs.Option.{option_map};
ghost use Rattle.label_table.specs.Namespaces.{namespaces};
ghost use Rattle.label_table.specs.Statuses.{first_not_ready, status};
ghost use Rattle.region_labels.specs.Modules.{labels_in};
ghost use Rattle.region_labels.specs.Regions.{IsOver};
ghost use Rattle.region_labels.specs.Statuses.{IsFirstNotReady, shown_status, space_in, unready_state};

use crate::clashes::clash_status;
use crate::modules::LoadedModule;
use crate::region::RegionLabels;
use label_codec::AreaKind;
use view_types::{AreaState, Namespace, Status};

impl RegionLabels {
    /// The status of the region, whose namespaces these are.
    pub fn status(&self, modules: &[LoadedModule], spaces: &[Namespace]) -> Status
        requires over { IsOver modules.now self.now }
        requires spaces { map space_in spaces.now ≡ namespaces (labels_in modules.now) self.now.region }
        ensures { result ≡ shown_status (status (labels_in modules.now) self.now.region) }
    {
        if let Some(rule) = self.region.rule {
            return Status::Unusable(rule);
        }
        if let Some(position) = self.first_not_ready(modules) {
            let loaded = self.module_at(modules, position);
            return Status::Area {
                dimm: loaded.dimm,
                state: unready_state(loaded.kind()),
            };
        }
        clash_status(spaces)
    }

    /// The first position whose module is not Ready.
    fn first_not_ready(&self, modules: &[LoadedModule]) -> Option<usize>
        requires { IsOver modules.now self.now }
        ensures { IsFirstNotReady (labels_in modules.now) self.now.region result }
    {
        for position in 0..self.region.members.len() {
            if !self.module_at(modules, position).kind().is_ready() {
                return Some(position);
            }
        }
        None
    }
}

/// How an area that is not Ready is shown.
pub fn unready_state(kind: AreaKind) -> AreaState
    ensures { result ≡ unready_state kind }
{
    match kind {
        AreaKind::Missing => AreaState::Missing,
        AreaKind::WrongSize => AreaState::WrongSize,
        AreaKind::Uninit => AreaState::Uninit,
        AreaKind::Foreign => AreaState::Foreign,
        AreaKind::Ready => AreaState::Ready { slots: 0, spare: 0 },
    }
}
