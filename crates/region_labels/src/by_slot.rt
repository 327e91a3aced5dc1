//! Labels by their slots, as the entries of indexes tell them.

ghost use Rattle.std.specs.Prelude.{◌≡◌, IfOk};
ghost use Rattle.region_labels.specs.Modules.{module_in};
ghost use Rattle.region_labels.specs.SlotLabels.{slot_label, slot_labels};

use crate::modules::LoadedModule;
use std::alloc::{AllocError, Global};

/// A live label by its uuid and the slot in which it stands.
#[derive(Clone, Copy, Debug, PartialEq, Eq)]
pub struct SlotLabel {
    /// The uuid of the namespace, in the order in which its bytes stand.
    pub uuid: [u8; 16],
    /// The slot of the module's label storage area, from 0.
    pub slot: u32,
}

/// The live label in a slot of a module. `None` exactly where there is none.
pub fn slot_label(loaded: &LoadedModule, slot: u32) -> Option<SlotLabel>
    ensures { result ≡ slot_label (module_in loaded.now) slot }
{
    let label = loaded.label(slot)?;
    Some(SlotLabel {
        uuid: label.uuid,
        slot,
    })
}

/// The live labels in some slots of a module, in the order of these.
pub fn slot_labels(
    alloc: Global,
    loaded: &LoadedModule,
    slots: &[u32],
) -> Result<Vec<SlotLabel>, AllocError>
    ensures { IfOk result (λ labels. labels.items ≡ slot_labels (module_in loaded.now) slots.now) }
{
    slots
        .iter()
        .filter_map(|slot| slot_label(loaded, *slot))
        .collect(alloc)
}
