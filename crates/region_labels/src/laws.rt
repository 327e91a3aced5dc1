//! Laws of changes. The functions do nothing: their clauses say what holds.

ghost use Rattle.std.specs.Prelude.{◌≡◌, ◌≢◌, ℕ, ◌+◌, ◌<◌, ◌≤◌, ◌∷◌, List, None, Option, Some, length, map};
ghost use Rattle.std.specs.Prelude.{slice_index_or, slice_set};
ghost use Rattle.std.specs.FinMap.{get};
ghost use Rattle.std.specs.List.{All, AllZip, Contains};
ghost use Rattle.view_types.specs.declared.extents.Extent.{Extent};
ghost use Rattle.view_types.specs.Intervals.{AreMaximal, is_free, with_range, without_range};
ghost use Rattle.label_codec.specs.declared.label.Label.{Label};
ghost use Rattle.label_codec.specs.ModuleChanges.{with_module};
ghost use Rattle.label_codec.specs.ModuleLabels.{Labels};
ghost use Rattle.region_map.specs.declared.platform.Member.{Member};
ghost use Rattle.region_map.specs.declared.platform.Platform.{Platform};
ghost use Rattle.region_map.specs.declared.platform.Region.{Region};
ghost use Rattle.region_map.specs.Platforms as platforms;
ghost use Rattle.label_area.specs.Flips.{after_free, after_put, first_slot, shown_by};
ghost use Rattle.label_area.specs.LoadedAreas.{IsSound, LoadedArea};
ghost use Rattle.label_table.specs.Belonging.{IsDisjoint};
ghost use Rattle.label_table.specs.Division.{AreFreeExtents, part_size};
ghost use Rattle.label_table.specs.Flips.{AddsOne};
ghost use Rattle.label_table.specs.Spaces.{Space, space};
ghost use Rattle.label_table.specs.Tables.{table};
ghost use Rattle.region_labels.specs.declared.modules.LoadedModule.{LoadedModule};
ghost use Rattle.region_labels.specs.declared.region.RegionLabels.{RegionLabels};
ghost use Rattle.region_labels.specs.Fates.{with_regions};
ghost use Rattle.region_labels.specs.Modules.{EachOnce, dimm_of, labels_in, module_in};
ghost use Rattle.region_labels.specs.Changes.{IsChangedAt, dimm_at};
ghost use Rattle.region_labels.specs.declared.by_slot.SlotLabel.{SlotLabel};
ghost use Rattle.region_labels.specs.Flips.{LosesLabels, ReplacesLabel};
ghost use Rattle.region_labels.specs.Rooms.{HasRoom, HasRoomFor, HasRoomForAll, KeepsRegion, room_after_put};
ghost use Rattle.region_labels.specs.SlotLabels.{AreApart, replaced_label, slot_labels};
ghost use Rattle.region_labels.specs.GainedSpaces.{GainsNamespace, IsAlone, LosesNamespace, ShowsNew};

/// What the flips of an area make of the labels of its module.
pub fn area_laws()
    // It gets the label that is put there, with the number of the slot, and loses the one that is replaced.
    ensures put { (before after : LoadedArea) (label : Label) (replaces : Option ℕ) → IsSound before
        → first_slot before < before.geometry.slots → get before.live (first_slot before) ≡ None
        → shown_by after ≡ after_put before label replaces
        → ReplacesLabel (shown_by before).labels (shown_by after).labels
        (record { uuid = label.uuid; slot = first_slot before })
        (replaced_label (shown_by before).labels replaces) }

    // It loses the labels of the slots that are freed. Junk slots have none.
    ensures freed { (before after : LoadedArea) (slots : List ℕ) → IsSound before → AreApart slots
        → shown_by after ≡ after_free before slots
        → LosesLabels (shown_by before).labels (shown_by after).labels (slot_labels (shown_by before).labels slots) }
{}

/// What holds of modules of which one has another area.
pub fn module_laws()
    ensures written { (modules : List LoadedModule) (seat : ℕ) (loaded : LoadedModule) → seat < length modules
        → ((d : LoadedModule) → loaded.dimm ≡ (slice_index_or modules seat d).dimm)
        → IsChangedAt modules (slice_set modules seat loaded) seat }
    ensures handles { (before after : List LoadedModule) (seat : ℕ) → IsChangedAt before after seat
        → map dimm_of after ≡ map dimm_of before }
    ensures once { (before after : List LoadedModule) (seat : ℕ) → IsChangedAt before after seat → EachOnce before
        → EachOnce after }
    ensures labels { (before after : List LoadedModule) (seat : ℕ) (d : LoadedModule) → EachOnce before
        → IsChangedAt before after seat
        → labels_in after
        ≡ with_module (dimm_at before seat) (module_in (slice_index_or after seat d)) (labels_in before) }
{}

/// What room labels of several modules have in the indexes of regions.
pub fn room_laws()
    // One of each has what is reserved,
    ensures reserved { (dimms : List ℕ) (regions : List RegionLabels) → AreApart dimms → All HasRoom regions
        → All (HasRoomForAll dimms) regions }

    // so the first can be put, and the others have room then.
    ensures first { (dimm : ℕ) (dimms : List ℕ) (regions : List RegionLabels)
        → All (HasRoomForAll (dimm ∷ dimms)) regions → All (HasRoomFor dimm) regions }
    ensures others { (dimm : ℕ) (dimms : List ℕ) (old new : List RegionLabels)
        → AllZip (KeepsRegion (room_after_put dimm None)) old new → All (HasRoomForAll (dimm ∷ dimms)) old
        → All (HasRoomForAll dimms) new }
    ensures replaced { (dimm : ℕ) (dimms : List ℕ) (lost : SlotLabel) (old new : List RegionLabels)
        → AllZip (KeepsRegion (room_after_put dimm (Some lost))) old new → All (HasRoomForAll dimms) old
        → All (HasRoomForAll dimms) new }
{}

/// What becomes of the free extents of regions.
pub fn free_laws()
    // The regions of a table are disjoint, also without its modules.
    ensures disjoint { (platform : Platform) → platforms.IsSound platform
        → IsDisjoint (with_regions platform.regions) }

    // They stay where the table stays.
    ensures kept { (platform : Platform) (before after : Labels) (region : Region) (extents : List Extent)
        → IsDisjoint platform → table platform after ≡ table platform before → Contains platform.regions region
        → AreFreeExtents platform before region extents → AreFreeExtents platform after region extents }

    // By the last label of a new namespace, after others that left the table as it was, its region gains it.
    ensures completed { (platform : Platform) (region : Region) (uuid : List ℕ) (member : Member)
        (start before after : Labels) (new : Space)
        → table platform before ≡ table platform start → AddsOne platform region uuid member before after
        → space after region uuid ≡ Some new → GainsNamespace platform region new start after }

    // Its range is taken out of the free extents of its region, and those of the others stay.
    ensures gained { (platform : Platform) (region : Region) (new : Space) (before after : Labels)
        (old now : List Extent)
        → GainsNamespace platform region new before after → AreFreeExtents platform before region old
        → AreMaximal (part_size region) (without_range (is_free old) new.offset new.length) now
        → AreFreeExtents platform after region now }
    ensures gained_elsewhere { (platform : Platform) (region other : Region) (new : Space) (before after : Labels)
        (extents : List Extent)
        → GainsNamespace platform region new before after → Contains platform.regions other → other ≢ region
        → AreFreeExtents platform before other extents → AreFreeExtents platform after other extents }

    // The range of a namespace that is gone is free, unless another one has an offset of it, or a label holds one.
    ensures lost { (platform : Platform) (region : Region) (gone : Space) (before after : Labels)
        (old now : List Extent)
        → LosesNamespace platform region gone before after → IsAlone platform before region gone
        → AreFreeExtents platform before region old
        → AreMaximal (part_size region) (with_range (is_free old) gone.offset gone.length) now
        → AreFreeExtents platform after region now }
    ensures lost_elsewhere { (platform : Platform) (region other : Region) (gone : Space) (before after : Labels)
        (extents : List Extent)
        → LosesNamespace platform region gone before after → Contains platform.regions other → other ≢ region
        → AreFreeExtents platform before other extents → AreFreeExtents platform after other extents }

    // A namespace that shows something else in its place leaves all of them.
    ensures shown { (platform : Platform) (region other : Region) (old new : Space) (before after : Labels)
        (extents : List Extent)
        → ShowsNew platform region old new before after → Contains platform.regions other
        → AreFreeExtents platform before other extents → AreFreeExtents platform after other extents }
{}
