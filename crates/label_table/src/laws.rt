//! Laws of what labels stand for. The functions do nothing: their clauses say what holds.

ghost use Rattle.std.specs.Prelude.{◌≡◌, ◌≢◌, ℕ, ◌+◌, ◌<◌, ◌≤◌, ◌∷◌, List, Option, true, false, length};
ghost use Rattle.std.specs.List.{Contains};
ghost use Rattle.view_types.specs.declared.extents.Extent.{Extent};
ghost use Rattle.label_codec.specs.declared.label.Label.{Label};
ghost use Rattle.label_codec.specs.ModuleLabels.{IsBounded, Labels};
ghost use Rattle.region_map.specs.declared.platform.Member.{Member};
ghost use Rattle.region_map.specs.declared.platform.Platform.{Platform};
ghost use Rattle.region_map.specs.declared.platform.Region.{Region};
ghost use Rattle.region_map.specs.Platforms.{IsSound};
ghost use Rattle.label_table.specs.Belonging.{IsDisjoint, belongs, member_at, region_of};
ghost use Rattle.label_table.specs.Division.{AreFreeExtents, IsOpen, Part, is_common_free, part_size};
ghost use Rattle.label_table.specs.Fates.{is_dead};
ghost use Rattle.label_table.specs.Flips.{AddsOne, AreAligned, ExactlyOne, FreesOne, LeavesOutDead, ReplacesOne};
ghost use Rattle.label_table.specs.Namespaces.{namespaces};
ghost use Rattle.label_table.specs.Settling.{IsInitialised, IsReleased, settled, with_ready_area, without_held};
ghost use Rattle.label_table.specs.Spaces.{Space, space};
ghost use Rattle.label_table.specs.Spaces.{is_pending};
ghost use Rattle.label_table.specs.Statuses.{RegionReady, status};
ghost use Rattle.label_table.specs.Tables.{ChangesAt, State, state, table, with_changed_namespace, with_namespace};
ghost use Rattle.label_table.specs.Tables.{without_namespace};
ghost use Rattle.label_table.specs.Wholes.{all_ready, any_read_only, is_doubled, is_whole, label_count, labels_with};

/// Which region a label belongs to.
pub fn region_laws()
    // The platform of a table is disjoint.
    ensures sound { (platform : Platform) → IsSound platform → IsDisjoint platform }

    // At most one region has a label.
    ensures one_region { (platform : Platform) (region : Region) (handle : ℕ) (label : Label) → IsDisjoint platform
        → Contains platform.regions region → belongs region handle label ≡ true
        → region_of platform handle label ≡ Some region }

    // Its position is that of its module.
    ensures own_position { (platform : Platform) (region : Region) (handle : ℕ) (label : Label) (position : ℕ)
        → IsDisjoint platform
        → Contains platform.regions region → belongs region handle label ≡ true
        → position < length region.members → (member_at region position).handle ≡ handle → label.position ≡ position }
{}

/// Dead labels may be left out.
pub fn dead_label_laws()
    // A module with a dead label has no other with its uuid.
    ensures alone { (platform : Platform) (labels : Labels) (handle slot : ℕ) (label : Label) → IsBounded labels
        → (labels handle).at slot ≡ Some label → is_dead platform labels handle label ≡ true
        → label_count (labels_with label.uuid labels) handle ≡ 1 }

    // To leave out dead labels changes neither which others are dead, nor which uuids are whole or doubled.
    ensures dead { (platform : Platform) (before after : Labels) → LeavesOutDead platform before after
        → (handle : ℕ) (label : Label)
        → is_dead platform after handle label ≡ is_dead platform before handle label }
    ensures whole { (platform : Platform) (before after : Labels) → LeavesOutDead platform before after
        → (region : Region) (uuid : List ℕ)
        → Contains platform.regions region → is_whole after region uuid ≡ is_whole before region uuid }
    ensures doubled { (platform : Platform) (before after : Labels) → LeavesOutDead platform before after
        → (region : Region) (uuid : List ℕ)
        → is_doubled after region uuid ≡ is_doubled before region uuid }
{}

/// What the table alone tells.
pub fn table_laws()
    // Labels stand for one state.
    ensures one_state { (platform : Platform) (labels : Labels) (one other : State)
        → one ≡ state platform labels → other ≡ state platform labels → one ≡ other }

    // Where two tables are equal, so are the namespaces of each region, its status and its free offsets.
    ensures same_namespaces { (platform : Platform) (before after : Labels) → IsDisjoint platform
        → table platform after ≡ table platform before
        → (region : Region) → Contains platform.regions region → namespaces after region ≡ namespaces before region }
    ensures same_status { (platform : Platform) (before after : Labels) → IsDisjoint platform
        → table platform after ≡ table platform before
        → (region : Region) → Contains platform.regions region → status after region ≡ status before region }
    ensures same_free { (platform : Platform) (before after : Labels) → IsDisjoint platform
        → table platform after ≡ table platform before
        → (region : Region) → Contains platform.regions region
        → is_common_free platform after region ≡ is_common_free platform before region }

    // The list of namespaces has each of them, and no other.
    ensures listed { (labels : Labels) (region : Region) (uuid : List ℕ) (one : Space)
        → space labels region uuid ≡ Some one
        → Contains (namespaces labels region) one }
    ensures stands { (labels : Labels) (region : Region) (one : Space) → Contains (namespaces labels region) one
        → space labels region one.uuid ≡ Some one }

    // Each lies within the region, and is not empty.
    ensures within { (platform : Platform) (labels : Labels) (region : Region) (uuid : List ℕ) (one : Space)
        → IsDisjoint platform
        → Contains platform.regions region → space labels region uuid ≡ Some one
        → (one.offset + one.length ≤ part_size region) × (0 < one.length) }
{}

/// How the offsets of a region are divided.
pub fn division_laws()
    // Each offset of a Ready region is in one namespace, or held, or in one free extent, and never in two of these.
    ensures parts { (platform : Platform) (labels : Labels) (region : Region) (extents : List Extent)
        → AreFreeExtents platform labels region extents → status labels region ≡ RegionReady
        → (offset : ℕ) → offset < part_size region → Part platform labels region extents offset }

    // There is a list of free extents, and one.
    ensures some_list { (platform : Platform) (labels : Labels) (region : Region)
        → (extents : List Extent) × AreFreeExtents platform labels region extents }
    ensures one_list { (platform : Platform) (labels : Labels) (region : Region) (one other : List Extent)
        → AreFreeExtents platform labels region one → AreFreeExtents platform labels region other → one ≡ other }
{}

/// What one flip of a module's labels makes of the table and of the pending marks.
pub fn flip_laws()
    // One that frees dead labels keeps both.
    ensures swept { (platform : Platform) (before after : Labels) → LeavesOutDead platform before after
        → state platform after ≡ state platform before }

    // So does one more stale label of a new namespace, while a module of its region lacks one.
    ensures staged { (platform : Platform) (region : Region) (uuid : List ℕ) (member : Member) (before after : Labels)
        → AddsOne platform region uuid member before after → is_whole after region uuid ≡ false
        → state platform after ≡ state platform before }

    // With an aligned label in each module the uuid is whole, and by the last one the namespace stands. It is pending.
    ensures whole { (region : Region) (uuid : List ℕ) (offset size : ℕ) (labels : Labels) (member : Member)
        (members : List Member)
        → all_ready region labels ≡ true → AreAligned region uuid offset size labels → ExactlyOne region uuid labels
        → region.members ≡ member ∷ members → is_whole labels region uuid ≡ true }
    ensures completed { (platform : Platform) (region : Region) (uuid : List ℕ) (member : Member)
        (before after : Labels) (new : Space)
        → AddsOne platform region uuid member before after → space after region uuid ≡ Some new
        → state platform after ≡ with_namespace region new (state platform before) }

    // By a label that is replaced, a namespace shows what it shows now, and all else is kept.
    ensures replaced { (platform : Platform) (region : Region) (uuid : List ℕ) (member : Member)
        (before after : Labels) (new : Space)
        → ReplacesOne platform region uuid member before after → space after region uuid ≡ Some new
        → state platform after ≡ with_changed_namespace region new (is_pending after region uuid)
        (state platform before) }
    ensures kept { (platform : Platform) (region : Region) (uuid : List ℕ) (member : Member) (before after : Labels)
        → ReplacesOne platform region uuid member before after → space after region uuid ≡ space before region uuid
        → table platform after ≡ table platform before }

    // Behind position 0 that is the table as it was, unless a label is read-only.
    ensures elsewhere { (platform : Platform) (region : Region) (uuid : List ℕ) (member : Member)
        (before after : Labels)
        (leading : Member) (members : List Member)
        → ReplacesOne platform region uuid member before after → region.members ≡ leading ∷ members
        → leading.handle ≢ member.handle
        → any_read_only region (labels_with uuid before) ≡ false
        → any_read_only region (labels_with uuid after) ≡ false
        → table platform after ≡ table platform before }

    // By one label less, a namespace whose labels are all stale is gone.
    ensures freed { (platform : Platform) (region : Region) (uuid : List ℕ) (member : Member) (before after : Labels)
        → FreesOne platform region uuid member before after
        → state platform after ≡ without_namespace region uuid (state platform before) }
{}

/// What becomes of the status of each region when a namespace is gone, is new, or shows something else.
pub fn status_laws()
    ensures elsewhere { (platform : Platform) (region other : Region) (uuid : List ℕ) (new : Option Space)
        (before after : Labels)
        → ChangesAt platform region uuid new before after → Contains platform.regions other → other ≢ region
        → status after other ≡ status before other }

    // A Ready region stays Ready, with a namespace less,
    ensures without { (platform : Platform) (region : Region) (uuid : List ℕ) (before after : Labels)
        → ChangesAt platform region uuid None before after
        → status before region ≡ RegionReady → status after region ≡ RegionReady }

    // and with one on a range that was its own or that no namespace had.
    ensures with_open_range { (platform : Platform) (region : Region) (new : Space) (before after : Labels)
        → ChangesAt platform region new.uuid (Some new) before after → 0 < new.length → IsOpen before region new
        → status before region ≡ RegionReady → status after region ≡ RegionReady }
{}

/// What becomes of the table when an area is initialised, and when held labels are released. The pending marks stay.
pub fn settling_laws()
    ensures initialised { (platform : Platform) (handle slots : ℕ) (before after : Labels) → IsDisjoint platform
        → IsBounded before
        → IsInitialised handle slots before after
        → table platform after ≡ settled platform (with_ready_area handle slots (table platform before)) }
    ensures initialised_marks { (platform : Platform) (handle slots : ℕ) (before after : Labels) → IsDisjoint platform
        → IsBounded before
        → IsInitialised handle slots before after → (state platform after).pending ≡ (state platform before).pending }
    ensures released { (platform : Platform) (handle : ℕ) (uuid : List ℕ) (before after : Labels) → IsDisjoint platform
        → IsBounded before
        → IsReleased platform handle uuid before after
        → table platform after ≡ settled platform (without_held handle uuid (table platform before)) }
    ensures released_marks { (platform : Platform) (handle : ℕ) (uuid : List ℕ) (before after : Labels)
        → IsDisjoint platform → IsBounded before
        → IsReleased platform handle uuid before after
        → (state platform after).pending ≡ (state platform before).pending }
{}
