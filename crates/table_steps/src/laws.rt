//! Laws of the steps. The functions do nothing: their clauses say what holds.

ghost use Rattle.std.specs.Prelude.{◌≡◌, ◌≢◌, ℕ, ◌+◌, ◌*◌, ◌%◌, ◌<◌, ◌≤◌, Bool, List, [], ◌∷◌, None, Some};
ghost use Rattle.std.specs.Prelude.{false, length, true};
ghost use Rattle.std.specs.List.{Contains};
ghost use Rattle.view_types.specs.declared.extents.Extent.{Extent};
ghost use Rattle.view_types.specs.declared.refusal.Refusal.{Refusal};
ghost use Rattle.view_types.specs.declared.reply.Reply.{Reply};
ghost use Rattle.view_types.specs.declared.reply.Reply.TheVariants.{Refused};
ghost use Rattle.view_types.specs.Intervals.{IsFirstFit};
ghost use Rattle.cmd_words.specs.declared.name_keys.NameKey.{NameKey};
ghost use Rattle.cmd_words.specs.declared.name_keys.NameKey.TheVariants.{Name};
ghost use Rattle.cmd_words.specs.declared.parts.Change.{Change};
ghost use Rattle.label_codec.specs.declared.label.Label.{Label};
ghost use Rattle.label_codec.specs.declared.kind.AreaKind.TheVariants.{Ready};
ghost use Rattle.label_codec.specs.ModuleLabels.{IsBounded, Labels, has};
ghost use Rattle.region_map.specs.declared.platform.Member.{Member};
ghost use Rattle.region_map.specs.declared.platform.Platform.{Platform};
ghost use Rattle.region_map.specs.declared.platform.Region.{Region};
ghost use Rattle.region_map.specs.Platforms.{IsSound, region_at};
ghost use Rattle.label_table.specs.Belonging.{IsDisjoint};
ghost use Rattle.label_table.specs.Division.{alignment, has_offset, is_common_free, is_held_at};
ghost use Rattle.label_table.specs.Fates.{held_count, is_dead, is_stale, spare};
ghost use Rattle.label_table.specs.Namespaces.{namespaces, without_uuid};
ghost use Rattle.label_table.specs.Settling as settling;
ghost use Rattle.label_table.specs.Spaces.{Space, space};
ghost use Rattle.label_table.specs.Statuses.{RegionReady, status};
ghost use Rattle.label_table.specs.Tables.{State, changed_at, is_member, pending_at, state, table};
ghost use Rattle.label_table.specs.Tables.{with_changed_namespace, with_namespace, without_namespace};
ghost use Rattle.table_steps.specs.declared.new_namespace.NewNamespace.{NewNamespace};
ghost use Rattle.table_steps.specs.Create.{Accepts, AreFreeOf, create_refusals, known_region_refusals, made};
ghost use Rattle.table_steps.specs.Create.{part_length, with_made};
ghost use Rattle.table_steps.specs.Changes.{least_spare};
ghost use Rattle.table_steps.specs.Destroy.{IsDestroyed, destroy_refusals, destroy_refusals_in, with_destroyed};
ghost use Rattle.table_steps.specs.Initialise.{IsInitialised, initialised};
ghost use Rattle.table_steps.specs.Namespaces.{HasDistinctNames, IsOneToChange, fitting};
ghost use Rattle.table_steps.specs.Refusals.{first_of};
ghost use Rattle.table_steps.specs.Release.{IsReleased, MayBeReleased, release_refusals, released};
ghost use Rattle.table_steps.specs.Rename.{IsRenamed, name_taken_in, rename_refusals, rename_refusals_in, renamed};
ghost use Rattle.table_steps.specs.Rename.{with_renamed};
ghost use Rattle.table_steps.specs.Steps.{Does, IsStep};

/// What an accepted create makes of the table and of the pending marks.
pub fn create_laws()
    // The table changes at the new namespace alone.
    ensures spaces { (platform : Platform) (labels : Labels) (free : List Extent) (asked : NewNamespace)
        (reply : Reply) (after : State) → (accepts : Accepts platform labels free asked reply after)
        → after.table.space ≡ changed_at accepts.done.region asked.uuid
        (Some (made asked accepts.done.region accepts.done.offset)) (table platform labels).space }
    ensures kinds { (platform : Platform) (labels : Labels) (free : List Extent) (asked : NewNamespace)
        (reply : Reply) (after : State) → Accepts platform labels free asked reply after
        → after.table.kind ≡ (table platform labels).kind }
    ensures held { (platform : Platform) (labels : Labels) (free : List Extent) (asked : NewNamespace)
        (reply : Reply) (after : State) → Accepts platform labels free asked reply after
        → after.table.held ≡ (table platform labels).held }

    // Each module of its region has one spare slot less, and all others have theirs.
    ensures spares { (platform : Platform) (labels : Labels) (free : List Extent) (asked : NewNamespace)
        (reply : Reply) (after : State) → (accepts : Accepts platform labels free asked reply after)
        → (member : Member) → Contains accepts.done.region.members member
        → after.table.spare member.handle + 1 ≡ spare platform labels member.handle }
    ensures other_spares { (platform : Platform) (labels : Labels) (free : List Extent) (asked : NewNamespace)
        (reply : Reply) (after : State) → (accepts : Accepts platform labels free asked reply after)
        → (handle : ℕ) → is_member accepts.done.region handle ≡ false
        → after.table.spare handle ≡ spare platform labels handle }

    // No namespace of its region is pending, and those of others are as they were.
    ensures marks { (platform : Platform) (labels : Labels) (free : List Extent) (asked : NewNamespace)
        (reply : Reply) (after : State) → (accepts : Accepts platform labels free asked reply after)
        → (uuid : List ℕ) → after.pending accepts.done.region.index uuid ≡ false }
    ensures other_marks { (platform : Platform) (labels : Labels) (free : List Extent) (asked : NewNamespace)
        (reply : Reply) (after : State) → (accepts : Accepts platform labels free asked reply after)
        → (index : ℕ) (uuid : List ℕ) → index ≢ accepts.done.region.index
        → after.pending index uuid ≡ pending_at platform labels index uuid }
{}

/// Where the namespace of an accepted create stands, and what becomes of the regions.
pub fn range_laws()
    // Its range begins at a multiple of 2 MiB of each member's part, and all of them together have the size.
    ensures aligned { (platform : Platform) (labels : Labels) (free : List Extent) (asked : NewNamespace)
        (reply : Reply) (after : State) → (accepts : Accepts platform labels free asked reply after)
        → accepts.done.offset % alignment ≡ 0 }
    ensures whole { (platform : Platform) (labels : Labels) (free : List Extent) (asked : NewNamespace)
        (reply : Reply) (after : State) → (accepts : Accepts platform labels free asked reply after)
        → length accepts.done.region.members * part_length asked accepts.done.region ≡ asked.size }
    ensures some { (platform : Platform) (labels : Labels) (free : List Extent) (asked : NewNamespace)
        (reply : Reply) (after : State) → (accepts : Accepts platform labels free asked reply after)
        → 0 < part_length asked accepts.done.region }

    // No namespace had an offset of it, and no label held one.
    ensures was_free { (platform : Platform) (labels : Labels) (free : List Extent) (asked : NewNamespace)
        (reply : Reply) (after : State) → (accepts : Accepts platform labels free asked reply after)
        → (offset : ℕ) → accepts.done.offset ≤ offset
        → offset < accepts.done.offset + part_length asked accepts.done.region
        → is_common_free platform labels accepts.done.region offset ≡ true }

    // Names that are distinct stay so.
    ensures distinct { (platform : Platform) (labels now : Labels) (free : List Extent) (asked : NewNamespace)
        (reply : Reply) (after : State) → (accepts : Accepts platform labels free asked reply after)
        → IsDisjoint platform → state platform now ≡ after
        → HasDistinctNames labels accepts.done.region → HasDistinctNames now accepts.done.region }

    // The region stays Ready, and the others have the status that they had.
    ensures ready { (platform : Platform) (labels now : Labels) (free : List Extent) (asked : NewNamespace)
        (reply : Reply) (after : State) → (accepts : Accepts platform labels free asked reply after)
        → IsDisjoint platform → state platform now ≡ after → status now accepts.done.region ≡ RegionReady }
    ensures elsewhere { (platform : Platform) (labels now : Labels) (free : List Extent) (asked : NewNamespace)
        (reply : Reply) (after : State) → (accepts : Accepts platform labels free asked reply after)
        → IsDisjoint platform → state platform now ≡ after
        → (other : Region) → Contains platform.regions other → other ≢ accepts.done.region
        → status now other ≡ status labels other }
{}

/// What an initialised area makes of the table.
pub fn initialise_laws()
    // It is Ready, and all its slots are spare where it had no labels before.
    ensures ready { (platform : Platform) (labels : Labels) (dimm slots : ℕ) (reply : Reply) (after : State)
        → IsInitialised platform labels dimm slots reply after → after.table.kind dimm ≡ Ready }
    ensures spares { (platform : Platform) (labels : Labels) (dimm slots : ℕ) (reply : Reply) (after : State)
        → IsInitialised platform labels dimm slots reply after
        → ((slot : ℕ) → (labels dimm).at slot ≡ None) → after.table.spare dimm ≡ slots }

    // It is the state of the labels with that area.
    ensures stands { (platform : Platform) (before after : Labels) (dimm slots : ℕ) → IsDisjoint platform
        → IsBounded before → settling.IsInitialised dimm slots before after
        → state platform after ≡ initialised platform dimm slots (state platform before) }
{}

/// A state is that behind a create where the table has its namespace and the marks of its region are gone.
pub fn made_laws()
    ensures made { (asked : NewNamespace) (region : Region) (offset : ℕ) (before after : State)
        → after.table ≡ (with_namespace region (made asked region offset) before).table
        → ((uuid : List ℕ) → after.pending region.index uuid ≡ false)
        → ((index : ℕ) (uuid : List ℕ) → index ≢ region.index → after.pending index uuid ≡ before.pending index uuid)
        → after ≡ with_made asked region offset before }

    // The spare slots that its reply tells are those of a module of the region, and no module has fewer.
    ensures least { (state : State) (region : Region) (member : Member) → Contains region.members member
        → least_spare state region ≤ state.table.spare member.handle }
    ensures least_is { (state : State) (region : Region) → 0 < length region.members
        → (member : Member) × Contains region.members member
        × (least_spare state region ≡ state.table.spare member.handle) }
{}

/// What there is for each command, and what holds where nothing refuses a create.
pub fn some_step_laws()
    // A create that nothing refuses has a range.
    ensures place { (platform : Platform) (labels : Labels) (free : List Extent) (asked : NewNamespace)
        (region : Region)
        → region_at platform asked.region ≡ Some region
        → AreFreeOf platform labels (region_at platform asked.region) free
        → first_of (create_refusals platform labels free asked) ≡ None
        → (offset : ℕ) × IsFirstFit (is_common_free platform labels region)
        (part_length asked region) alignment offset }

    // Of the labels that have its uuid all are dead.
    ensures fresh { (platform : Platform) (labels : Labels) (free : List Extent) (asked : NewNamespace)
        (region : Region) → IsBounded labels → region_at platform asked.region ≡ Some region
        → first_of (create_refusals platform labels free asked) ≡ None
        → (handle slot : ℕ) (label : Label) → Contains platform.modules handle
        → (labels handle).at slot ≡ Some label → has asked.uuid label ≡ true
        → is_dead platform labels handle label ≡ true }

    // Each command has a step.
    ensures some_step { (platform : Platform) (slots : ℕ → ℕ) (labels : Labels) (change : Change) (own : List ℕ)
        → (reply : Reply) × (after : State) × Does platform slots labels change own reply after }
{}

/// What an accepted destroy makes of the table and of the pending marks.
pub fn destroy_laws()
    // The table changes at the namespace alone: it is gone.
    ensures spaces { (platform : Platform) (labels : Labels) (index : ℕ) (key : NameKey) (reply : Reply)
        (after : State) → (done : IsDestroyed platform labels index key reply after)
        → after.table.space ≡ changed_at done.region done.space.uuid None (table platform labels).space }
    ensures kinds { (platform : Platform) (labels : Labels) (index : ℕ) (key : NameKey) (reply : Reply)
        (after : State) → IsDestroyed platform labels index key reply after
        → after.table.kind ≡ (table platform labels).kind }
    ensures held { (platform : Platform) (labels : Labels) (index : ℕ) (key : NameKey) (reply : Reply)
        (after : State) → IsDestroyed platform labels index key reply after
        → after.table.held ≡ (table platform labels).held }

    // Each module of its region has one spare slot more, and all others have theirs.
    ensures spares { (platform : Platform) (labels : Labels) (index : ℕ) (key : NameKey) (reply : Reply)
        (after : State) → (done : IsDestroyed platform labels index key reply after)
        → (member : Member) → Contains done.region.members member
        → after.table.spare member.handle ≡ spare platform labels member.handle + 1 }
    ensures other_spares { (platform : Platform) (labels : Labels) (index : ℕ) (key : NameKey) (reply : Reply)
        (after : State) → (done : IsDestroyed platform labels index key reply after)
        → (handle : ℕ) → is_member done.region handle ≡ false
        → after.table.spare handle ≡ spare platform labels handle }

    // No namespace of its region is pending, and those of others are as they were.
    ensures marks { (platform : Platform) (labels : Labels) (index : ℕ) (key : NameKey) (reply : Reply)
        (after : State) → (done : IsDestroyed platform labels index key reply after)
        → (uuid : List ℕ) → after.pending done.region.index uuid ≡ false }
    ensures other_marks { (platform : Platform) (labels : Labels) (index : ℕ) (key : NameKey) (reply : Reply)
        (after : State) → (done : IsDestroyed platform labels index key reply after)
        → (other : ℕ) (uuid : List ℕ) → other ≢ done.region.index
        → after.pending other uuid ≡ pending_at platform labels other uuid }
{}

/// What becomes of the offsets that a destroyed namespace had, and of the regions. Other labels that stand for the
/// state behind the destroy are `now`.
pub fn freed_laws()
    ensures gone { (platform : Platform) (labels now : Labels) (index : ℕ) (key : NameKey) (reply : Reply)
        (after : State) → (done : IsDestroyed platform labels index key reply after)
        → IsDisjoint platform → state platform now ≡ after → space now done.region done.space.uuid ≡ None }
    ensures others { (platform : Platform) (labels now : Labels) (index : ℕ) (key : NameKey) (reply : Reply)
        (after : State) → (done : IsDestroyed platform labels index key reply after)
        → IsDisjoint platform → state platform now ≡ after
        → namespaces now done.region ≡ without_uuid done.space.uuid (namespaces labels done.region) }

    ensures distinct { (platform : Platform) (labels now : Labels) (index : ℕ) (key : NameKey) (reply : Reply)
        (after : State) → (done : IsDestroyed platform labels index key reply after)
        → IsDisjoint platform → state platform now ≡ after
        → HasDistinctNames labels done.region → HasDistinctNames now done.region }

    // Those that no label holds are common free, as are those that were.
    ensures freed { (platform : Platform) (labels now : Labels) (index : ℕ) (key : NameKey) (reply : Reply)
        (after : State) → (done : IsDestroyed platform labels index key reply after)
        → IsDisjoint platform → state platform now ≡ after → status labels done.region ≡ RegionReady
        → (offset : ℕ) → has_offset offset done.space ≡ true
        → is_held_at platform labels done.region offset ≡ false
        → is_common_free platform now done.region offset ≡ true }
    ensures stays_free { (platform : Platform) (labels now : Labels) (index : ℕ) (key : NameKey) (reply : Reply)
        (after : State) → (done : IsDestroyed platform labels index key reply after)
        → IsDisjoint platform → state platform now ≡ after
        → (offset : ℕ) → is_common_free platform labels done.region offset ≡ true
        → is_common_free platform now done.region offset ≡ true }

    // The region stays Ready, and the others have the status that they had.
    ensures ready { (platform : Platform) (labels now : Labels) (index : ℕ) (key : NameKey) (reply : Reply)
        (after : State) → (done : IsDestroyed platform labels index key reply after)
        → IsDisjoint platform → state platform now ≡ after → status labels done.region ≡ RegionReady
        → status now done.region ≡ RegionReady }
    ensures elsewhere { (platform : Platform) (labels now : Labels) (index : ℕ) (key : NameKey) (reply : Reply)
        (after : State) → (done : IsDestroyed platform labels index key reply after)
        → IsDisjoint platform → state platform now ≡ after
        → (other : Region) → Contains platform.regions other → other ≢ done.region
        → status now other ≡ status labels other }
{}

/// What an accepted rename makes of the table and of the pending marks.
pub fn rename_laws()
    // The table changes at the namespace alone: it has the name, and all else that it showed.
    ensures spaces { (platform : Platform) (labels : Labels) (index : ℕ) (key : NameKey) (name : List ℕ)
        (reply : Reply) (after : State) → (done : IsRenamed platform labels index key name reply after)
        → after.table.space
        ≡ changed_at done.region done.space.uuid (Some (renamed name done.space)) (table platform labels).space }
    ensures kinds { (platform : Platform) (labels : Labels) (index : ℕ) (key : NameKey) (name : List ℕ)
        (reply : Reply) (after : State) → IsRenamed platform labels index key name reply after
        → after.table.kind ≡ (table platform labels).kind }
    ensures spares { (platform : Platform) (labels : Labels) (index : ℕ) (key : NameKey) (name : List ℕ)
        (reply : Reply) (after : State) → IsRenamed platform labels index key name reply after
        → after.table.spare ≡ (table platform labels).spare }
    ensures held { (platform : Platform) (labels : Labels) (index : ℕ) (key : NameKey) (name : List ℕ)
        (reply : Reply) (after : State) → IsRenamed platform labels index key name reply after
        → after.table.held ≡ (table platform labels).held }

    // No namespace of its region is pending, and those of others are as they were.
    ensures marks { (platform : Platform) (labels : Labels) (index : ℕ) (key : NameKey) (name : List ℕ)
        (reply : Reply) (after : State) → (done : IsRenamed platform labels index key name reply after)
        → (uuid : List ℕ) → after.pending done.region.index uuid ≡ false }
    ensures other_marks { (platform : Platform) (labels : Labels) (index : ℕ) (key : NameKey) (name : List ℕ)
        (reply : Reply) (after : State) → (done : IsRenamed platform labels index key name reply after)
        → (other : ℕ) (uuid : List ℕ) → other ≢ done.region.index
        → after.pending other uuid ≡ pending_at platform labels other uuid }
{}

/// What becomes of names, offsets and regions by a rename. Other labels that stand for the state behind it are `now`.
pub fn name_laws()
    ensures named { (platform : Platform) (labels now : Labels) (index : ℕ) (key : NameKey) (name : List ℕ)
        (reply : Reply) (after : State) → (done : IsRenamed platform labels index key name reply after)
        → IsDisjoint platform → state platform now ≡ after
        → space now done.region done.space.uuid ≡ Some (renamed name done.space) }

    // The name of the one namespace that has it is free for it.
    ensures own_name { (labels : Labels) (region : Region) (name : List ℕ) (own : Space)
        → fitting labels region (Name name) ≡ own ∷ [] → name_taken_in labels (Name name) name region ≡ None }

    // So is the name of each, where names are distinct.
    ensures kept_name { (labels : Labels) (region : Region) (key : NameKey) (own : Space)
        → fitting labels region key ≡ own ∷ [] → HasDistinctNames labels region
        → name_taken_in labels key own.name region ≡ None }

    // Names that are distinct stay so.
    ensures distinct { (platform : Platform) (labels now : Labels) (index : ℕ) (key : NameKey) (name : List ℕ)
        (reply : Reply) (after : State) → (done : IsRenamed platform labels index key name reply after)
        → IsDisjoint platform → state platform now ≡ after
        → first_of (rename_refusals platform labels index key name) ≡ None
        → HasDistinctNames labels done.region → HasDistinctNames now done.region }

    // The free offsets stay, the region stays Ready, and the others have the status that they had.
    ensures free { (platform : Platform) (labels now : Labels) (index : ℕ) (key : NameKey) (name : List ℕ)
        (reply : Reply) (after : State) → (done : IsRenamed platform labels index key name reply after)
        → IsDisjoint platform → state platform now ≡ after
        → (offset : ℕ) → is_common_free platform now done.region offset
        ≡ is_common_free platform labels done.region offset }
    ensures ready { (platform : Platform) (labels now : Labels) (index : ℕ) (key : NameKey) (name : List ℕ)
        (reply : Reply) (after : State) → (done : IsRenamed platform labels index key name reply after)
        → IsDisjoint platform → state platform now ≡ after → status labels done.region ≡ RegionReady
        → status now done.region ≡ RegionReady }
    ensures elsewhere { (platform : Platform) (labels now : Labels) (index : ℕ) (key : NameKey) (name : List ℕ)
        (reply : Reply) (after : State) → (done : IsRenamed platform labels index key name reply after)
        → IsDisjoint platform → state platform now ≡ after
        → (other : Region) → Contains platform.regions other → other ≢ done.region
        → status now other ≡ status labels other }
{}

/// What an accepted release makes of the table. The pending marks stay.
pub fn release_laws()
    // The module holds none of the labels.
    ensures none_left { (platform : Platform) (labels : Labels) (dimm : ℕ) (uuid : List ℕ) (reply : Reply)
        (after : State) → IsReleased platform labels dimm uuid reply after → after.table.held dimm (has uuid) ≡ 0 }

    // Besides them only stale labels are given up, and no module holds more of any kind.
    ensures others_stay { (platform : Platform) (labels : Labels) (dimm : ℕ) (uuid : List ℕ) (reply : Reply)
        (after : State) → IsReleased platform labels dimm uuid reply after → (handle : ℕ) (test : Label → Bool)
        → ((label : Label) → test label ≡ true → is_stale platform handle label ≡ false)
        → (handle ≡ dimm → (label : Label) → test label ≡ true → has uuid label ≡ false)
        → after.table.held handle test ≡ held_count platform labels handle test }
    ensures fewer { (platform : Platform) (labels : Labels) (dimm : ℕ) (uuid : List ℕ) (reply : Reply)
        (after : State) → IsReleased platform labels dimm uuid reply after → (handle : ℕ) (test : Label → Bool)
        → after.table.held handle test ≤ held_count platform labels handle test }

    // The module has a spare slot more for each of them, and no module has fewer.
    ensures spares { (platform : Platform) (labels : Labels) (dimm : ℕ) (uuid : List ℕ) (reply : Reply)
        (after : State) → IsReleased platform labels dimm uuid reply after
        → spare platform labels dimm + held_count platform labels dimm (has uuid) ≤ after.table.spare dimm }
    ensures other_spares { (platform : Platform) (labels : Labels) (dimm : ℕ) (uuid : List ℕ) (reply : Reply)
        (after : State) → IsReleased platform labels dimm uuid reply after
        → (handle : ℕ) → spare platform labels handle ≤ after.table.spare handle }

    ensures spaces { (platform : Platform) (labels : Labels) (dimm : ℕ) (uuid : List ℕ) (reply : Reply)
        (after : State) → IsReleased platform labels dimm uuid reply after
        → after.table.space ≡ (table platform labels).space }
    ensures kinds { (platform : Platform) (labels : Labels) (dimm : ℕ) (uuid : List ℕ) (reply : Reply)
        (after : State) → IsReleased platform labels dimm uuid reply after
        → after.table.kind ≡ (table platform labels).kind }
    ensures marks { (platform : Platform) (labels : Labels) (dimm : ℕ) (uuid : List ℕ) (reply : Reply)
        (after : State) → IsReleased platform labels dimm uuid reply after
        → after.pending ≡ pending_at platform labels }

    // It is the state of the labels without them.
    ensures stands { (platform : Platform) (before after : Labels) (dimm : ℕ) (uuid : List ℕ) → IsDisjoint platform
        → IsBounded before → settling.IsReleased platform dimm uuid before after
        → state platform after ≡ released platform dimm uuid (state platform before) }
{}

/// A state is that behind a destroy or a rename where the table has changed so and the marks of its region are gone.
pub fn changed_laws()
    ensures destroyed { (region : Region) (uuid : List ℕ) (before after : State)
        → after.table ≡ (without_namespace region uuid before).table
        → ((other : List ℕ) → after.pending region.index other ≡ false)
        → ((index : ℕ) (other : List ℕ) → index ≢ region.index
        → after.pending index other ≡ before.pending index other)
        → after ≡ with_destroyed region uuid before }
    ensures renamed { (region : Region) (name : List ℕ) (own : Space) (before after : State)
        → after.table ≡ (with_changed_namespace region (renamed name own) false before).table
        → ((uuid : List ℕ) → after.pending region.index uuid ≡ false)
        → ((index : ℕ) (uuid : List ℕ) → index ≢ region.index
        → after.pending index uuid ≡ before.pending index uuid)
        → after ≡ with_renamed region name own before }
{}

/// What holds where nothing refuses a destroy, a rename or a release.
pub fn unrefused_laws()
    // One namespace fits, and may be changed.
    ensures destroy_one { (platform : Platform) (labels : Labels) (index : ℕ) (key : NameKey) (region : Region)
        → region_at platform index ≡ Some region → first_of (destroy_refusals platform labels index key) ≡ None
        → (own : Space) × IsOneToChange labels region key own }
    ensures rename_one { (platform : Platform) (labels : Labels) (index : ℕ) (key : NameKey) (name : List ℕ)
        (region : Region) → region_at platform index ≡ Some region
        → first_of (rename_refusals platform labels index key name) ≡ None
        → (own : Space) × IsOneToChange labels region key own }

    // Its region is Ready, and each module of it has a spare slot.
    ensures destroy_ready { (platform : Platform) (labels : Labels) (index : ℕ) (key : NameKey) (region : Region)
        → region_at platform index ≡ Some region → first_of (destroy_refusals platform labels index key) ≡ None
        → status labels region ≡ RegionReady }
    ensures rename_ready { (platform : Platform) (labels : Labels) (index : ℕ) (key : NameKey) (name : List ℕ)
        (region : Region) → region_at platform index ≡ Some region
        → first_of (rename_refusals platform labels index key name) ≡ None → status labels region ≡ RegionReady }
    ensures destroy_spares { (platform : Platform) (labels : Labels) (index : ℕ) (key : NameKey) (region : Region)
        → region_at platform index ≡ Some region → first_of (destroy_refusals platform labels index key) ≡ None
        → (member : Member) → Contains region.members member → 1 ≤ spare platform labels member.handle }
    ensures rename_spares { (platform : Platform) (labels : Labels) (index : ℕ) (key : NameKey) (name : List ℕ)
        (region : Region) → region_at platform index ≡ Some region
        → first_of (rename_refusals platform labels index key name) ≡ None
        → (member : Member) → Contains region.members member → 1 ≤ spare platform labels member.handle }

    // The module's area is Ready, and it holds a label with the uuid. None of those is read-only or not of an
    // interleave set, and the areas of all modules of their regions are Ready.
    ensures release { (platform : Platform) (labels : Labels) (dimm : ℕ) (uuid : List ℕ) → IsSound platform
        → first_of (release_refusals platform labels dimm uuid) ≡ None → MayBeReleased platform labels dimm uuid }
{}

/// What a step rests on.
pub fn step_laws()
    // A refused command changes nothing.
    ensures refused { (platform : Platform) (slots : ℕ → ℕ) (before after : State) (change : Change) (own : List ℕ)
        (refusal : Refusal) → IsStep platform slots before change own (Refused refusal) after → after ≡ before }

    // What refuses a create in a region that there is.
    ensures known_region { (platform : Platform) (labels : Labels) (free : List Extent) (asked : NewNamespace)
        (region : Region) → region_at platform asked.region ≡ Some region
        → create_refusals platform labels free asked ≡ known_region_refusals platform labels free asked region }

    // What refuses a destroy or a rename there.
    ensures known_destroy { (platform : Platform) (labels : Labels) (index : ℕ) (key : NameKey) (region : Region)
        → region_at platform index ≡ Some region
        → destroy_refusals platform labels index key ≡ destroy_refusals_in platform labels key region }
    ensures known_rename { (platform : Platform) (labels : Labels) (index : ℕ) (key : NameKey) (name : List ℕ)
        (region : Region) → region_at platform index ≡ Some region
        → rename_refusals platform labels index key name ≡ rename_refusals_in platform labels key name region }

    // Labels that stand for one state have the same refusals and the same step.
    ensures refusals { (platform : Platform) (labels other : Labels) (free : List Extent) (asked : NewNamespace)
        → IsDisjoint platform → state platform other ≡ state platform labels
        → create_refusals platform other free asked ≡ create_refusals platform labels free asked }
    ensures same_destroy { (platform : Platform) (labels other : Labels) (index : ℕ) (key : NameKey)
        → IsDisjoint platform → state platform other ≡ state platform labels
        → destroy_refusals platform other index key ≡ destroy_refusals platform labels index key }
    ensures same_rename { (platform : Platform) (labels other : Labels) (index : ℕ) (key : NameKey) (name : List ℕ)
        → IsDisjoint platform → state platform other ≡ state platform labels
        → rename_refusals platform other index key name ≡ rename_refusals platform labels index key name }
    ensures same_release { (platform : Platform) (labels other : Labels) (dimm : ℕ) (uuid : List ℕ)
        → IsDisjoint platform → state platform other ≡ state platform labels
        → release_refusals platform other dimm uuid ≡ release_refusals platform labels dimm uuid }
    ensures any_labels { (platform : Platform) (slots : ℕ → ℕ) (labels other : Labels) (change : Change)
        (own : List ℕ)
        (reply : Reply) (after : State) → IsDisjoint platform → state platform other ≡ state platform labels
        → Does platform slots labels change own reply after → Does platform slots other change own reply after }

    // So there is one step of a command from a state.
    ensures one_step { (platform : Platform) (slots : ℕ → ℕ) (before after now : State) (change : Change)
        (own : List ℕ)
        (reply told : Reply) → IsDisjoint platform → IsStep platform slots before change own reply after
        → IsStep platform slots before change own told now → (reply ≡ told) × (after ≡ now) }
{}
