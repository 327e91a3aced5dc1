//! What the labels of one uuid tell together.

ghost use Rattle.std.specs.Prelude.{◌≡◌};
ghost use Rattle.region_labels.specs.Marks.{is_of_namespace, one_more, shown_by};

use label_codec::Label;
use label_table::offset_in;
use region_map::Region;
use view_types::Namespace;

/// What the labels of one uuid in the modules of a region tell together, where each module has one.
#[derive(Clone, Copy, Debug, PartialEq, Eq)]
pub(crate) struct Marks {
    /// All have the length of the one at position 0.
    pub(crate) one_size: bool,
    /// One of them is read-only.
    pub(crate) read_only: bool,
    /// One of them is being changed.
    pub(crate) updating: bool,
}

impl Marks {
    /// With one label more. `leading` is that of position 0.
    pub(crate) fn with(self, leading: &Label, label: &Label) -> Marks
        ensures { result ≡ one_more leading.now self label.now }
    {
        Marks {
            one_size: self.one_size & (label.raw_size == leading.raw_size),
            read_only: self.read_only | label.is_read_only(),
            updating: self.updating | label.is_updating(),
        }
    }

    /// The labels are those of a namespace: all have one length, or the leading one is being changed and none is
    /// read-only.
    pub(crate) fn is_of_namespace(self, leading: &Label) -> bool
        ensures { result ≡ is_of_namespace leading.now self }
    {
        self.one_size || (leading.is_updating() && !self.read_only)
    }

    /// The namespace whose leading label this is.
    pub(crate) fn namespace(self, region: &Region, leading: &Label) -> Namespace
        ensures { result ≡ shown_by region.now leading.now self }
    {
        Namespace {
            uuid: leading.uuid,
            name: leading.name,
            abstraction: leading.abstraction,
            sector: leading.lba_size,
            offset: offset_in(region, leading),
            length: leading.raw_size,
            pending: !self.read_only && self.updating,
            read_only: self.read_only,
        }
    }
}
