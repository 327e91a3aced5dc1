//! The lines of lists, one for each item.

ghost use Rattle.std.specs.Prelude.{◌≡◌, ◌≤◌, length};
ghost use Rattle.report_json.specs.Lines.{members_text};

use crate::buffer::ShortText;
use crate::refusals::status_text;
use crate::words::mode_word;
use view_types::{Extent, Held, Listed, RegionView, Run, Status};

/// An item that is printed on a line.
pub trait Line {
    ghost use Rattle.std.specs.Prelude.{ℕ, List};

    ghost line_text: { Self → List ℕ };

    /// The line, with its end.
    fn line(&self) -> ShortText
        ensures { result ≡ line_text self.now };
}

impl Line for Listed {
    ghost use Rattle.report_json.specs.Lines.{namespace_line};

    ghost line_text = { namespace_line };

    fn line(&self) -> ShortText {
        let space = &self.space;
        let size = u64::from(self.ways).saturating_mul(space.length);
        let mut text = ShortText::new();
        text.push_uuid("  namespace uuid=", &space.uuid);
        text.push_name(" name=", &space.name);
        text.push_decimal(" region=", u64::from(self.region));
        text.push_str(" mode=");
        text.push_str(mode_word(&space.abstraction));
        text.push_decimal(" sector=", space.sector);
        text.push_decimal(" offset=", space.offset);
        text.push_decimal(" length=", space.length);
        text.push_decimal(" size=", size);
        text.push_flag(" pending=", space.pending);
        text.push_flag(" read-only=", space.read_only);
        text.push_str("\n");
        text
    }
}

impl Line for RegionView {
    ghost use Rattle.report_json.specs.Lines.{region_line};

    ghost line_text = { region_line };

    fn line(&self) -> ShortText {
        let mut text = ShortText::new();
        text.push_decimal("  region index=", u64::from(self.index));
        text.push_address(" spa=", self.spa);
        text.push_decimal(" size=", self.length);
        text.push_text(&members_text(self.status, self.ways, self.cookie));
        text.push_str(" status=");
        text.push_text(&status_text(self.status));
        text.push_str("\n");
        text
    }
}

impl Line for Extent {
    ghost use Rattle.report_json.specs.Lines.{free_line};

    ghost line_text = { free_line };

    fn line(&self) -> ShortText {
        let mut text = ShortText::new();
        text.push_decimal("  free offset=", self.start);
        text.push_decimal(" length=", self.len);
        text.push_str("\n");
        text
    }
}

impl Line for Held {
    ghost use Rattle.report_json.specs.Lines.{held_line};

    ghost line_text = { held_line };

    fn line(&self) -> ShortText {
        let mut text = ShortText::new();
        text.push_uuid("  held uuid=", &self.uuid);
        text.push_address(" dpa=", self.dpa);
        text.push_decimal(" size=", self.size);
        text.push_flag(" local=", self.local);
        text.push_flag(" read-only=", self.read_only);
        text.push_flag(" updating=", self.updating);
        text.push_str("\n");
        text
    }
}

impl Line for Run {
    ghost use Rattle.report_json.specs.Lines.{run_line};

    ghost line_text = { run_line };

    fn line(&self) -> ShortText {
        let mut text = ShortText::new();
        text.push_handle("  run dimm=", self.dimm);
        text.push_address(" dpa=", self.dpa);
        text.push_decimal(" length=", self.length);
        text.push_str("\n");
        text
    }
}

/// The number of members and the cookie, which a region has that can be used.
fn members_text(status: Status, ways: u16, cookie: u64) -> ShortText
    ensures text { result ≡ members_text status ways cookie }
    ensures short { length result ≤ 60 }
{
    let mut text = ShortText::new();
    match status {
        Status::Unusable(_) => {}
        Status::Area { .. } | Status::Clash { .. } | Status::Ready => {
            text.push_decimal(" ways=", u64::from(ways));
            text.push_address(" cookie=", cookie);
        }
    }
    text
}
