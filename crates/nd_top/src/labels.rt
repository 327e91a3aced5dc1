//! The form `labels`.

ghost use Rattle.std.specs.Prelude.{◌≡◌, Ok, Err, OnErr, false};
ghost use Rattle.rig_trait.specs.Frames.{FailsAt, IsTold, Reads};
ghost use Rattle.label_area.specs.Faults.{is_load_failed};
ghost use Rattle.label_area.specs.LoadedAreas.{LoadedArea};
ghost use Rattle.nd_top.specs.Labels.{ListsLabels, answer_of, not_ready, state_of, status_of, text_of};
ghost use Rattle.run_edges.specs.Saying.{Says};

use label_area::{Area, AreaFault};
use label_codec::AreaKind;
use report_json::{listing, refusal_line};
use rig_trait::Rig;
use run_edges::{Fault, Status, say, say_fault};
use std::alloc::Global;
use view_types::{AreaState, Refusal};

/// Reads the area of a module, and says the listing of its labels, or why there is none.
pub fn say_labels<R: Rig>(alloc: Global, rig: &mut R, dimm: u32) -> u8
    ensures { ListsLabels R.Shown dimm rig.old rig.new result }
{
    match Area::load(alloc, rig, dimm) {
        Ok(area) => match listing(alloc, &area) {
            Ok(text) => say(rig, &text, Status::Ok),
            Err(_) => say_fault(rig, Fault::Memory),
        },
        Err(fault) => say_unlisted(rig, dimm, fault),
    }
}

/// Says why the labels of a module are not listed.
fn say_unlisted<R: Rig>(rig: &mut R, dimm: u32, fault: AreaFault) -> u8
    ensures { Says R.Shown rig.old rig.new (text_of dimm (answer_of dimm fault))
        (status_of (answer_of dimm fault)) result }
{
    let kind = match fault {
        AreaFault::Missing => AreaKind::Missing,
        AreaFault::WrongSize { .. } => AreaKind::WrongSize,
        AreaFault::Uninit { .. } => AreaKind::Uninit,
        AreaFault::Foreign { .. } => AreaKind::Foreign,
        AreaFault::Failed => return say_fault(rig, Fault::Area { dimm }),
        AreaFault::Memory => return say_fault(rig, Fault::Memory),
    };
    say(
        rig,
        refusal_line(not_ready(dimm, kind)).as_bytes(),
        Status::Refused,
    )
}

/// Why what needs a Ready area is not done with one of this kind.
fn not_ready(dimm: u32, kind: AreaKind) -> Refusal
    ensures { result ≡ not_ready dimm kind }
{
    Refusal::NotReady {
        status: view_types::Status::Area {
            dimm,
            state: state_of(kind),
        },
    }
}

/// The state of an area of a kind. Nothing is told of the slots of a Ready one.
fn state_of(kind: AreaKind) -> AreaState
    ensures { result ≡ state_of kind }
{
    match kind {
        AreaKind::Missing => AreaState::Missing,
        AreaKind::WrongSize => AreaState::WrongSize,
        AreaKind::Uninit => AreaState::Uninit,
        AreaKind::Foreign => AreaState::Foreign,
        AreaKind::Ready => AreaState::Ready { slots: 0, spare: 0 },
    }
}
