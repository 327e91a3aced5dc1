//! The lines of the faults that end a run. They take no memory.

ghost use Rattle.std.specs.Prelude.{◌≡◌, ◌≤◌, ◌++◌, codes, length};
ghost use Rattle.run_edges.specs.Texts.{fault_line, nfit_fault_text, source_name};

use crate::faults::{Fault, SourceName};
use nfit_tables::NfitFault;
use report_json::ShortText;

/// The line of a fault that ended a run.
pub fn fault_line(fault: Fault) -> ShortText
    ensures { result ≡ fault_line fault }
{
    let mut text = ShortText::new();
    match fault {
        Fault::Words => text.push_str("error words"),
        Fault::Nfit(fault) => {
            text.push_str("error nfit ");
            text.push_text(&nfit_fault_text(fault));
        }
        Fault::Area { dimm } => text.push_handle("error area dimm=", dimm),
        Fault::Source(source) => {
            text.push_str("error source ");
            text.push_str(source_name(source));
        }
        Fault::Limit(source) => {
            text.push_str("error limit ");
            text.push_str(source_name(source));
        }
        Fault::Memory => text.push_str("error memory"),
    }
    text.push_str("\n");
    text
}

/// Why bytes are no NFIT.
fn nfit_fault_text(fault: NfitFault) -> ShortText
    ensures text { result ≡ nfit_fault_text fault }
    ensures short { length result ≤ 100 }
{
    let mut text = ShortText::new();
    match fault {
        NfitFault::Short { len } => text.push_decimal("short length=", len),
        NfitFault::Signature => text.push_str("signature"),
        NfitFault::Length { told, len } => {
            text.push_decimal("length told=", u64::from(told));
            text.push_decimal(" length=", len);
        }
        NfitFault::Revision { value } => text.push_decimal("revision value=", u64::from(value)),
        NfitFault::Checksum { sum } => text.push_decimal("checksum sum=", u64::from(sum)),
        NfitFault::Structure { at } => text.push_decimal("structure at=", u64::from(at)),
        NfitFault::TwiceIndex { kind, index } => {
            text.push_decimal("twice-index kind=", u64::from(kind));
            text.push_decimal(" index=", u64::from(index));
        }
        NfitFault::TooMany { kind } => text.push_decimal("too-many kind=", u64::from(kind)),
    }
    text
}

fn source_name(source: SourceName) -> &'static str
    ensures { result.now ≡ source_name source }
{
    match source {
        SourceName::Nfit => "nfit",
        SourceName::Input => "input",
    }
}
