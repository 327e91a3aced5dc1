//! The texts of statuses, faults and refusals.

ghost use Rattle.std.specs.Prelude.{◌≡◌, ◌+◌, ◌≤◌, ◌++◌, length};
ghost use Rattle.view_types.specs.Keys.{text_of};
ghost use Rattle.report_json.specs.Refusals.{refusal_line, refusal_text, status_text};
ghost use Rattle.report_json.specs.Refusals.{translate_fault_text, word_fault_text};

use crate::buffer::ShortText;
use crate::words::{rule_word, state_word};
use view_types::{Key, Refusal, Status, TranslateFault, WordFault};

/// The line that says why a command is refused.
pub fn refusal_line(refusal: Refusal) -> ShortText
    ensures { result ≡ refusal_line refusal }
{
    let mut text = ShortText::new();
    text.push_str("refused ");
    text.push_text(&refusal_text(refusal));
    text.push_str("\n");
    text
}

fn refusal_text(refusal: Refusal) -> ShortText
    ensures text { result ≡ refusal_text refusal }
    ensures short { length result ≤ 120 }
{
    let mut text = ShortText::new();
    match refusal {
        Refusal::Words(fault) => {
            text.push_str("words ");
            text.push_text(&word_fault_text(fault));
        }
        Refusal::UnknownRegion { region } => {
            text.push_decimal("unknown-region region=", u64::from(region));
        }
        Refusal::UnknownDimm { dimm } => text.push_handle("unknown-dimm dimm=", dimm),
        Refusal::Unusable { rule } => {
            text.push_str("unusable rule=");
            text.push_str(rule_word(rule));
        }
        Refusal::NotReady { status } => {
            text.push_str("not-ready ");
            text.push_text(&status_text(status));
        }
        Refusal::Unhealed { dimm } => text.push_handle("unhealed dimm=", dimm),
        Refusal::UnknownNamespace => text.push_str("unknown-namespace"),
        Refusal::Ambiguous { count } => text.push_decimal("ambiguous count=", u64::from(count)),
        Refusal::ReadOnly { uuid } => text.push_uuid("read-only uuid=", &uuid),
        Refusal::BadSize { unit } => text.push_decimal("bad-size unit=", unit),
        Refusal::NameInUse { uuid } => text.push_uuid("name-in-use uuid=", &uuid),
        Refusal::UuidInUse { dimm } => text.push_handle("uuid-in-use dimm=", dimm),
        Refusal::NoSpace { largest } => text.push_decimal("no-space largest=", largest),
        Refusal::NoSlots { dimm, spare } => {
            text.push_handle("no-slots dimm=", dimm);
            text.push_decimal(" spare=", u64::from(spare));
        }
        Refusal::NotHeld => text.push_str("not-held"),
        Refusal::AlreadyReady { dimm } => text.push_handle("already-ready dimm=", dimm),
        Refusal::NoTranslation { fault } => {
            text.push_str("no-translation ");
            text.push_text(&translate_fault_text(fault));
        }
        Refusal::Outside => text.push_str("outside"),
        Refusal::NotInRegion { dimm } => text.push_handle("not-in-region dimm=", dimm),
    }
    text
}

/// The status of a region, or why it or an area is not ready.
pub fn status_text(status: Status) -> ShortText
    ensures text { result ≡ status_text status }
    ensures short { length result ≤ 100 }
{
    let mut text = ShortText::new();
    match status {
        Status::Unusable(rule) => {
            text.push_str("unusable rule=");
            text.push_str(rule_word(rule));
        }
        Status::Area { dimm, state } => {
            text.push_str(state_word(state));
            text.push_handle(" dimm=", dimm);
        }
        Status::Clash { first, second } => {
            text.push_uuid("clash first=", &first);
            text.push_uuid(" second=", &second);
        }
        Status::Ready => text.push_str("ready"),
    }
    text
}

/// The first fault of a line.
fn word_fault_text(fault: WordFault) -> ShortText
    ensures text { result ≡ word_fault_text fault }
    ensures short { length result ≤ 40 }
{
    let mut text = ShortText::new();
    match fault {
        WordFault::TooLong => text.push_str("too-long"),
        WordFault::Byte { at } => text.push_decimal("byte at=", u64::from(at)),
        WordFault::Unknown => text.push_str("unknown"),
        WordFault::Key { piece } => text.push_decimal("key piece=", u64::from(piece)),
        WordFault::Twice { key } => push_key(&mut text, "twice key=", key),
        WordFault::Missing { key } => push_key(&mut text, "missing key=", key),
        WordFault::Value { key } => push_key(&mut text, "value key=", key),
    }
    text
}

/// Appends a label and a key.
fn push_key(text: &mut ShortText, label: &str, key: Key)
    requires { length text.old + length label.now + 20 ≤ 512 }
    ensures text { text.new ≡ text.old ++ label.now ++ text_of key }
    ensures long { length text.new ≤ length text.old + length label.now + 20 }
{
    text.push_str(label);
    text.push_str(key.text());
}

/// Why addresses cannot be translated.
fn translate_fault_text(fault: TranslateFault) -> ShortText
    ensures text { result ≡ translate_fault_text fault }
    ensures short { length result ≤ 60 }
{
    let mut text = ShortText::new();
    match fault {
        TranslateFault::NoInterleave => text.push_str("no-interleave"),
        TranslateFault::TooManyLines => text.push_str("too-many-lines"),
        TranslateFault::WaysDiffer => text.push_str("ways-differ"),
        TranslateFault::LinesDiffer => text.push_str("lines-differ"),
        TranslateFault::OffsetNotLine => text.push_str("offset-not-line"),
        TranslateFault::Ragged => text.push_str("ragged"),
        TranslateFault::NotPartition { line } => {
            text.push_decimal("not-partition line=", u64::from(line));
        }
    }
    text
}
