//! Replies with values that no command gives.

use report_json::{refusal_line, reply_text, text_laws};
use std::test::Fail;
use view_types::{List, Listed, Namespace, Refusal, Reply, Rule, Status};

/// Statuses that no refusal carries, and how they would be told.
const STATUSES: [(Status, &str); 2] = [
    (Status::Ready, "refused not-ready ready\n"),
    (
        Status::Unusable(Rule::Empty),
        "refused not-ready unusable rule=empty\n",
    ),
];

#[test]
fn statuses(rt: HostRuntime) {
    for (status, text) in STATUSES {
        assert_eq!(rt;
            refusal_line(Refusal::NotReady { status }).as_bytes(),
            text.as_bytes()
        );
    }
    text_laws();
}

/// A namespace whose size does not fit 64 bits.
const TOO_LARGE: Listed = Listed {
    region: 65535,
    ways: 16,
    space: Namespace {
        uuid: [0x0f; 16],
        name: [0xe9; 64],
        abstraction: [1; 16],
        sector: 4096,
        offset: 2_097_152,
        length: u64::MAX,
        pending: true,
        read_only: true,
    },
};

#[test]
fn sizes(rt: HostRuntime) -> Result<(), Fail> {
    let listed = Vec::from_array(rt.alloc(), [TOO_LARGE])?;
    let said = reply_text(rt.alloc(), &Reply::Namespaces(List::from_vec(listed)))?;
    let end =
        b"mode=other sector=4096 offset=2097152 length=18446744073709551615 size=18446744073709551615 \
        pending=yes read-only=yes\nok namespaces=1\n";
    assert!(rt; said.as_slice().ends_with(end));
    Ok(())
}

/// A name of 64 bytes, of which some are printed by their numbers, and the last address of 64 bits.
#[test]
fn names_and_addresses(rt: HostRuntime) -> Result<(), Fail> {
    let mut name = [b'x'; 64];
    name[..4].copy_from_slice(b"%\" \xe9");
    let uuid = [0x0f; 16];
    let said = reply_text(rt.alloc(), &Reply::Renamed { uuid, name })?;
    let text = "ok renamed uuid=0f0f0f0f-0f0f-0f0f-0f0f-0f0f0f0f0f0f \
        name=%25%22%20%E9xxxxxxxxxxxxxxxxxxxxxxxxxxxxxxxxxxxxxxxxxxxxxxxxxxxxxxxxxxxx\n";
    assert_eq!(rt; said.as_slice(), text.as_bytes());
    let said = reply_text(rt.alloc(), &Reply::Spa { spa: u64::MAX })?;
    assert_eq!(rt; said.as_slice(), b"ok spa=0xffffffffffffffff\n".as_slice());
    Ok(())
}
