//! The words for values of which there are few.

ghost use Rattle.std.specs.Prelude.{◌≡◌, ◌≤◌, length};
ghost use Rattle.report_json.specs.Words.{mode_word, rule_word, state_word};

use view_types::{AreaState, Mode, Rule};

/// The mode of a namespace with an address abstraction.
pub fn mode_word(abstraction: &[u8; 16]) -> &'static str
    ensures word { result.now ≡ mode_word abstraction.now }
    ensures short { length result.now ≤ 6 }
{
    if *abstraction == Mode::Raw.abstraction() {
        "raw"
    } else if *abstraction == Mode::Sector.abstraction() {
        "sector"
    } else if *abstraction == Mode::Fsdax.abstraction() {
        "fsdax"
    } else if *abstraction == Mode::Devdax.abstraction() {
        "devdax"
    } else {
        "other"
    }
}

/// The state of an area.
pub fn state_word(state: AreaState) -> &'static str
    ensures word { result.now ≡ state_word state }
    ensures short { length result.now ≤ 20 }
{
    match state {
        AreaState::Missing => "missing",
        AreaState::WrongSize => "wrong-size",
        AreaState::Uninit => "uninit",
        AreaState::Foreign => "foreign",
        AreaState::Ready { .. } => "ready",
    }
}

/// Why a region cannot be used.
pub fn rule_word(rule: Rule) -> &'static str
    ensures word { result.now ≡ rule_word rule }
    ensures short { length result.now ≤ 20 }
{
    match rule {
        Rule::NoMapping => "no-mapping",
        Rule::TooManyWays => "too-many-ways",
        Rule::Empty => "empty",
        Rule::SizesDiffer => "sizes-differ",
        Rule::CapacityDiffers => "capacity-differs",
        Rule::Overflow => "overflow",
        Rule::ModuleTwice => "module-twice",
        Rule::OffsetTwice => "offset-twice",
        Rule::NoControl => "no-control",
        Rule::DpaOverlap => "dpa-overlap",
    }
}
