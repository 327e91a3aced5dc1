//! Why the parts of a region cannot be translated.

ghost use Rattle.std.specs.Prelude.{◌≡◌, ◌*◌, ◌%◌, ◌==◌, length, not};
ghost use Rattle.spa_translate.specs.Faults.{has_none, is_other, lines_differ, offset_not_line, ragged, shapes_differ};

use crate::strand::Strand;
use view_types::TranslateFault;

/// Why a region gives no weave.
#[derive(Clone, Copy, Debug, PartialEq, Eq)]
pub enum CheckFault {
    /// Its addresses cannot be translated.
    Fault(TranslateFault),
    /// Memory is wanting.
    Memory,
}

/// Two parts differ in the number or the size of their lines, or one of these is 0.
pub(crate) fn lines_differ(strands: &[Strand]) -> bool
    ensures { result ≡ lines_differ strands.now }
{
    shapes_differ(strands) || has_none(strands)
}

/// Two parts differ in the number or the size of their lines.
fn shapes_differ(strands: &[Strand]) -> bool
    ensures { result ≡ shapes_differ strands.now }
{
    strands.iter().any(|a| is_other(strands, a))
}

fn is_other(strands: &[Strand], a: &Strand) -> bool
    ensures { result ≡ is_other strands.now a.now }
{
    strands.iter().any(|b| b.lines.len() != a.lines.len() || b.line_size != a.line_size)
}

fn has_none(strands: &[Strand]) -> bool
    ensures { result ≡ has_none strands.now }
{
    strands
        .iter()
        .any(|a| a.lines.len() == 0 || a.line_size == 0)
}

/// The offset of a part is no multiple of the line size.
pub(crate) fn offset_not_line(strands: &[Strand]) -> bool
    ensures { result ≡ offset_not_line strands.now }
{
    strands.iter().any(|a| has_offset_within_line(a))
}

/// The size of a part is no multiple of its lines.
pub(crate) fn ragged(strands: &[Strand]) -> bool
    ensures { result ≡ ragged strands.now }
{
    strands.iter().any(|a| is_ragged(a))
}

fn has_offset_within_line(a: &Strand) -> bool
    ensures { result ≡ not (a.now.offset % a.now.line_size == 0) }
{
    !is_multiple(a.offset, u64::from(a.line_size))
}

fn is_ragged(a: &Strand) -> bool
    ensures { result ≡ not (a.now.size % (length a.now.lines * a.now.line_size) == 0) }
{
    let lines = a.lines.len() as u64;
    let size = u64::from(a.line_size);
    match lines.checked_mul(size) {
        Some(period) => !is_multiple(a.size, period),
        None => a.size > 0,
    }
}

/// The number is a multiple of another, of 0 where it is 0.
fn is_multiple(number: u64, of: u64) -> bool
    ensures { result ≡ (number % of == 0) }
{
    match number.checked_rem(of) {
        Some(rest) => rest == 0,
        None => number == 0,
    }
}
