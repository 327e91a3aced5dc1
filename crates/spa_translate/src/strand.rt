//! The members' parts of a region, in lines.

ghost use Rattle.std.specs.Prelude.{◌≡◌, ◌==◌, find, IfOk, is_none, map, option_map};
ghost use Rattle.std.specs.Option.{option_copied};
ghost use Rattle.std.specs.List.{list_any};
ghost use Rattle.spa_translate.specs.Woven.{linear_strand, strand_with};
ghost use Rattle.spa_translate.specs.Faults.{has_too_many, is_linear, no_interleave, strands_of, table_named};
ghost use Rattle.spa_translate.specs.Faults.{too_many_lines, ways_differ};

use region_map::{LineTable, Member};
use std::alloc::{AllocError, Global};
use view_types::List;

/// The most lines that an interleave structure has where addresses are translated.
pub(crate) const MOST_LINES: usize = 4096;

/// A member's part of a region: its bytes in lines, which stand in turn with those of the other members.
#[derive(Drop)]
pub struct Strand {
    /// The device handle of the module.
    pub handle: u32,
    /// The lowest device physical address (DPA) of the part.
    pub base: u64,
    /// How many bytes of the module belong to the region.
    pub size: u64,
    /// The offset of the part in the region, in bytes.
    pub offset: u64,
    /// The size of a line in bytes.
    pub line_size: u32,
    /// The offset of each line of a period, in lines.
    pub lines: List<u32>,
}

/// One member, without an interleave structure.
pub(crate) fn is_linear(members: &[Member]) -> bool
    ensures { result ≡ is_linear members.now }
{
    members.len() == 1 && has_no_index(members)
}

/// A member's interleave index is 0.
fn has_no_index(members: &[Member]) -> bool
    ensures { result ≡ list_any (λ m. m.interleave == 0) members.now }
{
    members.iter().any(|m| m.interleave == 0)
}

/// The line table with an index.
fn table_at(tables: &[LineTable], index: u16) -> Option<&LineTable>
    ensures { option_copied result ≡ find (λ table. table.index == index) tables.now }
{
    tables.iter().find(|table| table.index == index)
}

/// The interleave structure that a member names.
fn table_named<'a>(tables: &'a [LineTable], member: &Member) -> Option<&'a LineTable>
    ensures { option_copied result ≡ table_named tables.now member.now }
{
    if member.interleave == 0 {
        None
    } else {
        table_at(tables, member.interleave)
    }
}

/// A member names no interleave structure.
pub(crate) fn no_interleave(tables: &[LineTable], members: &[Member]) -> bool
    ensures { result ≡ no_interleave tables.now members.now }
{
    members.iter().any(|m| names_none(tables, m))
}

fn names_none(tables: &[LineTable], member: &Member) -> bool
    ensures { result ≡ is_none (table_named tables.now member.now) }
{
    table_named(tables, member).is_none()
}

/// A structure that a member names has more than `MOST_LINES` lines.
pub(crate) fn too_many_lines(tables: &[LineTable], members: &[Member]) -> bool
    ensures { result ≡ too_many_lines tables.now members.now }
{
    members.iter().any(|m| has_too_many(tables, m))
}

fn has_too_many(tables: &[LineTable], member: &Member) -> bool
    ensures { result ≡ has_too_many (table_named tables.now member.now) }
{
    match table_named(tables, member) {
        Some(table) => table.lines.len() > MOST_LINES,
        None => false,
    }
}

/// A member tells another number of ways than there are members.
pub(crate) fn ways_differ(members: &[Member]) -> bool
    ensures { result ≡ ways_differ members.now }
{
    let count = members.len();
    members.iter().any(|m| usize::from(m.ways) != count)
}

/// The members' parts in the lines of the structures that they name.
pub(crate) fn strands_of(
    alloc: Global,
    tables: &[LineTable],
    members: &[Member],
) -> Result<Vec<Strand>, AllocError>
    ensures { IfOk result (λ strands. strands.items ≡ strands_of tables.now members.now) }
{
    let mut strands = Vec::new(alloc);
    for member in members {
        if let Some(strand) = strand_of(alloc, tables, member)? {
            strands.push(strand)?;
        }
    }
    Ok(strands)
}

fn strand_of(
    alloc: Global,
    tables: &[LineTable],
    member: &Member,
) -> Result<Option<Strand>, AllocError>
    ensures { IfOk result
        (λ strand. strand ≡ option_map (strand_with member.now) (table_named tables.now member.now)) }
{
    match table_named(tables, member) {
        Some(table) => Ok(Some(strand_with(alloc, member, table)?)),
        None => Ok(None),
    }
}

/// The part of a member in lines of a table.
fn strand_with(alloc: Global, member: &Member, table: &LineTable) -> Result<Strand, AllocError>
    ensures { IfOk result (λ strand. strand ≡ strand_with member.now table.now) }
{
    Ok(Strand {
        handle: member.handle,
        base: member.dpa_base,
        size: member.size,
        offset: member.region_offset,
        line_size: table.size,
        lines: List::from_vec(Vec::from_slice(alloc, table.lines.as_slice())?),
    })
}

/// The parts of a region without interleave structures.
pub(crate) fn linear_strands(alloc: Global, members: &[Member]) -> Result<Vec<Strand>, AllocError>
    ensures { IfOk result (λ strands. strands.items ≡ map linear_strand members.now) }
{
    let mut strands = Vec::new(alloc);
    for member in members {
        strands.push(linear_strand(alloc, member)?)?;
    }
    Ok(strands)
}

fn linear_strand(alloc: Global, member: &Member) -> Result<Strand, AllocError>
    ensures { IfOk result (λ strand. strand ≡ linear_strand member.now) }
{
    Ok(Strand {
        handle: member.handle,
        base: member.dpa_base,
        size: member.size,
        offset: 0,
        line_size: 1,
        lines: List::from_vec(Vec::from_slice(alloc, &[0])?),
    })
}
