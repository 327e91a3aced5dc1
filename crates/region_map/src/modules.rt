//! The modules of a platform.

ghost use Rattle.std.specs.Prelude.{◌≡◌, IfOk};
ghost use Rattle.std.specs.List.{filter_map};
ghost use Rattle.nfit_tables.specs.Proper.{handle_of};
ghost use Rattle.region_map.specs.Platforms.{AreModules};

use nfit_tables::Piece;
use std::alloc::{AllocError, Global};
use view_types::List;

/// The device handles of all mappings, ascending and each once.
pub(crate) fn modules(alloc: Global, pieces: &[Piece]) -> Result<List<u32>, AllocError>
    ensures { IfOk result (λ modules. AreModules pieces.now modules) }
{
    let mut modules = handles(alloc, pieces)?;
    modules.sort_unstable();
    modules.dedup();
    Ok(List::from_vec(modules))
}

/// The device handles of all mappings.
fn handles(alloc: Global, pieces: &[Piece]) -> Result<Vec<u32>, AllocError>
    ensures { IfOk result (λ handles. handles.items ≡ filter_map handle_of pieces.now) }
{
    pieces
        .iter()
        .filter_map(|piece| handle_of(piece))
        .collect(alloc)
}

fn handle_of(piece: &Piece) -> Option<u32>
    ensures { result ≡ handle_of piece.now }
{
    match piece {
        Piece::Mapping(p) => Some(p.device_handle),
        _ => None,
    }
}
