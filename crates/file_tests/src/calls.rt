//! Reads of the areas of any rig.

use rig_trait::{Failed, Rig};

/// Reads an area whose size is that of `into`, and says whether there is one.
pub(crate) fn read_whole<R: Rig>(rig: &mut R, dimm: u32, into: &mut [u8]) -> Result<bool, Failed> {
    match rig.size(dimm)? {
        Some(size) if size == into.len() as u64 => {
            rig.read(dimm, 0, into)?;
            Ok(true)
        }
        _ => Ok(false),
    }
}
