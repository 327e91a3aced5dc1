//! What is read from sources: the platform of an NFIT, and the bytes of an input.

ghost use Rattle.std.specs.Prelude.{IfErr, IfOk};
ghost use Rattle.run_edges.specs.Sources.{HasBytes, HasNoBytes, HasNoPlatform, HasPlatform};

use crate::faults::{Fault, SourceName};
use nfit_tables::{MOST_BYTES, read_nfit};
use region_map::Platform;
use rig_trait::{Failed, Source};
use std::alloc::Global;

/// The most bytes that are read of an NFIT, and of a list of lines.
pub const MOST_READ: usize = MOST_BYTES as usize;

/// How many bytes are asked for at once.
const CHUNK: usize = 4096;

/// The platform of the NFIT that all bytes of a source are, of which there may be 1,048,576.
pub fn read_platform<N: Source>(alloc: Global, source: &mut N) -> Result<Platform, Fault>
    ensures platform { IfOk result (HasPlatform N.Source source.old source.new) }
    ensures fault { IfErr result (HasNoPlatform N.Source source.old source.new) }
{
    let bytes = read_all(alloc, source, SourceName::Nfit, MOST_READ)?;
    let table = read_nfit(alloc, &bytes)?;
    Ok(Platform::of(alloc, &table)?)
}

/// All bytes of a source, of which there may be `most`. The fault names the source so.
pub fn read_all<N: Source>(
    alloc: Global,
    source: &mut N,
    name: SourceName,
    most: usize,
) -> Result<Vec<u8>, Fault>
    ensures bytes { IfOk result (λ bytes. HasBytes N.Source most source.old source.new bytes.items) }
    ensures fault { IfErr result (HasNoBytes N.Source name most source.old source.new) }
{
    let mut bytes = Vec::new(alloc);
    let mut chunk = [0; CHUNK];
    // Each turn takes a byte at least, or is the last.
    for _ in 0..=most {
        let count = match source.read(&mut chunk) {
            Ok(count) => count,
            Err(Failed) => return Err(Fault::Source(name)),
        };
        if count == 0 {
            return Ok(bytes);
        }
        if count > most - bytes.len() {
            return Err(Fault::Limit(name));
        }
        bytes.extend_from_slice(&chunk[..count])?;
    }
    unreachable!()
}
