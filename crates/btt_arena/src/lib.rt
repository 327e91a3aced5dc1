//! Sectors that a stop leaves old or new, kept in the bytes of a namespace by the structures of a block translation
//! table; and the media that holds the bytes, as a trait with a form in memory.
#![tactic(auto)]

mod completing;
mod formats;
mod halves;
mod info;
mod kept_writes;
mod lanes;
mod layout;
mod media;
mod memory;
mod opening;
mod sectors;
mod single_words;
mod state;
mod turns;
mod writing;

pub use formats::{FormatFault, format};
pub use layout::{Layout, is_size};
pub use media::Media;
pub use memory::MemoryMedia;
pub use opening::{Arena, ArenaFault};
pub use state::MediaState;

#[cfg(test)]
mod tests {
    use super::{Arena, FormatFault, MemoryMedia, format};
    use std::test::Fail;

    #[test]
    fn formats_once(rt: HostRuntime) -> Result<(), Fail> {
        let bytes = vec![in rt.alloc(); 0; 16_777_216]?;
        let mut media = MemoryMedia::new(rt.alloc(), bytes);
        assert_eq!(rt; format(&mut media, 512, &[7; 16]), Ok(32_202));
        assert_eq!(rt;
            format(&mut media, 512, &[7; 16]),
            Err(FormatFault::Already)
        );
        let opened = Arena::open(&mut media);
        assert!(rt;
            matches!(opened, Ok(arena) if arena.blocks() == 32_202 && arena.sector() == 512)
        );
        Ok(())
    }
}
