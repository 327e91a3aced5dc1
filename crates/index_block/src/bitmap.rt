//! The free bits of slots.

ghost use Rattle.std.specs.Prelude.{◌≡◌, ◌≢◌, ℕ, ◌<◌, ◌≤◌, ◌*◌, true, false, length, IfSome, IfNone};
ghost use Rattle.index_block.specs.Bitmap.{is_free_in, NoneFree, IsFirstFree, free_count};

/// Whether a bitmap marks a slot as free.
pub fn is_free(map: &[u8], slot: u32) -> bool
    requires { slot < 8 * length map.now }
    ensures { result ≡ is_free_in map.now slot }
{
    let byte = map[(slot / 8) as usize];
    byte >> (slot % 8) & 1 == 1
}

/// Marks a slot as free.
pub fn set_free(map: &mut [u8], slot: u32)
    requires { slot < 8 * length map.old }
    ensures free { is_free_in map.new slot ≡ true }
    ensures others { (n : ℕ) → n ≢ slot → is_free_in map.new n ≡ is_free_in map.old n }
    ensures len { length map.new ≡ length map.old }
{
    map[(slot / 8) as usize] |= 1 << (slot % 8);
}

/// Marks a slot as used.
pub fn set_used(map: &mut [u8], slot: u32)
    requires { slot < 8 * length map.old }
    ensures used { is_free_in map.new slot ≡ false }
    ensures others { (n : ℕ) → n ≢ slot → is_free_in map.new n ≡ is_free_in map.old n }
    ensures len { length map.new ≡ length map.old }
{
    map[(slot / 8) as usize] &= !(1 << (slot % 8));
}

/// The first free one of `slots` slots, or `None` where none is free.
pub fn first_free(map: &[u8], slots: u32) -> Option<u32>
    requires { slots ≤ 8 * length map.now }
    ensures first { IfSome result (IsFirstFree map.now slots) }
    ensures none { IfNone result (NoneFree map.now slots) }
{
    for slot in 0..slots {
        if is_free(map, slot) {
            return Some(slot);
        }
    }
    None
}

/// How many of `slots` slots are free.
pub fn count_free(map: &[u8], slots: u32) -> u32
    requires { slots ≤ 8 * length map.now }
    ensures { result ≡ free_count map.now slots }
{
    let mut count = 0;
    for slot in 0..slots {
        count += u32::from(is_free(map, slot));
    }
    count
}
