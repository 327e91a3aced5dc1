use byte_ranges::{
    array_at, push_u16, push_u32, push_u64, put_u16, put_u32, put_u64, u16_at, u32_at, u64_at,
};
use std::test::Fail;

/// Numbers as they are appended, read, and written over others.
#[test]
fn numbers(rt: HostRuntime) -> Result<(), Fail> {
    let mut bytes = Vec::new(rt.alloc());
    push_u16(&mut bytes, 0x0201)?;
    push_u32(&mut bytes, 0x0605_0403)?;
    push_u64(&mut bytes, 0x0e0d_0c0b_0a09_0807)?;
    let pushed = [1, 2, 3, 4, 5, 6, 7, 8, 9, 10, 11, 12, 13, 14];
    assert_eq!(rt; bytes.as_slice(), pushed.as_slice());
    assert_eq!(rt; u16_at(&pushed, 1), 0x0302);
    assert_eq!(rt; u32_at(&pushed, 1), 0x0504_0302);
    put_u16(&mut bytes, 0, 0xfffe);
    put_u32(&mut bytes, 2, 0xfdfc_fbfa);
    put_u64(&mut bytes, 6, u64_at(&pushed, 6));
    let written = [0xfe, 0xff, 0xfa, 0xfb, 0xfc, 0xfd, 7, 8];
    assert_eq!(rt; array_at::<8>(&bytes, 0).as_slice(), written.as_slice());
    Ok(())
}
