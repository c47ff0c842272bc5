use super::*;
use std::test::Fail;

#[test]
fn there_is_room_for_the_longest_image(rt: HostRuntime) -> Result<(), Fail> {
    let image = blank(rt.alloc(), 0x800000)?;
    assert_eq!(rt; image.len(), 0x800000);
    assert_eq!(rt; image[0], 0);
    assert_eq!(rt; image[0x7FFFFF], 0);
    Ok(())
}
