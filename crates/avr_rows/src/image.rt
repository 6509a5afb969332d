//! An image of instructions, loaded as a file is.

use flash::*;
use std::test::Fail;

#[test]
fn bytes_and_words(rt: HostRuntime) -> Result<(), Fail> {
    let mut image = Image::blank(rt.alloc())?;
    image.set(0, 0x0C);
    image.set(1, 0x94);
    image.set(32767, 0x12);
    assert_eq!(rt; image.byte(1), 0x94);
    assert_eq!(rt; image.word(0), 0x940C);
    assert_eq!(rt; image.word(1), 0xFFFF);
    assert_eq!(rt; image.word(16383), 0x12FF);
    Ok(())
}
