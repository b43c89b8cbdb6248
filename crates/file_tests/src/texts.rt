//! Texts.
use csub_text::Text;
use std::test::Fail;

#[test]
fn a_text_and_its_copy_have_the_bytes_they_were_made_of(rt: HostRuntime) -> Result<(), Fail> {
    let text = Text::new(rt.alloc(), b"count_1\0\xff")?;
    assert!(rt; text.bytes() == b"count_1\0\xff".as_slice());
    let copy = text.copy()?;
    assert!(rt; copy.bytes() == b"count_1\0\xff".as_slice());
    assert!(rt; copy == text);
    Ok(())
}
