//! Words and lines of texts.
use line_text::{cut_line, cut_word};
use std::test::Fail;

#[test]
fn words_stand_between_single_spaces(rt: HostRuntime) -> Result<(), Fail> {
    let Some(first) = cut_word(b"test A") else {
        return Err("no word")?;
    };
    assert!(rt; first.bytes == b"test".as_slice() && first.rest == Some(b"A".as_slice()));
    let Some(last) = cut_word(b"A") else {
        return Err("no word")?;
    };
    assert!(rt; last.bytes == b"A".as_slice() && last.rest.is_none());
    // a space at the end is followed by an empty piece, which is no word
    let Some(before_space) = cut_word(b"A ") else {
        return Err("no word")?;
    };
    assert!(rt;
        before_space
            .rest
            .is_some_and(|rest| cut_word(rest).is_none())
    );
    assert!(rt; cut_word(b"").is_none() && cut_word(b" A").is_none());
    Ok(())
}

#[test]
fn lines_end_at_newlines(rt: HostRuntime) -> Result<(), Fail> {
    let Some(first) = cut_line(b"one\n\nlast") else {
        return Err("no line")?;
    };
    assert!(rt; first.bytes == b"one".as_slice() && first.is_ended);
    let Some(second) = cut_line(first.rest) else {
        return Err("no line")?;
    };
    assert!(rt; second.bytes.is_empty() && second.is_ended);
    let Some(third) = cut_line(second.rest) else {
        return Err("no line")?;
    };
    assert!(rt; third.bytes == b"last".as_slice() && !third.is_ended);
    assert!(rt; cut_line(third.rest).is_none());
    Ok(())
}
