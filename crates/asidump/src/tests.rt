//! Examples of what the program reads and lists.
use crate::listing;
use std::process::Abort;
use std::test::Fail;

// The listing of `words` is just `expected`.
fn lists(rt: &(impl Abort + AllocGlobal), words: &[u32], expected: &str) -> Result<(), Fail> {
    let text = listing::list_words(rt.alloc(), words)?;
    assert_eq!(rt; text.as_str(), expected);
    Ok(())
}

#[test]
fn events_and_endings_as_text(rt: HostRuntime) -> Result<(), Fail> {
    lists(&rt, &[0x8000_0000], "end\n")?;
    lists(&rt, &[0x4000_1fff, 0x8000_0001], "pulse - 8191\nend\n")?;
    lists(&rt, &[0x6000_0000, 0xc000_0000], "pulse + 0\nbroken 4 1\n")?;
    lists(&rt, &[0x3fff_ffff, 0], "quiet 1073741823\nbroken 5 1\n")?;
    lists(&rt, &[1, 1, 0x4000_2000], "quiet 1\nquiet 1\nbroken 6 2\n")?;
    lists(&rt, &[], "broken 7 0\n")?;
    lists(&rt, &[0x8000_0001], "broken 8 0\n")
}

#[test]
fn bytes_beyond_whole_words_are_dropped(rt: HostRuntime) -> Result<(), Fail> {
    let bytes = [0x2c, 3, 0, 0x60, 1, 0, 0, 0x80, 9, 9, 9];
    let whole = listing::list_recording(rt.alloc(), &bytes)?;
    assert_eq!(rt; whole.as_str(), "pulse + 812\nend\n");
    let cut = listing::list_recording(rt.alloc(), &bytes[0..7])?;
    assert_eq!(rt; cut.as_str(), "pulse + 812\nbroken 7 1\n");
    Ok(())
}

#[test]
fn words_beyond_the_room_are_not_read(rt: HostRuntime) -> Result<(), Fail> {
    let bytes = [1u8; 65540];
    let text = listing::list_recording(rt.alloc(), &bytes)?;
    assert!(rt; text.as_str().ends_with("\nbroken 7 16384\n"));
    Ok(())
}
