//! Examples of what is read.
use crate::reading::fill;
use std::io;
use std::io::Read;
use std::test::Fail;

// An input that gives at most two bytes at a time.
#[derive(Drop)]
struct Drops<'a> {
    bytes: &'a [u8],
}

impl Read for Drops<'_> {
    fn read(&mut self, buf: &mut [u8]) -> io::Result<usize> {
        let most = buf.len().min(2);
        self.bytes.read(&mut buf[..most])
    }
}

#[test]
fn short_reads_add_up(rt: HostRuntime) -> Result<(), Fail> {
    let mut drops = Drops {
        bytes: &[1, 2, 3, 4, 5],
    };
    let mut room = [0; 8];
    assert_eq!(rt; fill(&mut drops, &mut room)?, 5);
    assert_eq!(rt; room, [1, 2, 3, 4, 5, 0, 0, 0]);
    Ok(())
}

#[test]
fn nothing_is_read_past_the_room(rt: HostRuntime) -> Result<(), Fail> {
    let mut drops = Drops {
        bytes: &[1, 2, 3, 4, 5],
    };
    let mut room = [0; 3];
    assert_eq!(rt; fill(&mut drops, &mut room)?, 3);
    assert_eq!(rt; room, [1, 2, 3]);
    assert_eq!(rt; drops.bytes, [4, 5].as_slice());
    Ok(())
}
