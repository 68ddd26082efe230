// Readings of a source that is whole, of one that is longer than the buffer, and of one that fails.
use super::*;
use std::test::Fail;

// A reader that gives a byte a read, is interrupted before each, and fails once it has given so many.
#[derive(Drop)]
struct Failing {
    left: u8,
    interrupted: bool,
}

impl Read for Failing {
    fn read(&mut self, room: &mut [u8]) -> io::Result<usize> {
        self.interrupted = !self.interrupted;
        if self.interrupted {
            return Err(io::Error::from(ErrorKind::Interrupted));
        }
        if self.left == 0 || room.is_empty() {
            return Err(io::Error::from(ErrorKind::BrokenPipe));
        }
        self.left -= 1;
        room[0] = b'x';
        Ok(1)
    }
}

#[test]
fn whole(rt: HostRuntime) -> Result<(), Fail> {
    let mut source: &[u8] = b"abc";
    let mut room = [0u8; 5];
    let input = read_input(&mut source, &mut room);
    assert_eq!(rt; input.length, 3);
    assert!(rt; matches!(input.outcome, Outcome::Whole));
    assert!(rt; matches!(input.came(), Ok(3)));
    assert_eq!(rt; room, *b"abc\0\0");
    Ok(())
}

#[test]
fn cut_off(rt: HostRuntime) -> Result<(), Fail> {
    let mut source: &[u8] = b"abc";
    let mut room = [0u8; 2];
    let input = read_input(&mut source, &mut room);
    assert_eq!(rt; input.length, 2);
    assert!(rt; matches!(input.outcome, Outcome::CutOff));
    assert!(rt; matches!(input.came(), Ok(2)));
    assert_eq!(rt; room, *b"ab");
    Ok(())
}

#[test]
fn failed(rt: HostRuntime) -> Result<(), Fail> {
    let mut source = Failing {
        left: 3,
        interrupted: false,
    };
    let mut room = [0u8; 5];
    let input = read_input(&mut source, &mut room);
    assert_eq!(rt; input.length, 3);
    assert!(rt; matches!(input.outcome, Outcome::Failed(_)));
    assert_eq!(rt; room, *b"xxx\0\0");
    let kind = input.came().err().map(|error| error.kind());
    assert_eq!(rt; kind, Some(ErrorKind::BrokenPipe));
    Ok(())
}
