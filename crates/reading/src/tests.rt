// Reading from readers that give few bytes at a time, that end and that fail.
use crate::read_full;
use std::io;
use std::io::{ErrorKind, Read};

// Gives its bytes two at a time; one that is 255 fails in place of being read.
#[derive(Drop)]
struct TwoAtATime<'a> {
    bytes: &'a [u8],
}

impl Read for TwoAtATime<'_> {
    fn read(&mut self, buf: &mut [u8]) -> io::Result<usize> {
        let n = self.bytes.len().min(2).min(buf.len());
        for i in 0..n {
            if self.bytes[i] == 255 {
                return Err(io::Error::from(ErrorKind::TimedOut));
            }
            buf[i] = self.bytes[i];
        }
        self.bytes = &self.bytes[n..];
        Ok(n)
    }
}

#[test]
fn short_reads(rt: HostRuntime) -> io::Result<()> {
    let mut input = TwoAtATime {
        bytes: &[1, 2, 3, 4, 5, 6, 7],
    };
    let mut buffer = [0u8; 5];
    let n = read_full(&mut input, &mut buffer)?;
    assert!(rt; n == 5);
    assert!(rt; buffer == [1, 2, 3, 4, 5]);
    let rest = read_full(&mut input, &mut buffer)?;
    assert!(rt; rest == 2);
    assert!(rt; buffer == [6, 7, 3, 4, 5]);
    let end = read_full(&mut input, &mut buffer)?;
    assert!(rt; end == 0);
    Ok(())
}

#[test]
fn slices_read(rt: HostRuntime) -> io::Result<()> {
    let bytes = [9u8, 8, 7];
    let mut input: &[u8] = &bytes;
    let mut buffer = [0u8; 4];
    let n = read_full(&mut input, &mut buffer)?;
    assert!(rt; n == 3);
    assert!(rt; buffer == [9, 8, 7, 0]);
    Ok(())
}

#[test]
fn failed_read(rt: HostRuntime) {
    let mut input = TwoAtATime {
        bytes: &[1, 2, 255, 4],
    };
    let mut buffer = [0u8; 4];
    let answer = read_full(&mut input, &mut buffer);
    assert!(rt; answer.is_err_and(|e| e.kind() == ErrorKind::TimedOut));
}
