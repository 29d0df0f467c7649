//! Reading and writing whole, and trying again where a call was interrupted.

ghost use Rattle.std.specs.Io.{ReadsAtMost, WritesAtMost};

use std::io::{self, Error, ErrorKind, Read, Write};

/// How often in a row a call is made that is interrupted each time. Then it has failed.
const TRIES: u32 = 1_000_000;

/// Reads until `into` is full. A reader that ends before that is an error.
pub(crate) fn read_whole<R: Read>(reader: &mut R, into: &mut [u8]) -> io::Result<()> {
    let mut filled = 0;
    while filled < into.len() {
        let count = read_some(reader, &mut into[filled..])?;
        if count == 0 {
            return Err(Error::from(ErrorKind::UnexpectedEof));
        }
        filled += count;
    }
    Ok(())
}

/// Writes all the bytes and flushes. A writer that takes no more bytes is an error.
pub(crate) fn write_whole<W: Write>(writer: &mut W, bytes: &[u8]) -> io::Result<()> {
    let mut written = 0;
    while written < bytes.len() {
        let count = write_some(writer, &bytes[written..])?;
        if count == 0 {
            return Err(Error::from(ErrorKind::WriteZero));
        }
        written += count;
    }
    flush(writer)
}

/// One read, made again while it is interrupted.
fn read_some<R: Read>(reader: &mut R, into: &mut [u8]) -> io::Result<usize>
    ensures bound { ReadsAtMost result into.new }
{
    for _ in 0..TRIES {
        match reader.read(into) {
            Err(error) if error.kind() == ErrorKind::Interrupted => {}
            ended => return ended,
        }
    }
    Err(Error::from(ErrorKind::Interrupted))
}

/// One write, made again while it is interrupted.
fn write_some<W: Write>(writer: &mut W, bytes: &[u8]) -> io::Result<usize>
    ensures bound { WritesAtMost result bytes.now }
{
    for _ in 0..TRIES {
        match writer.write(bytes) {
            Err(error) if error.kind() == ErrorKind::Interrupted => {}
            ended => return ended,
        }
    }
    Err(Error::from(ErrorKind::Interrupted))
}

/// A flush, made again while it is interrupted.
fn flush<W: Write>(writer: &mut W) -> io::Result<()> {
    for _ in 0..TRIES {
        match writer.flush() {
            Err(error) if error.kind() == ErrorKind::Interrupted => {}
            ended => return ended,
        }
    }
    Err(Error::from(ErrorKind::Interrupted))
}

#[cfg(test)]
mod tests {
    use super::*;

    /// It is interrupted so often before each call, and then moves one byte: a `7` where it is read.
    #[derive(Drop)]
    struct Interrupted {
        before: u32,
        left: u32,
        moved: u32,
    }

    impl Interrupted {
        /// It is interrupted so often before each call.
        fn new(before: u32) -> Interrupted {
            Interrupted {
                before,
                left: before,
                moved: 0,
            }
        }

        /// Whether this call is not interrupted.
        fn goes_on(&mut self) -> io::Result<()> {
            match self.left.checked_sub(1) {
                Some(left) => {
                    self.left = left;
                    Err(Error::from(ErrorKind::Interrupted))
                }
                None => {
                    self.left = self.before;
                    self.moved = self.moved.saturating_add(1);
                    Ok(())
                }
            }
        }
    }

    impl Read for Interrupted {
        fn read(&mut self, buf: &mut [u8]) -> io::Result<usize> {
            self.goes_on()?;
            match buf.first_mut() {
                Some(byte) => {
                    *byte = 7;
                    Ok(1)
                }
                None => Ok(0),
            }
        }
    }

    impl Write for Interrupted {
        fn write(&mut self, buf: &[u8]) -> io::Result<usize> {
            self.goes_on()?;
            Ok(buf.len().min(1))
        }

        fn flush(&mut self) -> io::Result<()> {
            self.goes_on()
        }
    }

    #[test]
    fn an_interrupted_read_is_made_again(rt: HostRuntime) {
        let mut into = [0u8; 3];
        let mut reader = Interrupted::new(2);
        assert_eq!(rt; read_whole(&mut reader, &mut into).is_ok(), true);
        assert_eq!(rt; into, [7; 3]);
        assert_eq!(rt; reader.moved, 3);
    }

    #[test]
    fn an_interrupted_write_is_made_again_and_a_flush(rt: HostRuntime) {
        let mut writer = Interrupted::new(2);
        assert_eq!(rt; write_whole(&mut writer, b"abc").is_ok(), true);
        assert_eq!(rt; writer.moved, 4);
    }

    #[test]
    fn what_is_always_interrupted_ends(rt: HostRuntime) {
        let mut always = Interrupted::new(u32::MAX);
        assert_eq!(rt; read_whole(&mut always, &mut [0u8; 1]).is_err(), true);
        assert_eq!(rt; write_whole(&mut always, b"a").is_err(), true);
        assert_eq!(rt; write_whole(&mut always, b"").is_err(), true);
        assert_eq!(rt; always.left, u32::MAX - 3 * TRIES);
    }
}
