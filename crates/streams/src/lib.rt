// Whole buffers read and written: the loops over a reader's `read` and a writer's `write` that the programs share, and
// what each leaves where the stream fails.
#![tactic(auto)]

ghost use Rattle.std.specs.Prelude.{◌<◌, ◌≤◌, length, take, OnOk, OnErr, IfOk};
ghost use Rattle.std.specs.Io.{ReadsAtMost};
ghost use Rattle.std.specs.Io.KnownBytes.{Appends, Consumes, IsAtEnd};
ghost use Rattle.streams.specs.Streams.{AppendsPart, ConsumesPart};

use std::io::{ErrorKind, Read, Result, Write};

// Reads until `buf` is full or the input ends, and answers how many bytes it put at the start of `buf`. A read that a
// signal interrupts counts as failed. After a failure the bytes that were read before stand at the start of `buf`.
pub fn read_full<R: Read>(reader: &mut R, buf: &mut [u8]) -> Result<usize>
    ensures count { ReadsAtMost result buf.new }
    ensures bytes { IfOk result (λ n. Consumes (R.remaining reader.old) (R.remaining reader.new) (take n buf.new)) }
    ensures end { IfOk result (λ n. n < length buf.new → IsAtEnd (R.remaining reader.new)) }
    ensures failed { OnErr result (ConsumesPart (R.remaining reader.old) (R.remaining reader.new) buf.new) }
{
    // the place is counted: where a `&mut` moves along the buffer, the loop's invariant cannot speak of what it has passed
    let mut done = 0;
    while done < buf.len() {
        let count = reader.read(&mut buf[done..])?;
        if count == 0 {
            return Ok(done);
        }
        done += count;
    }
    Ok(done)
}

// Writes all of `buf`. A write that takes nothing, or that a signal interrupts, counts as failed. After a failure the
// first bytes of `buf`, or none, were written.
pub fn write_all<W: Write>(writer: &mut W, buf: &[u8]) -> Result<()>
    ensures written { OnOk result (Appends (W.contents writer.old) (W.contents writer.new) buf.now) }
    ensures failed { OnErr result (AppendsPart (W.contents writer.old) (W.contents writer.new) buf.now) }
{
    let mut rest = buf;
    while !rest.is_empty() {
        match writer.write(rest)? {
            0 => return Err(ErrorKind::WriteZero.into()),
            count => rest = &rest[count..],
        }
    }
    Ok(())
}

#[cfg(test)]
mod tests {
    use super::*;
    use std::io::Error;

    // Gives or takes a byte at a time, as many as `left` says, and then fails.
    #[derive(Drop)]
    struct Broken {
        left: usize,
    }

    impl Broken {
        fn turn(&mut self, room: usize) -> Result<usize>
            ensures { IfOk result (λ n. n ≤ room) }
        {
            if self.left == 0 {
                return Err(Error::other("broken"));
            }
            if room == 0 {
                return Ok(0);
            }
            self.left -= 1;
            Ok(1)
        }
    }

    impl Read for Broken {
        fn read(&mut self, buf: &mut [u8]) -> Result<usize> {
            let count = self.turn(buf.len())?;
            if count == 1 {
                buf[0] = 7;
            }
            Ok(count)
        }
    }

    impl Write for Broken {
        fn write(&mut self, buf: &[u8]) -> Result<usize> {
            self.turn(buf.len())
        }

        fn flush(&mut self) -> Result<()> {
            Ok(())
        }
    }

    #[test]
    fn reads_up_to_the_end(rt: HostRuntime) {
        let mut input = &[1u8, 2, 3, 4, 5][..];
        let mut buf = [0u8; 3];
        assert_eq!(rt; read_full(&mut input, &mut buf).ok(), Some(3));
        assert_eq!(rt; buf, [1, 2, 3]);
        assert_eq!(rt; read_full(&mut input, &mut buf).ok(), Some(2));
        assert_eq!(rt; buf, [4, 5, 3]);
        assert_eq!(rt; read_full(&mut input, &mut buf).ok(), Some(0));
    }

    #[test]
    fn reads_in_parts(rt: HostRuntime) {
        let mut buf = [0u8; 3];
        assert_eq!(rt; read_full(&mut Broken { left: 3 }, &mut buf).ok(), Some(3));
        assert_eq!(rt; buf, [7, 7, 7]);
    }

    #[test]
    fn a_failed_read_is_told(rt: HostRuntime) {
        let mut buf = [0u8; 3];
        assert!(rt; read_full(&mut Broken { left: 2 }, &mut buf).is_err());
        assert_eq!(rt; buf, [7, 7, 0]);
    }

    #[test]
    fn writes_in_parts(rt: HostRuntime) {
        let mut writer = Broken { left: 3 };
        assert!(rt; write_all(&mut writer, &[1, 2, 3]).is_ok());
        assert_eq!(rt; writer.left, 0);
    }

    #[test]
    fn a_failed_write_is_told(rt: HostRuntime) {
        assert!(rt; write_all(&mut Broken { left: 2 }, &[1, 2, 3]).is_err());
    }

    #[test]
    fn a_full_writer_is_told(rt: HostRuntime) {
        let mut room = [0u8; 2];
        let mut writer = &mut room[..];
        let kind = write_all(&mut writer, &[1, 2, 3]).err().map(|e| e.kind());
        assert_eq!(rt; kind, Some(ErrorKind::WriteZero));
    }
}
