//! Tests of the sinks of csp_io, and of a write of each kind that fails.
ghost use Rattle.std.specs.Prelude.{◌<◌};

use crate::runs::numbers;
use csp_io::{Failed, MemorySink, Sink, StreamSink, write_all};
use csp_model::Memory;
use std::alloc::Global;
use std::io;
use std::io::Write;
use std::test::Fail;

fn write_hello(
    alloc: Global,
    room: usize,
    piece: usize,
    failing: &[u64],
) -> Result<(Result<(), Failed>, MemorySink), Memory>
    requires { 0 < piece }
{
    let mut sink = MemorySink::new(alloc, room, piece, numbers(alloc, failing)?)?;
    Ok((write_all(&mut sink, b"hello world"), sink))
}

#[test]
fn a_sink_in_memory(rt: HostRuntime) -> Result<(), Fail> {
    // The room, the bytes a write takes, the writes that fail, the answer and what is taken.
    let rows: [(usize, usize, &[u64], Result<(), Failed>, &str); 6] = [
        (20, 4, &[], Ok(()), "hello world"),
        (11, 1, &[], Ok(()), "hello world"),
        (20, 4, &[3], Ok(()), "hello world"),
        (20, 4, &[1], Err(Failed), "hell"),
        (6, 4, &[], Err(Failed), "hello "),
        (0, 1, &[], Err(Failed), ""),
    ];
    for &(room, piece, failing, wanted, taken) in &rows {
        assert!(rt; 0 < piece);
        let (answer, sink) = write_hello(rt.alloc(), room, piece, failing)?;
        assert_eq!(rt; answer, wanted, "{room}, {piece}, {failing:?}");
        assert_eq!(rt; sink.taken(), taken.as_bytes());
    }
    Ok(())
}

// Takes at most three bytes a write while it has room, and fails at one of its flushes.
#[derive(Drop)]
struct Narrow {
    got: Vec<u8>,
    room: usize,
    flushes_left: usize,
}

impl Write for Narrow {
    fn write(&mut self, buf: &[u8]) -> io::Result<usize> {
        if self.room == 1 {
            return Err(io::Error::from(io::ErrorKind::BrokenPipe));
        }
        let n = buf.len().min(3).min(self.room);
        self.got.extend_from_slice(&buf[..n])?;
        self.room -= n;
        Ok(n)
    }

    fn flush(&mut self) -> io::Result<()> {
        if self.flushes_left == 0 {
            return Err(io::Error::from(io::ErrorKind::BrokenPipe));
        }
        self.flushes_left -= 1;
        Ok(())
    }
}

// The answers of a stream's sink to no bytes and to "hello".
fn stream_hello(writer: &mut Narrow) -> (Result<usize, Failed>, Result<(), Failed>) {
    let mut sink = StreamSink::new(writer);
    (sink.write(b""), write_all(&mut sink, b"hello"))
}

#[test]
fn a_stream(rt: HostRuntime) {
    // The room, the flushes before one fails, the answer and what the stream got. With one byte of
    // room left a write fails, and with none it takes nothing.
    for &(room, flushes_left, wanted, taken) in &[
        (10, 9, Ok(()), "hello"),
        (5, 3, Ok(()), "hello"),
        (4, 9, Err(Failed), "hel"),
        (3, 9, Err(Failed), "hel"),
        (10, 2, Err(Failed), "hello"),
    ] {
        let mut writer = Narrow {
            got: Vec::new(rt.alloc()),
            room,
            flushes_left,
        };
        let answers = stream_hello(&mut writer);
        assert_eq!(rt; answers, (Ok(0), wanted), "{room}, {flushes_left}");
        assert_eq!(rt; writer.got.as_slice(), taken.as_bytes());
    }
}
