ghost use Rattle.std.specs.Prelude.{◌≤◌, IfOk};

use crate::facts::{holds, holds_in, same, same_in};
use desk_io::*;
use std::io;
use std::io::{Read, Write};
use std::test::Fail;

/// Reads to the end or to the first failure, and tells whether the end came.
fn read_out(reader: &mut impl Source, kept: &mut BytesOut<16>, room: usize) -> bool {
    let mut buffer = [0; 8];
    for _ in 0..32u8 {
        match reader.read(&mut buffer[..room.min(8)]) {
            Ok(0) => return true,
            Ok(count) => {
                if kept.write(&buffer[..count]).is_err() {
                    return false;
                }
            }
            Err(_) => return false,
        }
    }
    false
}

#[test]
fn gives_the_bytes_in_pieces(rt: HostRuntime) {
    for (most, room) in [(1, 8), (3, 8), (1000, 8), (1000, 1), (2, 3)] {
        holds(&rt, most > 0);
        let mut reader = BytesIn::new(b"waits 8z", most, None);
        let mut kept: BytesOut<16> = BytesOut::new(1000, None);
        holds_in(&rt, &(most, room), read_out(&mut reader, &mut kept, room));
        same(&rt, kept.bytes(), b"waits 8z".as_slice());
    }
}

#[test]
fn fails_at_the_chosen_read(rt: HostRuntime) {
    for &(failing, told) in &[(1, ""), (2, "wai"), (3, "waits "), (4, "waits 8z")] {
        let mut reader = BytesIn::new(b"waits 8z", 3, Some(failing));
        let mut kept: BytesOut<16> = BytesOut::new(1000, None);
        holds_in(&rt, &failing, !read_out(&mut reader, &mut kept, 8));
        same_in(&rt, &failing, kept.bytes(), told.as_bytes());
    }
    let mut reader = BytesIn::new(b"waits 8z", 3, Some(5));
    let mut kept: BytesOut<16> = BytesOut::new(1000, None);
    holds(&rt, read_out(&mut reader, &mut kept, 8));
}

#[test]
fn takes_what_it_has_room_for(rt: HostRuntime) {
    let mut kept: BytesOut<4> = BytesOut::new(3, Some(3));
    same(&rt, kept.write(b"").ok(), Some(0));
    same(&rt, kept.write(b"waits").ok(), Some(3));
    holds_in(&rt, &"the chosen one", kept.write(b"ts").is_err());
    same(&rt, kept.write(b"ts").ok(), Some(1));
    holds_in(&rt, &"it is full", kept.write(b"s").is_err());
    same(&rt, kept.write(b"").ok(), Some(0));
    same(&rt, kept.bytes(), b"wait".as_slice());
}

#[test]
fn wraps_a_reader_of_std(rt: HostRuntime) -> Result<(), Fail> {
    let mut reader = FromReader::new(b"waits 8z".as_slice());
    let mut buffer = [0; 5];
    same(&rt, reader.read(&mut buffer)?, 5);
    same(&rt, buffer.as_slice(), b"waits".as_slice());
    same(&rt, reader.read(&mut buffer)?, 3);
    same(&rt, reader.read(&mut buffer)?, 0);
    Ok(())
}

#[test]
fn wraps_a_writer_of_std(rt: HostRuntime) -> Result<(), Fail> {
    let mut room = [0; 8];
    let mut writer = ToWriter::new(room.as_mut_slice());
    same(&rt, writer.write(b"waits")?, 5);
    same(&rt, writer.write(b"")?, 0);
    same(&rt, writer.write(b" 8z!")?, 3);
    same(&rt, writer.write(b"!")?, 0);
    Ok(())
}

/// Its second call fails, and each other moves as many bytes as there were calls.
#[derive(Drop)]
struct FailsOnce {
    calls: u8,
}

impl FailsOnce {
    fn call(&mut self, room: usize) -> io::Result<usize>
        ensures { IfOk result (λ count. count ≤ room) }
    {
        self.calls = self.calls.saturating_add(1);
        if self.calls == 2 {
            return Err(io::Error::other("this call fails"));
        }
        Ok(room.min(self.calls as usize))
    }
}

impl Read for FailsOnce {
    fn read(&mut self, buffer: &mut [u8]) -> io::Result<usize> {
        self.call(buffer.len())
    }
}

impl Write for FailsOnce {
    fn write(&mut self, bytes: &[u8]) -> io::Result<usize> {
        self.call(bytes.len())
    }

    fn flush(&mut self) -> io::Result<()> {
        Ok(())
    }
}

/// No call is made again behind the caller's back: the failure shows at once, and the next call is the third.
#[test]
fn calls_once_and_passes_on_a_failure(rt: HostRuntime) -> Result<(), Fail> {
    let mut buffer = [0; 8];
    let mut reader = FromReader::new(FailsOnce { calls: 0 });
    same(&rt, reader.read(&mut buffer)?, 1);
    holds(&rt, reader.read(&mut buffer).is_err());
    same(&rt, reader.read(&mut buffer)?, 3);

    let mut writer = ToWriter::new(FailsOnce { calls: 0 });
    same(&rt, writer.write(&buffer)?, 1);
    holds(&rt, writer.write(&buffer).is_err());
    same(&rt, writer.write(&buffer)?, 3);
    Ok(())
}

/// Gives a byte, then finds the end once, and then goes on, as a terminal does behind an end that was typed.
#[derive(Drop)]
struct Terminal {
    calls: u8,
}

impl Read for Terminal {
    fn read(&mut self, buffer: &mut [u8]) -> io::Result<usize> {
        self.calls = self.calls.saturating_add(1);
        if self.calls == 2 || buffer.is_empty() {
            return Ok(0);
        }
        buffer[0] = b'x';
        Ok(1)
    }
}

#[test]
fn one_end_is_enough(rt: HostRuntime) -> Result<(), Fail> {
    let mut reader = FromReader::new(Terminal { calls: 0 });
    let mut buffer = [0; 8];
    for given in [1, 0, 1] {
        same(&rt, reader.read(&mut buffer)?, given);
    }
    Ok(())
}
