//! Writers that take little, refuse, or pass on what they get, and count their calls.

ghost use Rattle.std.specs.Prelude.{None};

use std::alloc::Global;
use std::io::{Error, ErrorKind, Write};

/// How a writer takes the bytes that it is handed.
#[derive(Clone, Copy, Debug, PartialEq, Eq)]
pub(crate) enum Takes {
    /// All, or none where there is no room for all.
    Whole,
    /// As many as there is room for.
    Part,
    /// At most 7.
    Few,
    /// Every second time none, as it is interrupted.
    Interrupted,
    /// As `Whole`, and every second time none, as it is interrupted.
    WholeInterrupted,
    /// All, or it answers that it took none.
    WholeOrZero,
    /// All, or none where there is no room for all, or where they are more than 512.
    Record,
    /// At most 512, or none where there is no room for so many of them.
    Piece,
    /// As `Whole`, and none in the call of this number.
    AllBut(u64),
    /// As `Whole`, and it answers that it took none in the call of this number.
    ZeroAt(u64),
    /// As `Whole`, and it fails when they are to be passed on.
    PassesNothingOn,
}

/// A writer that is equal to another where both have got the same, by as many calls.
pub(crate) trait Tried: Write + PartialEq + Drop {
    /// One that was not called yet, takes bytes in this way, and has room for so many.
    fn new(alloc: Global, takes: Takes, room: usize) -> Self;
}

/// A writer with room for so many bytes.
#[derive(Drop, PartialEq)]
pub(crate) struct Narrow {
    takes: Takes,
    room: usize,
    // The bytes that it took.
    taken: Vec<u8>,
    // How often it was called.
    calls: u64,
}

impl Tried for Narrow {
    fn new(alloc: Global, takes: Takes, room: usize) -> Self {
        Narrow {
            takes,
            room,
            taken: Vec::new(alloc),
            calls: 0,
        }
    }
}

impl Narrow {
    // How many of so many bytes it takes in this call, if it takes them.
    fn most(&self, length: usize) -> Result<usize, ErrorKind> {
        let fits = length <= self.room;
        let is_odd = self.calls % 2 == 1;
        match self.takes {
            Takes::Part => Ok(length),
            Takes::Few => Ok(length.min(7)),
            Takes::Interrupted | Takes::WholeInterrupted if is_odd => Err(ErrorKind::Interrupted),
            Takes::Interrupted => Ok(length),
            Takes::WholeOrZero if !fits => Ok(0),
            Takes::Record if length > 512 => Err(ErrorKind::Other),
            Takes::Piece if length.min(512) <= self.room => Ok(length.min(512)),
            Takes::AllBut(number) if number == self.calls => Err(ErrorKind::Other),
            Takes::ZeroAt(number) if number == self.calls => Ok(0),
            _ if fits => Ok(length),
            _ => Err(ErrorKind::Other),
        }
    }
}

impl Write for Narrow {
    ghost contents = { λ _. None };

    fn write(&mut self, buf: &[u8]) -> std::io::Result<usize> {
        self.calls = self.calls.saturating_add(1);
        match self.most(buf.len()) {
            Ok(most) => {
                let count = buf.len().min(self.room).min(most);
                self.taken.extend_from_slice(&buf[..count])?;
                self.room -= count;
                Ok(count)
            }
            Err(kind) => Err(Error::from(kind)),
        }
    }

    fn flush(&mut self) -> std::io::Result<()> {
        match self.takes {
            Takes::PassesNothingOn => Err(Error::from(ErrorKind::Other)),
            _ => Ok(()),
        }
    }
}

/// Passes all that it gets on to two writers, to one after the other, the second of which has little room.
#[derive(Drop, PartialEq)]
pub(crate) struct Both {
    first: Narrow,
    second: Narrow,
}

impl Tried for Both {
    fn new(alloc: Global, takes: Takes, room: usize) -> Self {
        Both {
            first: Narrow::new(alloc, takes, usize::MAX),
            second: Narrow::new(alloc, takes, room),
        }
    }
}

impl Write for Both {
    ghost contents = { λ _. None };

    fn write(&mut self, buf: &[u8]) -> std::io::Result<usize> {
        self.first.write_all(buf)?;
        self.second.write_all(buf)?;
        Ok(buf.len())
    }

    fn flush(&mut self) -> std::io::Result<()> {
        Ok(())
    }
}

/// A writer whose `write_all` is its own; its `write` is counted apart.
#[derive(Drop, PartialEq)]
pub(crate) struct Own {
    inner: Narrow,
    // How often `write` was called.
    writes: u64,
    // How often `write_all` was called.
    wholes: u64,
}

impl Tried for Own {
    fn new(alloc: Global, takes: Takes, room: usize) -> Self {
        Own {
            inner: Narrow::new(alloc, takes, room),
            writes: 0,
            wholes: 0,
        }
    }
}

impl Write for Own {
    ghost contents = { λ _. None };

    fn write(&mut self, buf: &[u8]) -> std::io::Result<usize> {
        self.writes = self.writes.saturating_add(1);
        self.inner.write(buf)
    }

    fn flush(&mut self) -> std::io::Result<()> {
        Ok(())
    }

    fn write_all(&mut self, buf: &[u8]) -> std::io::Result<()> {
        self.wholes = self.wholes.saturating_add(1);
        self.inner.write_all(buf)
    }
}
