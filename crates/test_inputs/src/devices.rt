use std::io;

/// The error of a read that fails: of the device itself.
const EIO: i32 = 5;

/// The error of a write that fails: the device is full.
const ENOSPC: i32 = 28;

/// A reader over bytes that gives one at a time, and whose reads fail once `good` of them are done.
#[derive(Drop)]
pub struct FailingReader<'a> {
    pub rest: &'a [u8],
    pub good: usize,
    pub failed: bool,
}

impl io::Read for FailingReader<'_> {
    fn read(&mut self, buf: &mut [u8]) -> io::Result<usize> {
        if self.good == 0 {
            self.failed = true;
            return Err(io::Error::from_raw_os_error(EIO));
        }
        self.good -= 1;
        let rest = self.rest;
        let Some(byte) = rest.first() else {
            return Ok(0);
        };
        let Some(slot) = buf.first_mut() else {
            return Ok(0);
        };
        *slot = *byte;
        let (_, rest) = rest.split_at(1);
        self.rest = rest;
        Ok(1)
    }
}

/// A writer that takes one byte at a time, and whose writes fail once `good` of them are done.
#[derive(Drop)]
pub struct FailingWriter {
    pub bytes: Vec<u8>,
    pub good: usize,
    pub failed: bool,
}

impl io::Write for FailingWriter {
    fn write(&mut self, buf: &[u8]) -> io::Result<usize> {
        if self.good == 0 {
            self.failed = true;
            return Err(io::Error::from_raw_os_error(ENOSPC));
        }
        self.good -= 1;
        let Some(byte) = buf.first() else {
            return Ok(0);
        };
        self.bytes.push(*byte)?;
        Ok(1)
    }

    fn flush(&mut self) -> io::Result<()> {
        Ok(())
    }
}
