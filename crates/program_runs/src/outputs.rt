//! An output in memory that runs full, and how the programs end.

use std::fmt::Display;
use std::io;
use std::io::{ErrorKind, Write};

/// An output that takes as many bytes as it has room for, and then fails.
#[derive(Drop)]
pub struct RunsFull {
    pub taken: Vec<u8>,
    pub room: usize,
}

impl Write for RunsFull {
    fn write(&mut self, buf: &[u8]) -> io::Result<usize> {
        if self.room == 0 {
            return Err(ErrorKind::StorageFull.into());
        }
        let count = buf.len().min(self.room);
        self.taken.extend_from_slice(&buf[..count])?;
        self.room -= count;
        Ok(count)
    }

    fn flush(&mut self) -> io::Result<()> {
        Ok(())
    }
}

/// Prints why a program ends before its work is done, if it does.
pub fn show_end<E: Display + Drop>(rt: &impl Print, ended: Result<(), E>) -> io::Result<()> {
    match ended {
        Ok(()) => Ok(()),
        Err(error) => println!(rt; "{error}"),
    }
}
