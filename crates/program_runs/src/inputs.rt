//! Inputs in memory that several programs are given.

use std::io;
use std::io::{ErrorKind, Read};

/// Attachment CC, with the figures of page 1: a T line and seven F lines.
pub const CC: &str = concat!(
    "T CC                                                    \n",
    "F  1  1865000000                                        \n",
    "F  2  1305500000                                        \n",
    "F  3    52989310                                        \n",
    "F  5     3247214                                        \n",
    "F  7    12975857                                        \n",
    "F 10    47594197                                        \n",
    "F 12   100209722                                        \n",
);

/// An input that gives no more than seven bytes at a time.
#[derive(Drop)]
pub struct InPieces<'a>(pub &'a [u8]);

impl Read for InPieces<'_> {
    fn read(&mut self, buf: &mut [u8]) -> io::Result<usize> {
        let most = buf.len().min(7);
        self.0.read(&mut buf[..most])
    }
}

/// An input that breaks off with an error where its bytes end.
#[derive(Drop)]
pub struct BreaksOff<'a>(pub &'a [u8]);

impl Read for BreaksOff<'_> {
    fn read(&mut self, buf: &mut [u8]) -> io::Result<usize> {
        match self.0.read(buf)? {
            0 => Err(ErrorKind::ConnectionReset.into()),
            count => Ok(count),
        }
    }
}
