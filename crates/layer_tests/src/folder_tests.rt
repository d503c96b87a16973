//! A file that fails while it is read.

use jats_io::{LoadFault, read_bytes};
use std::io;
use std::io::{Error, ErrorKind, Read};

/// A file that gives its bytes one by one, and then fails.
#[derive(Drop)]
struct Failing {
    left: u8,
}

impl Read for Failing {
    fn read(&mut self, buf: &mut [u8]) -> io::Result<usize> {
        if self.left == 0 {
            return Err(Error::from(ErrorKind::Other));
        }
        if buf.is_empty() {
            return Ok(0);
        }
        buf[0] = self.left;
        self.left -= 1;
        Ok(1)
    }
}

#[test]
fn a_read_that_fails_is_no_end_of_the_file(rt: HostRuntime) {
    let mut buffer = [0u8; 4];
    match read_bytes(rt.alloc(), &mut Failing { left: 3 }, &mut buffer, 3) {
        Ok(_) => assert!(rt; false),
        Err(fault) => assert!(rt; fault == LoadFault::Failed),
    }
    match read_bytes(rt.alloc(), &mut Failing { left: 3 }, &mut buffer, 2) {
        Ok(bytes) => assert!(rt; bytes.len() == 3),
        Err(_) => assert!(rt; false),
    }
}
