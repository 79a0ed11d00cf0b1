//! Files, opened by the octets of their names.

ghost use Rattle.std.specs.Prelude.{◌≡◌, None, IfErr, OnOk};
ghost use Rattle.std.specs.Io.{ReadsAtMost};
ghost use Rattle.std.specs.IoError.{raw_os_error};

use os::FromRawFd;
use std::io;
use std::io::{ErrorKind, Read};
use std::os::fd::{AsRawFd, OwnedFd};

/// A file for reading. Its name is octets, which need not be text.
#[derive(Drop)]
pub(crate) struct Opened {
    descriptor: OwnedFd,
    /// The system's number for why the last reading failed, where it gave one.
    failed: Option<i32>,
}

impl Opened {
    /// Opens the file with this name for reading.
    pub(crate) fn open(name: &[u8]) -> io::Result<Opened> {
        let number = os::open_read(name);
        if number < 0 {
            return Err(io::Error::from_raw_os_error(os::errno()));
        }
        // The descriptor was opened here, and nothing else closes it.
        let descriptor = unsafe { OwnedFd::from_raw_fd(number) };
        Ok(Opened {
            descriptor,
            failed: None,
        })
    }

    /// The system's reason why the last reading failed; `None` if it gave none.
    pub(crate) fn failure(&self) -> Option<io::Error> {
        self.failed.map(io::Error::from_raw_os_error)
    }
}

impl Read for Opened {
    /// Reads some octets. A failure is the system's own, so that an interruption by a signal is
    /// seen as one, after which the standard library reads again.
    fn read(&mut self, buffer: &mut [u8]) -> io::Result<usize>
        ensures bound { ReadsAtMost result buffer.new }
        ensures read { OnOk result (self.new.failed ≡ None) }
        ensures failed { IfErr result (λ error. raw_os_error error ≡ self.new.failed) }
    {
        let count = libc::read(self.descriptor.as_raw_fd(), buffer);
        if count < 0 {
            let number = os::errno();
            self.failed = Some(number);
            return Err(io::Error::from_raw_os_error(number));
        }
        self.failed = None;
        match usize::try_from(count) {
            Ok(count) if count <= buffer.len() => Ok(count),
            _ => Err(io::Error::from(ErrorKind::InvalidData)),
        }
    }
}
