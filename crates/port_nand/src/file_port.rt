// The way to a driver by the reads and writes of a file.
ghost use Rattle.std.specs.Prelude.{◌≡◌, []};

use crate::calls::Calls;
use crate::port::Port;
use crate::request::{Answer, Request, answer_of, place};
use std::fs::File;
use std::io::Result as IoResult;
use std::os::unix::fs::FileExt;

/// The way to a driver by reads and writes of a file at an offset, which says the request; the count that is returned is the
/// answer. No contract sees what a file gives and takes: that `read` and `write` make the one call that they note is tested.
#[derive(Drop)]
pub struct FilePort {
    file: File,
    calls: Calls,
}

impl FilePort {
    /// No call is made so far.
    pub fn new(file: File) -> FilePort
        ensures { result.calls.list ≡ [] }
    {
        FilePort {
            file,
            calls: Calls::new(),
        }
    }
}

/// The answer of a read or a write of the file.
fn answered(count: IoResult<usize>) -> Answer {
    match count {
        Ok(count) => answer_of(count),
        Err(_) => Answer::Lost,
    }
}

impl Port for FilePort {
    ghost calls = { λ port. port.calls.list };

    fn read(&mut self, request: Request, buffer: &mut [u8]) -> Answer {
        let answer = answered(self.file.read_at(buffer, place(request)));
        self.calls = self.calls.with(request, buffer, answer);
        answer
    }

    fn write(&mut self, request: Request, bytes: &[u8]) -> Answer {
        let answer = answered(self.file.write_at(bytes, place(request)));
        self.calls = self.calls.with(request, bytes, answer);
        answer
    }
}
