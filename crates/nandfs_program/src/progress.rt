// How far long work is, on a terminal.

use posix_calls::{Reply, Stamped};
use posix_profile::Answers;

/// The bytes of a mebibyte.
const MEBIBYTE: u64 = 1 << 20;

/// How many bytes were read and written so far. Where it is shown, that is a line on standard error, which changes with each mebibyte.
#[derive(Clone, Copy)]
pub struct Meter {
    shown: bool,
    read: u64,
    written: u64,
}

impl Meter {
    /// Nothing was read or written yet.
    pub fn new(shown: bool) -> Meter {
        Meter {
            shown,
            read: 0,
            written: 0,
        }
    }

    /// Shows the line, where a mebibyte was passed since there were so many bytes.
    fn show<R: Eprint>(&self, rt: &R, before: u64) {
        let all = self.read.saturating_add(self.written);
        if self.shown && all / MEBIBYTE != before / MEBIBYTE {
            let read = self.read / MEBIBYTE;
            let written = self.written / MEBIBYTE;
            let _ = eprint!(rt; "\r{read} MiB read, {written} MiB written");
        }
    }

    /// So many more bytes were read.
    pub(crate) fn read<R: Eprint>(&mut self, rt: &R, count: usize) {
        let before = self.read.saturating_add(self.written);
        self.read = self.read.saturating_add(count as u64);
        self.show(rt, before);
    }

    /// So many more bytes were written.
    pub(crate) fn write<R: Eprint>(&mut self, rt: &R, count: usize) {
        let before = self.read.saturating_add(self.written);
        self.written = self.written.saturating_add(count as u64);
        self.show(rt, before);
    }

    /// What a reply says was read or written.
    fn note<R: Eprint>(&mut self, rt: &R, reply: &Reply) {
        match reply {
            Reply::Wrote(count) => self.write(rt, *count as usize),
            Reply::Data(bytes) => self.read(rt, bytes.as_slice().len()),
            _ => {}
        }
    }

    /// Removes the line.
    pub fn end<R: Eprint>(self, rt: &R) {
        if self.shown {
            let _ = eprint!(rt; "\r\x1b[K");
        }
    }
}

/// A volume whose commands are seen by a meter.
#[derive(Drop)]
pub struct Metered<'a, R: Eprint, V: Answers> {
    rt: &'a R,
    pub meter: Meter,
    pub volume: V,
}

impl<'a, R: Eprint, V: Answers> Metered<'a, R, V> {
    /// The volume, whose commands go on from what the meter has.
    pub fn new(rt: &'a R, meter: Meter, volume: V) -> Metered<'a, R, V> {
        Metered { rt, meter, volume }
    }
}

impl<R: Eprint, V: Answers> Answers for Metered<'_, R, V> {
    ghost serves = { λ old command reply new. V.serves old.volume command reply new.volume };

    ghost shows = { λ metered. V.shows metered.volume };

    fn answer(&mut self, stamped: &Stamped) -> Reply {
        let reply = self.volume.answer(stamped);
        self.meter.note(self.rt, &reply);
        reply
    }

    ghost sound = { λ metered. V.sound metered.volume };
}
