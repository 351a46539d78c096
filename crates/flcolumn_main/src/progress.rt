//! How far long work is, on a terminal.

ghost use Rattle.std.specs.Prelude.{◌≡◌, ◌+◌, None, min};

use std::io::{IsTerminal, Write};
use std::rt::Stderr;

/// After how many bytes the line is written anew.
const STEP: u64 = 1 << 26;

/// How many bytes were read, of which a terminal tells in a line that is written over.
#[derive(Drop)]
pub(crate) struct Progress {
    /// None where standard error is no terminal, and where the work has ended.
    terminal: Option<Stderr>,
    read: u64,
    /// How many steps the line tells of: where none, there is no line.
    steps: u64,
}

impl Progress {
    /// The progress of work that begins.
    pub(crate) fn new(errors: Stderr) -> Progress
        ensures { result.read ≡ 0 }
    {
        Progress {
            terminal: errors.is_terminal().then_some(errors),
            read: 0,
            steps: 0,
        }
    }

    /// Adds bytes that were read, and writes the line where that makes another step. Where there are none the work has ended.
    pub(crate) fn add(&mut self, count: usize)
        ensures { self.new.read ≡ min (self.old.read + count) u64.MAX }
    {
        if count == 0 {
            self.end();
        }
        self.read = self.read.saturating_add(count as u64);
        if self.read / STEP > self.steps {
            self.steps = self.read / STEP;
            if let Some(terminal) = &mut self.terminal {
                // Where it can't be written the work goes on.
                let _ = write!(terminal, "\rflcolumn: {} MiB read", self.read >> 20);
            }
        }
    }

    /// Clears the line, and tells no more.
    pub(crate) fn end(&mut self)
        ensures read { self.new.read ≡ self.old.read }
        ensures silent { self.new.terminal ≡ None }
    {
        if let Some(mut terminal) = self.terminal.take() {
            if self.steps > 0 {
                let _ = terminal.write_all(b"\r\x1b[K");
            }
        }
    }
}
