//! The counted words of one lane, which the steps of a row take and put as rows of one lane.

ghost use Rattle.std.specs.Prelude.{◌≡◌, ℕ, ◌<◌, map};
ghost use Rattle.fastlanes_base.specs.Sinks.{lane_sink};

use crate::rows::{WordCursor, WordSink};
use crate::vector::Lone;
use fastlanes_base::{LaneSink, LaneWords, MachineWord};

impl<'a, E: MachineWord> WordCursor<E, Lone<E>> for LaneWords<'a, E> {
    ghost counted = { λ s. s };

    #[inline(always)]
    fn take_row(&mut self) -> Lone<E> {
        Lone(self.next_word())
    }
}

impl<'a, E: MachineWord> WordSink<E, Lone<E>> for LaneSink<'a, E> {
    ghost written = { λ s. lane_sink s };

    #[inline(always)]
    fn bits(&self) -> usize {
        self.width()
    }

    #[inline(always)]
    fn put_row(&mut self, words: Lone<E>) {
        self.put_word(words.0);
    }
}
