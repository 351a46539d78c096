//! Packed words that are moved one after another, and counted: cursors, sinks and a probe over the words of one lane, or
//! over rows of words of sixteen lanes side by side. Their fields are private, none can be copied, and none lends its
//! slice, so that a count tells of every word that was moved.

ghost use Rattle.std.specs.Prelude.{◌≡◌, ℕ, ◌+◌, ◌*◌, ◌%◌, ◌<◌, ◌≤◌, ◌++◌, drop, length, map, slice_index, take};
ghost use Rattle.fastlanes_base.specs.Counted.{Counted, Written, puts_row, puts_word, row_from, splice_row};

use crate::element::{FastLanes, MachineWord};
use std::marker::Model;

/// The place of word number `k` of a lane, or of the first of several lanes side by side.
#[inline(always)]
pub fn place_of_word<E: MachineWord>(width: usize, lane: usize, k: usize) -> usize
    requires width { width ≤ E.T }
    requires lane { lane ≤ E.LANES }
    requires word { k < width }
    ensures value { result ≡ E.LANES * k + lane }
    ensures within { (n : ℕ) → lane + n ≤ E.LANES → result + n ≤ E.LANES * width }
{
    E::LANES * k + lane
}

/// The row of a slice from one place on.
#[inline(always)]
fn read_row<E: MachineWord, const N: usize>(words: &[E], from: usize) -> [E; N]
    requires { from + N ≤ length words.now }
    ensures { result ≡ row_from N from words.now }
{
    match words[from..].first_chunk::<N>() {
        Some(row) => *row,
        None => unreachable!(),
    }
}

#[inline(always)]
fn set_row<E: MachineWord, const N: usize>(output: &mut [E], row: &[E; N])
    requires { length output.old ≡ N }
    ensures { output.new ≡ row.now }
{
    if let Some(words) = output.first_chunk_mut::<N>() {
        *words = *row;
    }
}

/// Writes a row to a slice, from one place on.
#[inline(always)]
fn write_row<E: MachineWord, const N: usize>(output: &mut [E], to: usize, row: &[E; N])
    requires { to + N ≤ length output.old }
    ensures { output.new ≡ splice_row to row.now output.old }
{
    set_row(&mut output[to..to + N], row);
}

/// The words of a lane, read one after another.
///
/// ```rust
/// use fastlanes::LaneWords;
///
/// let packed: [u8; 384] = std::array::from_fn(|i| (i / 128) as u8);
/// let mut words = LaneWords::<u8>::new(&packed, 3, 5);
/// assert_eq!(rt; (words.next_word(), words.next_word(), words.next_word()), (0, 1, 2));
/// assert_eq!(rt; words.taken(), 3);
/// ```
#[derive(Drop)]
pub struct LaneWords<'a, E>
where
    E: MachineWord,
{
    packed: &'a [E],
    width: usize,
    lane: usize,
    taken: usize,
}

impl<'a, E: MachineWord> Model for LaneWords<'a, E> {
    ghost use Rattle.fastlanes_base.specs.Counted.{Counted};
    ghost use Rattle.std.specs.Prelude.{◌≡◌, ◌*◌, ◌<◌, ◌≤◌, length};

    ghost Value = { Counted E };

    ghost view = { λ s. record { words = s.packed.now; width = s.width; lane = s.lane; count = s.taken } };

    ghost invariant = { λ s. (s.width ≤ E.T) × (s.lane < E.LANES) × (length s.packed.now ≡ E.LANES * s.width) };
}

impl<'a, E: MachineWord> LaneWords<'a, E> {
    /// A cursor before the first word of the lane.
    pub fn new(packed: &'a [E], width: usize, lane: usize) -> LaneWords<'a, E>
        requires width { width ≤ E.T }
        requires lane { lane < E.LANES }
        requires words { length packed.now ≡ E.LANES * width }
        ensures { result ≡ record { words = packed.now; width = width; lane = lane; count = 0 } }
    {
        LaneWords {
            packed,
            width,
            lane,
            taken: 0,
        }
    }

    /// The width: how many words the lane has.
    pub fn width(&self) -> usize
        ensures value { result ≡ self.now.width }
        ensures fits { result ≤ E.T }
    {
        self.width
    }

    /// The lane.
    pub fn lane(&self) -> usize
        ensures value { result ≡ self.now.lane }
        ensures below { result < E.LANES }
    {
        self.lane
    }

    /// How many words were taken.
    pub fn taken(&self) -> usize
        ensures { result ≡ self.now.count }
    {
        self.taken
    }

    /// The lane's next word.
    #[inline(always)]
    pub fn next_word(&mut self) -> E
        requires { self.old.count < self.old.width }
        ensures word { E.number result
            ≡ slice_index (map E.number self.old.words) (E.LANES * self.old.count + self.old.lane) }
        ensures step { self.new ≡ record self.old { count = self.old.count + 1 } }
    {
        let place = place_of_word::<E>(self.width, self.lane, self.taken);
        self.taken += 1;
        self.packed[place]
    }
}

/// The words of a lane, read in any order.
///
/// ```rust
/// use fastlanes::WordProbe;
///
/// let packed: [u8; 384] = std::array::from_fn(|i| (i / 128) as u8);
/// let mut probe = WordProbe::<u8>::new(&packed, 3, 5);
/// assert_eq!(rt; (probe.word(2), probe.word(0), probe.word(2)), (2, 0, 2));
/// assert_eq!(rt; probe.reads(), 3);
/// ```
#[derive(Drop)]
pub struct WordProbe<'a, E>
where
    E: MachineWord,
{
    packed: &'a [E],
    width: usize,
    lane: usize,
    reads: u32,
}

impl<'a, E: MachineWord> Model for WordProbe<'a, E> {
    ghost use Rattle.fastlanes_base.specs.Counted.{Counted};
    ghost use Rattle.std.specs.Prelude.{◌≡◌, ◌*◌, ◌<◌, ◌≤◌, length};

    ghost Value = { Counted E };

    ghost view = { λ s. record { words = s.packed.now; width = s.width; lane = s.lane; count = s.reads } };

    ghost invariant = { λ s. (s.width ≤ E.T) × (s.lane < E.LANES) × (length s.packed.now ≡ E.LANES * s.width) };
}

impl<'a, E: MachineWord> WordProbe<'a, E> {
    /// A probe of the lane, with no read so far.
    pub fn new(packed: &'a [E], width: usize, lane: usize) -> WordProbe<'a, E>
        requires width { width ≤ E.T }
        requires lane { lane < E.LANES }
        requires words { length packed.now ≡ E.LANES * width }
        ensures { result ≡ record { words = packed.now; width = width; lane = lane; count = 0 } }
    {
        WordProbe {
            packed,
            width,
            lane,
            reads: 0,
        }
    }

    /// The width: how many words the lane has.
    pub fn width(&self) -> usize
        ensures value { result ≡ self.now.width }
        ensures fits { result ≤ E.T }
    {
        self.width
    }

    /// The lane.
    pub fn lane(&self) -> usize
        ensures value { result ≡ self.now.lane }
        ensures below { result < E.LANES }
    {
        self.lane
    }

    /// How many words were read, each as often as it was.
    pub fn reads(&self) -> u32
        ensures { result ≡ self.now.count }
    {
        self.reads
    }

    /// Word number `k` of the lane.
    #[inline(always)]
    pub fn word(&mut self, k: usize) -> E
        requires word { k < self.old.width }
        requires room { self.old.count < 4294967295 }
        ensures word { E.number result
            ≡ slice_index (map E.number self.old.words) (E.LANES * k + self.old.lane) }
        ensures step { self.new ≡ record self.old { count = self.old.count + 1 } }
    {
        let place = place_of_word::<E>(self.width, self.lane, k);
        self.reads += 1;
        self.packed[place]
    }
}

/// The words of sixteen lanes side by side, read row by row.
///
/// ```rust
/// use fastlanes::RowWords;
///
/// let packed: [u8; 384] = std::array::from_fn(|i| (i / 128) as u8);
/// let mut words = RowWords::<u8>::new(&packed, 3, 16);
/// assert_eq!(rt; (words.next_row(), words.next_row()), ([0; 16], [1; 16]));
/// assert_eq!(rt; words.taken(), 2);
/// ```
#[derive(Drop)]
pub struct RowWords<'a, E>
where
    E: FastLanes,
{
    packed: &'a [E],
    width: usize,
    lane: usize,
    taken: usize,
}

impl<'a, E: FastLanes> Model for RowWords<'a, E> {
    ghost use Rattle.fastlanes_base.specs.Counted.{Counted};
    ghost use Rattle.std.specs.Prelude.{◌≡◌, ◌+◌, ◌*◌, ◌≤◌, length};

    ghost Value = { Counted E };

    ghost view = { λ s. record { words = s.packed.now; width = s.width; lane = s.lane; count = s.taken } };

    ghost invariant = { λ s. (s.width ≤ E.T) × (s.lane + 16 ≤ E.LANES) × (length s.packed.now ≡ E.LANES * s.width) };
}

impl<'a, E: FastLanes> RowWords<'a, E> {
    /// A cursor before the first row of words of the sixteen lanes from `lane` on.
    pub fn new(packed: &'a [E], width: usize, lane: usize) -> RowWords<'a, E>
        requires width { width ≤ E.T }
        requires lane { lane < E.LANES }
        requires group { lane % 16 ≡ 0 }
        requires words { length packed.now ≡ E.LANES * width }
        ensures { result ≡ record { words = packed.now; width = width; lane = lane; count = 0 } }
    {
        RowWords {
            packed,
            width,
            lane,
            taken: 0,
        }
    }

    /// The width: how many words each lane has.
    pub fn width(&self) -> usize
        ensures value { result ≡ self.now.width }
        ensures fits { result ≤ E.T }
    {
        self.width
    }

    /// The first of the sixteen lanes.
    pub fn lane(&self) -> usize
        ensures value { result ≡ self.now.lane }
        ensures fits { result + 16 ≤ E.LANES }
    {
        self.lane
    }

    /// How many rows of words were taken.
    pub fn taken(&self) -> usize
        ensures { result ≡ self.now.count }
    {
        self.taken
    }

    /// The next word of each of the sixteen lanes.
    #[inline(always)]
    pub fn next_row(&mut self) -> [E; 16]
        requires { self.old.count < self.old.width }
        ensures row { result
            ≡ row_from 16 (E.LANES * self.old.count + self.old.lane) self.old.words }
        ensures step { self.new ≡ record self.old { count = self.old.count + 1 } }
    {
        let from = place_of_word::<E>(self.width, self.lane, self.taken);
        self.taken += 1;
        read_row(self.packed, from)
    }
}

/// The words of a lane, written one after another.
///
/// ```rust
/// use fastlanes::LaneSink;
///
/// let mut packed = [9u8; 384];
/// let mut sink = LaneSink::<u8>::new(&mut packed, 3, 5);
/// sink.put_word(1);
/// sink.put_word(2);
/// assert_eq!(rt; sink.written(), 2);
/// assert_eq!(rt; (packed[5], packed[133], packed[261], packed[6]), (1, 2, 9, 9));
/// ```
#[derive(Drop)]
pub struct LaneSink<'a, E>
where
    E: MachineWord,
{
    packed: &'a mut [E],
    width: usize,
    lane: usize,
    written: usize,
    ghost width_fits: { width ≤ E.T },
    ghost lane_fits: { lane < E.LANES },
    ghost whole: { length packed.now ≡ E.LANES * width },
}

impl<'a, E: MachineWord> LaneSink<'a, E> {
    ghost use Rattle.fastlanes_base.specs.Sinks.{lane_sink};

    /// A sink before the first word of the lane.
    pub fn new(packed: &'a mut [E], width: usize, lane: usize) -> LaneSink<'a, E>
        requires width { width ≤ E.T }
        requires lane { lane < E.LANES }
        requires words { length packed.old ≡ E.LANES * width }
        ensures { lane_sink result
            ≡ record { target = packed.entry.ghost_name; words = packed.old; width = width; lane = lane; count = 0 } }
    {
        LaneSink {
            packed,
            width,
            lane,
            written: 0,
        }
    }

    /// The width: how many words the lane has.
    pub fn width(&self) -> usize
        ensures value { result ≡ (lane_sink self.now).width }
        ensures fits { result ≤ E.T }
    {
        self.width
    }

    /// The lane.
    pub fn lane(&self) -> usize
        ensures value { result ≡ (lane_sink self.now).lane }
        ensures below { result < E.LANES }
    {
        self.lane
    }

    /// How many words were written.
    pub fn written(&self) -> usize
        ensures { result ≡ (lane_sink self.now).count }
    {
        self.written
    }

    /// Writes the lane's next word, and no other.
    #[inline(always)]
    pub fn put_word(&mut self, word: E)
        requires { (lane_sink self.old).count < (lane_sink self.old).width }
        ensures { lane_sink self.new ≡ puts_word E.LANES word (lane_sink self.old) }
    {
        let place = place_of_word::<E>(self.width, self.lane, self.written);
        self.packed[place] = word;
        self.written += 1;
    }
}

/// The words of sixteen lanes side by side, written row by row.
///
/// ```rust
/// use fastlanes::RowSink;
///
/// let mut packed = [9u8; 384];
/// let mut sink = RowSink::<u8>::new(&mut packed, 3, 16);
/// sink.put_row(&[1; 16]);
/// sink.put_row(&[2; 16]);
/// assert_eq!(rt; sink.written(), 2);
/// assert_eq!(rt; (packed[15], packed[16], packed[31], packed[32]), (9, 1, 1, 9));
/// assert_eq!(rt; (packed[144], packed[272]), (2, 9));
/// ```
#[derive(Drop)]
pub struct RowSink<'a, E>
where
    E: FastLanes,
{
    packed: &'a mut [E],
    width: usize,
    lane: usize,
    written: usize,
    ghost width_fits: { width ≤ E.T },
    ghost lanes_fit: { lane + 16 ≤ E.LANES },
    ghost whole: { length packed.now ≡ E.LANES * width },
}

impl<'a, E: FastLanes> RowSink<'a, E> {
    ghost use Rattle.fastlanes_base.specs.Sinks.{row_sink};

    /// A sink before the first row of words of the sixteen lanes from `lane` on.
    pub fn new(packed: &'a mut [E], width: usize, lane: usize) -> RowSink<'a, E>
        requires width { width ≤ E.T }
        requires lane { lane < E.LANES }
        requires group { lane % 16 ≡ 0 }
        requires words { length packed.old ≡ E.LANES * width }
        ensures { row_sink result
            ≡ record { target = packed.entry.ghost_name; words = packed.old; width = width; lane = lane; count = 0 } }
    {
        RowSink {
            packed,
            width,
            lane,
            written: 0,
        }
    }

    /// The width: how many words each lane has.
    pub fn width(&self) -> usize
        ensures value { result ≡ (row_sink self.now).width }
        ensures fits { result ≤ E.T }
    {
        self.width
    }

    /// The first of the sixteen lanes.
    pub fn lane(&self) -> usize
        ensures value { result ≡ (row_sink self.now).lane }
        ensures fits { result + 16 ≤ E.LANES }
    {
        self.lane
    }

    /// How many rows of words were written.
    pub fn written(&self) -> usize
        ensures { result ≡ (row_sink self.now).count }
    {
        self.written
    }

    /// Writes the next word of each of the sixteen lanes, and no other.
    #[inline(always)]
    pub fn put_row(&mut self, words: &[E; 16])
        requires { (row_sink self.old).count < (row_sink self.old).width }
        ensures { row_sink self.new ≡ puts_row E.LANES words.now (row_sink self.old) }
    {
        let to = place_of_word::<E>(self.width, self.lane, self.written);
        write_row(self.packed, to, words);
        self.written += 1;
    }
}
