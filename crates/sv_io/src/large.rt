// A source and a sink for inputs and outputs that are too large to be kept.
ghost use Rattle.std.specs.Prelude.{◌≡◌, ◌+◌, ◌≤◌, ◌<◌, ◌-◌, ◌∷◌, ◌++◌, ◌↔◌, ◌⊎◌, true, false, []};
ghost use Rattle.std.specs.Prelude.{IsTrue, take, drop, length, min, vec_len, Ok, IfOk, IfSome};
ghost use Rattle.std.specs.Prelude.{IfNone};
ghost use Rattle.sv_io.specs.Repeated.{repeated};

use super::faults::{Failed, PutFault};
use super::history::{ByteRun, Passed};
use super::pieces::shows_end;
use super::traits::{Sink, Source};

/// A source of a head and then a line, so many times, in memory. It never fails and keeps the line
/// once, so that a large input costs little.
#[derive(Drop)]
pub struct RepeatSource {
    head: Vec<u8>,
    line: Vec<u8>,
    // How many bytes of the head were given, of the line that is begun, and how many lines are
    // left, this one among them.
    at: usize,
    column: usize,
    lines: u32,
    most: usize,
    ended: bool,
    given: Passed,
    ghost in_head: { at ≤ vec_len head },
    ghost in_line: { column ≤ vec_len line - 1 },
    ghost some: { 1 ≤ most },
}

impl RepeatSource {
    ghost use Rattle.sv_io.specs.Large.{repeat_given, repeat_left, repeat_ended, repeat_most};

    /// A source with the head left and then the line, `times` times, of which a take moves at most
    /// `most` bytes.
    pub fn new(head: Vec<u8>, line: Vec<u8>, times: u32, most: usize) -> RepeatSource
        requires { 1 ≤ most }
        ensures none_given { repeat_given result ≡ [] }
        ensures left { repeat_left result ≡ head.items ++ repeated times line.items }
        ensures not_ended { repeat_ended result ≡ false }
        ensures most { repeat_most result ≡ most }
    {
        RepeatSource {
            head,
            line,
            at: 0,
            column: 0,
            lines: times,
            most,
            ended: false,
            given: Passed::new(),
        }
    }

    // Fills the front of the buffer with the next bytes, and says how many.
    fn fill(&mut self, buf: &mut [u8]) -> usize
        ensures moved { result ≡ min (length (repeat_left self.old)) (length buf.old) }
        ensures taken { repeat_left self.old ≡ take result buf.new ++ repeat_left self.new }
        ensures given { self.new.given ≡ self.old.given }
        ensures ended { self.new.ended ≡ self.old.ended }
        ensures most { self.new.most ≡ self.old.most }
    {
        let mut count = 0;
        while count < buf.len() {
            let Some(byte) = self.next_byte() else {
                return count;
            };
            buf[count] = byte;
            count += 1;
        }
        count
    }

    // The next byte, which is passed.
    fn next_byte(&mut self) -> Option<u8>
        ensures next { IfSome result
            (λ byte. repeat_left self.old ≡ byte ∷ repeat_left self.new) }
        ensures end { IfNone result
            ((repeat_left self.old ≡ []) × (repeat_left self.new ≡ [])) }
        ensures given { self.new.given ≡ self.old.given }
        ensures ended { self.new.ended ≡ self.old.ended }
        ensures most { self.new.most ≡ self.old.most }
    {
        if self.at < self.head.len() {
            let byte = self.head[self.at];
            self.at += 1;
            return Some(byte);
        }
        if self.lines == 0 {
            return None;
        }
        if self.line.is_empty() {
            return None;
        }
        let byte = self.line[self.column];
        self.pass_column();
        Some(byte)
    }

    // Goes on to the next byte of the lines.
    fn pass_column(&mut self)
        requires { (0 < self.old.lines) × (0 < vec_len self.old.line)
            × (vec_len self.old.head ≤ self.old.at) }
        ensures left { repeat_left self.new ≡
            drop (self.old.column + 1) (repeated self.old.lines self.old.line.items) }
        ensures given { self.new.given ≡ self.old.given }
        ensures ended { self.new.ended ≡ self.old.ended }
        ensures most { self.new.most ≡ self.old.most }
    {
        let column = self.column + 1;
        if column == self.line.len() {
            self.column = 0;
            self.lines -= 1;
        } else {
            self.column = column;
        }
    }
}

impl Source for RepeatSource {
    ghost use Rattle.sv_io.specs.Large.{repeat_given, repeat_left, repeat_ended, repeat_most};

    ghost given = { repeat_given };

    ghost tells = { true };

    ghost left = { repeat_left };

    ghost ended = { repeat_ended };

    ghost faults = { λ _. 0 };

    fn take(&mut self, buf: &mut [u8]) -> Result<usize, Failed>
        ensures room { length buf.new ≡ length buf.old }
        ensures moved { result ≡
            Ok (min (repeat_most self.old) (min (length (repeat_left self.old)) (length buf.old))) }
        ensures within { IfOk result (λ count. count ≤ length buf.new) }
        ensures given { IfOk result (λ count.
            repeat_given self.new ≡ repeat_given self.old ++ take count buf.new) }
        ensures taken { IfOk result (λ count.
            repeat_left self.old ≡ take count buf.new ++ repeat_left self.new) }
        ensures end { 0 < length buf.old →
            IfOk result (λ count. (count ≡ 0) ↔ (repeat_left self.old ≡ [])) }
        ensures ended { IsTrue (repeat_ended self.new) ↔
            (IsTrue (repeat_ended self.old) ⊎ ((result ≡ Ok 0) × (0 < length buf.old))) }
        ensures most { repeat_most self.new ≡ repeat_most self.old }
    {
        let wanted = self.most.min(buf.len());
        let count = self.fill(&mut buf[..wanted]);
        self.given = self.given.and(&ByteRun {
            bytes: &buf[..count],
        });
        self.ended = self.ended || shows_end(count, buf);
        Ok(count)
    }
}

/// A sink that accepts all that is put and keeps nothing of it but how many bytes there were. It
/// never fails.
#[derive(Drop)]
pub struct TallySink {
    count: u64,
    accepted: Passed,
    ghost counted: { count ≡ min (length accepted.bytes) 18446744073709551615 },
}

impl TallySink {
    ghost use Rattle.sv_io.specs.Large.{tally_accepted};

    /// A sink that accepted nothing.
    pub fn new() -> TallySink
        ensures { tally_accepted result ≡ [] }
    {
        TallySink {
            count: 0,
            accepted: Passed::new(),
        }
    }

    /// How many bytes were put, or the greatest u64 once there were so many.
    pub fn bytes(&self) -> u64
        ensures { result ≡ min (length (tally_accepted self.now)) 18446744073709551615 }
    {
        self.count
    }
}

impl Sink for TallySink {
    ghost use Rattle.sv_io.specs.Large.{tally_accepted};

    ghost accepted = { tally_accepted };

    ghost faults = { λ _. 0 };

    fn put(&mut self, piece: &[u8]) -> Result<usize, PutFault>
        requires { 0 < length piece.now }
        ensures whole { result ≡ Ok (length piece.now) }
        ensures accepted { tally_accepted self.new ≡ tally_accepted self.old ++ piece.now }
    {
        self.count = self.count.saturating_add(piece.len() as u64);
        self.accepted = self.accepted.and(&ByteRun { bytes: piece });
        Ok(piece.len())
    }
}
