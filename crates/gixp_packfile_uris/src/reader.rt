//! A reader of packet lines that removes the section `packfile-uris`.
ghost use Rattle.std.specs.Prelude.{◌≡◌, if◌then◌else◌, [], ◌∷◌, ◌+◌, ◌<◌, ◌≤◌, length, take, true, false, vec_len, IfOk, IfSome};
ghost use Rattle.std.specs.Option.{option_map};
ghost use Rattle.std.specs.Io.{ReadsAtMost};
ghost use Rattle.std.specs.Io.KnownBytes.{Consumes, ReadConsumes};
ghost use Rattle.gixp_packetline.specs.Frames.{size_of};
ghost use Rattle.gixp_packfile_uris.specs.Parts.{in_uris, after_delimiter, delimiter_after, flush_after, line_after, digits_after, fate_after, takes_uri, parts_of, to_come, lines_of, refused_of, passed_from, lines_from, refused_from, steps_of, ReadsInto, ReadsHeld, PassesOrSteps};
ghost use Rattle.gixp_packfile_uris.specs.Order.{is_holding};
ghost use Rattle.gixp_packfile_uris.specs.Sink.{TakesLines, all_lines, SameKnown, IsKnownFalse};

use crate::line::{fate, text_of};
use crate::place::{After, Fate, LinePlace, Next, PackfileUris, UriSink};
use hex;
use std::alloc::{AllocError, Global};
use std::io;
use std::io::{ErrorKind, Read};

// The number of bytes of the longest packet line.
const MOST_BYTES: usize = 65520;

// `None` where a byte is not a hexadecimal digit.
fn size_of(digits: &[u8]) -> Option<usize>
    requires { length digits.now ≡ 4 }
    ensures { result ≡ size_of digits.now }
{
    let mut pair = [0; 2];
    match hex::decode_to_slice(digits, &mut pair) {
        Ok(()) => {
            let [high, low] = pair;
            Some(usize::from(high) * 256 + usize::from(low))
        }
        Err(_) => None,
    }
}

fn in_uris(place: LinePlace) -> bool
    ensures { result ≡ in_uris place }
{
    match place {
        LinePlace::Uris(_) => true,
        LinePlace::SectionStart | LinePlace::Section | LinePlace::Over => false,
    }
}

// Where a section begins after a delimiter packet.
fn after_delimiter(place: LinePlace) -> LinePlace
    ensures { result ≡ after_delimiter place }
{
    match place {
        LinePlace::SectionStart | LinePlace::Section => LinePlace::SectionStart,
        LinePlace::Uris(_) | LinePlace::Over => LinePlace::Over,
    }
}

fn delimiter_after(place: LinePlace) -> After
    ensures { result ≡ delimiter_after place }
{
    if in_uris(place) {
        After {
            place: LinePlace::Over,
            next: Next::Hold(4),
            count: 0,
        }
    } else {
        After {
            place: after_delimiter(place),
            next: Next::Payload(0),
            count: 4,
        }
    }
}

// What comes after a flush or response-end packet.
fn flush_after(place: LinePlace) -> After
    ensures { result ≡ flush_after place }
{
    if in_uris(place) {
        After {
            place,
            next: Next::Refused,
            count: 0,
        }
    } else {
        After {
            place: LinePlace::SectionStart,
            next: Next::Payload(0),
            count: 4,
        }
    }
}

// What comes after the digits of a line of this size.
fn line_after(place: LinePlace, size: usize) -> After
    ensures { result ≡ line_after place size }
{
    let next = match place {
        LinePlace::SectionStart | LinePlace::Uris(_) => Next::Hold(size),
        LinePlace::Section | LinePlace::Over => Next::Payload(size.saturating_sub(4)),
    };
    After {
        place,
        next,
        count: 4,
    }
}

// What comes after the four digits of a packet line.
fn digits_after(place: LinePlace, size: Option<usize>) -> After
    ensures { result ≡ digits_after place size }
{
    match size {
        Some(1) => delimiter_after(place),
        Some(0 | 2) => flush_after(place),
        Some(size) if size > 4 && size <= MOST_BYTES => line_after(place, size),
        _ => After {
            place,
            next: Next::Rest,
            count: 4,
        },
    }
}

// What comes after a whole line of `count` bytes.
fn fate_after(place: LinePlace, fate: Fate, count: usize) -> After
    ensures { result ≡ fate_after place fate count }
{
    match fate {
        Fate::Pass(place) => After {
            place,
            next: Next::Payload(0),
            count,
        },
        Fate::Take(place) => After {
            place,
            next: Next::Hold(4),
            count: 0,
        },
        Fate::Refuse => After {
            place,
            next: Next::Refused,
            count: 0,
        },
    }
}

fn takes_uri(place: LinePlace, fate: Fate) -> bool
    ensures { result ≡ takes_uri place fate }
{
    match fate {
        Fate::Take(_) => in_uris(place),
        Fate::Pass(_) | Fate::Refuse => false,
    }
}

// Passes the line to the sink if `is_taken`.
fn take_if<S: UriSink>(sink: &mut S, is_taken: bool, line: &[u8])
    ensures { TakesLines (S.lines sink.old) (S.lines sink.new) (if is_taken then line.now ∷ [] else []) }
{
    if is_taken {
        sink.take(line);
    }
}

// Reads into the space between these offsets.
fn read_into<R: Read>(
    reader: &mut R,
    room: &mut Vec<u8>,
    end: usize,
    size: usize,
) -> io::Result<usize>
    requires order { end < size }
    requires there { size ≤ vec_len room.old }
    ensures len { vec_len room.new ≡ vec_len room.old }
    ensures front { take end room.new.items ≡ take end room.old.items }
    ensures bytes { ReadsInto (R.remaining reader.old) (R.remaining reader.new) end size room.new.items result }
{
    reader.read(&mut room[end..size])
}

impl<R: Read + Drop, S: UriSink + Drop> PackfileUris<R, S> {
    /// Passes on the packet lines of this reader, which must be at the start of a capability advertisement or of a response.
    ///
    /// # Errors
    ///
    /// Only an allocation failure.
    pub fn new(alloc: Global, reader: R, sink: S) -> Result<PackfileUris<R, S>, AllocError>
        ensures bytes { IfOk result (λ p. to_come R.remaining p ≡ option_map (λ bytes. (parts_of bytes).passed) (R.remaining reader)) }
        ensures lines { IfOk result (λ p. lines_of R.remaining S.lines p
            ≡ all_lines (S.lines sink) (option_map (λ bytes. (parts_of bytes).lines) (R.remaining reader))) }
        ensures refusal { IfOk result (λ p. refused_of R.remaining p
            ≡ option_map (λ bytes. (parts_of bytes).is_refused) (R.remaining reader)) }
        ensures unread { IfOk result (λ p. p.reader ≡ reader) }
    {
        Ok(PackfileUris {
            reader,
            sink,
            place: LinePlace::SectionStart,
            next: Next::Hold(4),
            room: vec![in alloc; 0; MOST_BYTES]?,
            start: 0,
            end: 0,
        })
    }
}

impl<R: Read, S: UriSink> PackfileUris<R, S> {
    // Passes on held bytes.
    fn give(&mut self, buf: &mut [u8]) -> usize
        requires held { self.old.start < self.old.end }
        requires known { is_holding self.old.next ≡ false }
        requires room { 0 < length buf.old }
        ensures some { 0 < result }
        ensures bound { result ≤ length buf.new }
        ensures given { Consumes (to_come R.remaining self.old) (to_come R.remaining self.new) (take result buf.new) }
        ensures lines { SameKnown (lines_of R.remaining S.lines self.old) (lines_of R.remaining S.lines self.new) }
        ensures refusal { SameKnown (refused_of R.remaining self.old) (refused_of R.remaining self.new) }
    {
        let count = (self.end - self.start).min(buf.len());
        let end = self.start + count;
        buf[..count].copy_from_slice(&self.room[self.start..end]);
        self.start = end;
        count
    }

    // Goes on after the four digits of a packet line.
    fn begin_line(&mut self)
        requires { self.old.next ≡ Next.Hold 4 }
        ensures bytes { to_come R.remaining self.new
            ≡ passed_from self.old.place 4 (take 4 self.old.room.items) (R.remaining self.old.reader) }
        ensures lines { SameKnown (lines_from (S.lines self.old.sink) self.old.place 4 (take 4 self.old.room.items)
            (R.remaining self.old.reader)) (lines_of R.remaining S.lines self.new) }
        ensures refusal { refused_of R.remaining self.new ≡ refused_from self.old.place 4 (take 4 self.old.room.items) (R.remaining self.old.reader) }
        ensures fewer { steps_of self.new < steps_of self.old }
    {
        let after = digits_after(self.place, size_of(&self.room[..4]));
        self.place = after.place;
        self.next = after.next;
        self.end = after.count;
    }

    // Goes on after a whole line of `size` bytes.
    fn end_line(&mut self, size: usize)
        requires held { self.old.next ≡ Next.Hold size }
        requires line { 4 < size }
        ensures bytes { to_come R.remaining self.new
            ≡ passed_from self.old.place size (take size self.old.room.items) (R.remaining self.old.reader) }
        ensures lines { SameKnown (lines_from (S.lines self.old.sink) self.old.place size (take size self.old.room.items)
            (R.remaining self.old.reader)) (lines_of R.remaining S.lines self.new) }
        ensures refusal { refused_of R.remaining self.new ≡ refused_from self.old.place size (take size self.old.room.items) (R.remaining self.old.reader) }
        ensures fewer { steps_of self.new < steps_of self.old }
    {
        let line = &self.room[4..size];
        let fate = fate(self.place, line);
        take_if(&mut self.sink, takes_uri(self.place, fate), text_of(line));
        let after = fate_after(self.place, fate, size);
        self.place = after.place;
        self.next = after.next;
        self.end = after.count;
    }

    // Goes on with the first `end` bytes of a line in the buffer.
    fn take_bytes(&mut self, size: usize, end: usize)
        requires held { self.old.next ≡ Next.Hold size }
        requires more { self.old.end < end }
        requires bound { end ≤ size }
        ensures bytes { to_come R.remaining self.new
            ≡ passed_from self.old.place size (take end self.old.room.items) (R.remaining self.old.reader) }
        ensures lines { SameKnown (lines_from (S.lines self.old.sink) self.old.place size (take end self.old.room.items)
            (R.remaining self.old.reader)) (lines_of R.remaining S.lines self.new) }
        ensures refusal { refused_of R.remaining self.new ≡ refused_from self.old.place size (take end self.old.room.items) (R.remaining self.old.reader) }
        ensures fewer { steps_of self.new < steps_of self.old }
    {
        if end < size {
            self.end = end;
        } else if size == 4 {
            self.begin_line();
        } else {
            self.end_line(size);
        }
    }

    // Reads more of a line. Returns true at the end of the reader, after which nothing is passed on.
    fn read_held(&mut self, size: usize) -> io::Result<bool>
        requires { self.old.next ≡ Next.Hold size }
        ensures bytes { ReadsHeld (to_come R.remaining self.old) (to_come R.remaining self.new) (steps_of self.old) (steps_of self.new)
            result }
        ensures end { IfOk result (λ is_end. is_end ≡ true → IsKnownFalse (refused_of R.remaining self.new)) }
        ensures lines { SameKnown (lines_of R.remaining S.lines self.old) (lines_of R.remaining S.lines self.new) }
        ensures refusal { SameKnown (refused_of R.remaining self.old) (refused_of R.remaining self.new) }
    {
        let count = read_into(&mut self.reader, &mut self.room, self.end, size)?;
        if count > 0 {
            self.take_bytes(size, self.end + count);
            return Ok(false);
        }
        if self.end == 0 {
            return Ok(true);
        }
        self.next = Next::Rest;
        Ok(false)
    }

    // Reads part of a payload.
    fn read_payload(&mut self, left: usize, buf: &mut [u8]) -> io::Result<usize>
        requires some { 0 < left }
        requires next { self.old.next ≡ Next.Payload left }
        requires all_given { self.old.start ≡ self.old.end }
        requires room { 0 < length buf.old }
        ensures bound { ReadsAtMost result buf.new }
        ensures bytes { ReadConsumes (to_come R.remaining self.old) (to_come R.remaining self.new) result buf.new }
        ensures end { IfOk result (λ n. n ≡ 0 → IsKnownFalse (refused_of R.remaining self.new)) }
        ensures lines { SameKnown (lines_of R.remaining S.lines self.old) (lines_of R.remaining S.lines self.new) }
        ensures refusal { SameKnown (refused_of R.remaining self.old) (refused_of R.remaining self.new) }
    {
        let most = left.min(buf.len());
        let count = self.reader.read(&mut buf[..most])?;
        self.next = Next::Payload(left - count);
        Ok(count)
    }

    // Passes on what it can, or goes a step further.
    fn step(&mut self, buf: &mut [u8]) -> io::Result<Option<usize>>
        requires { 0 < length buf.old }
        ensures bytes { PassesOrSteps (to_come R.remaining self.old) (to_come R.remaining self.new) (steps_of self.old) (steps_of self.new)
            buf.new result }
        ensures end { IfOk result (λ found. IfSome found (λ n. n ≡ 0 → IsKnownFalse (refused_of R.remaining self.new))) }
        ensures lines { SameKnown (lines_of R.remaining S.lines self.old) (lines_of R.remaining S.lines self.new) }
        ensures refusal { SameKnown (refused_of R.remaining self.old) (refused_of R.remaining self.new) }
    {
        if let Next::Hold(size) = self.next {
            if self.read_held(size)? {
                return Ok(Some(0));
            }
            return Ok(None);
        }
        if self.start < self.end {
            return Ok(Some(self.give(buf)));
        }
        match self.next {
            Next::Payload(0) => {
                self.start = 0;
                self.end = 0;
                self.next = Next::Hold(4);
                Ok(None)
            }
            Next::Payload(left) => Ok(Some(self.read_payload(left, buf)?)),
            Next::Rest => Ok(Some(self.reader.read(buf)?)),
            Next::Refused | Next::Hold(_) => Err(io::Error::from(ErrorKind::InvalidData)),
        }
    }

    /// Reads as `Read::read` does, which calls this. The contract also covers the lines of the sink and invalid lines.
    ///
    /// # Errors
    ///
    /// Those of the reader inside, and `InvalidData` once a line was invalid.
    pub fn read_passing(&mut self, buf: &mut [u8]) -> io::Result<usize>
        ensures bound { ReadsAtMost result buf.new }
        ensures bytes { ReadConsumes (to_come R.remaining self.old) (to_come R.remaining self.new) result buf.new }
        ensures end { IfOk result (λ n. n ≡ 0 → 0 < length buf.new → IsKnownFalse (refused_of R.remaining self.new)) }
        ensures lines { SameKnown (lines_of R.remaining S.lines self.old) (lines_of R.remaining S.lines self.new) }
        ensures refusal { SameKnown (refused_of R.remaining self.old) (refused_of R.remaining self.new) }
    {
        if buf.is_empty() {
            return Ok(0);
        }
        loop {
            if let Some(count) = self.step(buf)? {
                return Ok(count);
            }
        }
    }
}

impl<R: Read, S: UriSink> Read for PackfileUris<R, S> {
    ghost remaining = { to_come R.remaining };

    fn read(&mut self, buf: &mut [u8]) -> io::Result<usize> {
        self.read_passing(buf)
    }
}
