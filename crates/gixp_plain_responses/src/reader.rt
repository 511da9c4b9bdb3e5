//! A reader of packet lines that passes on detailed acknowledgements and packs in band 1.
ghost use Rattle.std.specs.Prelude.{◌≡◌, ◌+◌, ◌<◌, ◌≤◌, length, take, slice_range, true, false, vec_len, IfOk};
ghost use Rattle.std.specs.Option.{option_map};
ghost use Rattle.std.specs.Io.{ReadsAtMost};
ghost use Rattle.std.specs.Io.KnownBytes.{Keeps, Consumes, IsAtEnd, ReadConsumes};
ghost use Rattle.gixp_plain_responses.specs.Order.{is_holding, is_content, offset_of, limit_of};
ghost use Rattle.gixp_plain_responses.specs.Translation.{translated, to_come, whole_from, translated_from, steps_of, ReadsRoom, EndsWanted, ReadsWanted, TranslatesOrSteps};

use crate::line::{MOST_BYTES, is_continue, next_of};
use crate::place::{Next, PlainResponses, Wanted};
use crate::room::{write_at, write_band, write_common, write_last};
use std::alloc::{AllocError, Global};
use std::io;
use std::io::Read;

// The offset at which what is wanted ends.
fn limit_of(wanted: Wanted) -> usize
    ensures { result ≡ limit_of wanted }
{
    match wanted {
        Wanted::Digits => 4,
        Wanted::Line(size) => size,
        Wanted::Content => MOST_BYTES,
    }
}

fn is_content(next: Next) -> bool
    ensures { result ≡ is_content next }
{
    match next {
        Next::Hold(Wanted::Content) => true,
        _ => false,
    }
}

// Reads into the space between these offsets.
fn read_into<R: Read>(
    reader: &mut R,
    room: &mut Vec<u8>,
    end: usize,
    limit: usize,
) -> io::Result<usize>
    requires order { end < limit }
    requires there { limit ≤ vec_len room.old }
    ensures len { vec_len room.new ≡ vec_len room.old }
    ensures front { take end room.new.items ≡ take end room.old.items }
    ensures bytes { ReadsRoom (R.remaining reader.old) (R.remaining reader.new) end limit room.new.items result }
{
    reader.read(&mut room[end..limit])
}

impl<R: Read + Drop> PlainResponses<R> {
    /// Passes on the packet lines of this reader, which must be at the start of a reference advertisement or of a response.
    ///
    /// # Errors
    ///
    /// Only an allocation failure.
    pub fn new(alloc: Global, reader: R) -> Result<PlainResponses<R>, AllocError>
        ensures bytes { IfOk result (λ p. to_come R.remaining p ≡ option_map translated (R.remaining reader)) }
        ensures unread { IfOk result (λ p. p.reader ≡ reader) }
    {
        Ok(PlainResponses {
            reader,
            next: Next::Hold(Wanted::Digits),
            room: vec![in alloc; 0; MOST_BYTES + 4]?,
            start: 0,
            end: 0,
        })
    }
}

impl<R: Read> PlainResponses<R> {
    // Passes on held bytes.
    fn give(&mut self, buf: &mut [u8]) -> usize
        requires held { self.old.start < self.old.end }
        requires known { is_holding self.old.next ≡ false }
        requires room { 0 < length buf.old }
        ensures some { 0 < result }
        ensures bound { result ≤ length buf.new }
        ensures given { Consumes (to_come R.remaining self.old) (to_come R.remaining self.new) (take result buf.new) }
    {
        let count = (self.end - self.start).min(buf.len());
        let end = self.start + count;
        buf[..count].copy_from_slice(&self.room[self.start..end]);
        self.start = end;
        count
    }

    // Goes on after four bytes in place of digits.
    fn begin_line(&mut self)
        requires { self.old.next ≡ Next.Hold Wanted.Digits }
        ensures bytes { to_come R.remaining self.new
            ≡ option_map (whole_from Wanted.Digits (slice_range self.old.room.items 0 4)) (R.remaining self.old.reader) }
        ensures fewer { steps_of self.new < steps_of self.old }
    {
        self.next = next_of(&self.room[..4]);
        if is_content(self.next) {
            write_at(&mut self.room, 5, b"PACK");
            self.start = 5;
            self.end = 9;
        } else {
            self.end = 4;
        }
    }

    // Goes on after a whole line of `size` bytes.
    fn end_line(&mut self, size: usize)
        requires { self.old.next ≡ Next.Hold (Wanted.Line size) }
        ensures bytes { to_come R.remaining self.new
            ≡ option_map (whole_from (Wanted.Line size) (slice_range self.old.room.items 0 size)) (R.remaining self.old.reader) }
        ensures fewer { steps_of self.new < steps_of self.old }
    {
        self.next = Next::Payload(0);
        if is_continue(&self.room[4..size]) {
            write_common(&mut self.room);
            self.end = 56;
        } else {
            self.end = size;
        }
    }

    // Goes on after the content of a packet of band 1.
    fn end_content(&mut self)
        requires { self.old.next ≡ Next.Hold Wanted.Content }
        ensures bytes { to_come R.remaining self.new
            ≡ option_map (whole_from Wanted.Content (slice_range self.old.room.items 5 65520)) (R.remaining self.old.reader) }
        ensures fewer { steps_of self.new < steps_of self.old }
    {
        write_band(&mut self.room, MOST_BYTES);
        self.start = 0;
        self.end = MOST_BYTES;
        self.next = Next::Pack;
    }

    // Goes on after all wanted bytes.
    fn end_wanted(&mut self, wanted: Wanted)
        requires { self.old.next ≡ Next.Hold wanted }
        ensures bytes { to_come R.remaining self.new
            ≡ option_map (whole_from wanted (slice_range self.old.room.items (offset_of wanted) (limit_of wanted)))
            (R.remaining self.old.reader) }
        ensures fewer { steps_of self.new < steps_of self.old }
    {
        match wanted {
            Wanted::Digits => self.begin_line(),
            Wanted::Line(size) => self.end_line(size),
            Wanted::Content => self.end_content(),
        }
    }

    // Goes on with the bytes up to `end` in the buffer.
    fn take_bytes(&mut self, wanted: Wanted, end: usize)
        requires held { self.old.next ≡ Next.Hold wanted }
        requires more { self.old.end < end }
        requires bound { end ≤ limit_of wanted }
        ensures bytes { to_come R.remaining self.new
            ≡ option_map (translated_from wanted (slice_range self.old.room.items (offset_of wanted) end)) (R.remaining self.old.reader) }
        ensures fewer { steps_of self.new < steps_of self.old }
    {
        if end < limit_of(wanted) {
            self.end = end;
        } else {
            self.end_wanted(wanted);
        }
    }

    // Ends the pack after the held content.
    fn end_pack(&mut self)
        requires held { self.old.next ≡ Next.Hold Wanted.Content }
        requires end { IsAtEnd (R.remaining self.old.reader) }
        ensures bytes { Keeps (to_come R.remaining self.old) (to_come R.remaining self.new) }
        ensures fewer { steps_of self.new < steps_of self.old }
    {
        self.end = write_last(&mut self.room, self.end);
        self.start = 0;
        self.next = Next::Nothing;
    }

    // Goes on at the end of the reader. Returns true if nothing is left to pass on.
    fn end_held(&mut self) -> bool
        requires held { is_holding self.old.next ≡ true }
        requires end { IsAtEnd (R.remaining self.old.reader) }
        ensures { EndsWanted (to_come R.remaining self.old) (to_come R.remaining self.new) (steps_of self.old) (steps_of self.new) result }
    {
        if is_content(self.next) {
            self.end_pack();
            return false;
        }
        if self.end == 0 {
            return true;
        }
        self.next = Next::Rest;
        false
    }

    // Reads more of what is wanted. Returns true at the end of the reader if nothing is left to pass on.
    fn read_held(&mut self, wanted: Wanted) -> io::Result<bool>
        requires { self.old.next ≡ Next.Hold wanted }
        ensures { ReadsWanted (to_come R.remaining self.old) (to_come R.remaining self.new) (steps_of self.old) (steps_of self.new) result }
    {
        let limit = limit_of(wanted);
        let count = read_into(&mut self.reader, &mut self.room, self.end, limit)?;
        if count > 0 {
            self.take_bytes(wanted, self.end + count);
            return Ok(false);
        }
        Ok(self.end_held())
    }

    // Reads part of a payload.
    fn read_payload(&mut self, left: usize, buf: &mut [u8]) -> io::Result<usize>
        requires some { 0 < left }
        requires next { self.old.next ≡ Next.Payload left }
        requires all_given { self.old.start ≡ self.old.end }
        requires room { 0 < length buf.old }
        ensures bound { ReadsAtMost result buf.new }
        ensures bytes { ReadConsumes (to_come R.remaining self.old) (to_come R.remaining self.new) result buf.new }
    {
        let most = left.min(buf.len());
        let count = self.reader.read(&mut buf[..most])?;
        self.next = Next::Payload(left - count);
        Ok(count)
    }

    // Passes on what it can, or goes a step further.
    fn step(&mut self, buf: &mut [u8]) -> io::Result<Option<usize>>
        requires { 0 < length buf.old }
        ensures { TranslatesOrSteps (to_come R.remaining self.old) (to_come R.remaining self.new) (steps_of self.old) (steps_of self.new)
            buf.new result }
    {
        match self.next {
            Next::Hold(wanted) => {
                if self.read_held(wanted)? {
                    return Ok(Some(0));
                }
                Ok(None)
            }
            Next::Payload(left) => {
                if self.start < self.end {
                    return Ok(Some(self.give(buf)));
                }
                if left > 0 {
                    return Ok(Some(self.read_payload(left, buf)?));
                }
                self.start = 0;
                self.end = 0;
                self.next = Next::Hold(Wanted::Digits);
                Ok(None)
            }
            Next::Pack => {
                if self.start < self.end {
                    return Ok(Some(self.give(buf)));
                }
                self.start = 5;
                self.end = 5;
                self.next = Next::Hold(Wanted::Content);
                Ok(None)
            }
            Next::Rest => {
                if self.start < self.end {
                    return Ok(Some(self.give(buf)));
                }
                Ok(Some(self.reader.read(buf)?))
            }
            Next::Nothing => {
                if self.start < self.end {
                    return Ok(Some(self.give(buf)));
                }
                Ok(Some(0))
            }
        }
    }
}

impl<R: Read> Read for PlainResponses<R> {
    ghost remaining = { to_come R.remaining };

    fn read(&mut self, buf: &mut [u8]) -> io::Result<usize> {
        if buf.is_empty() {
            return Ok(0);
        }
        loop {
            if let Some(count) = self.step(buf)? {
                return Ok(count);
            }
        }
    }
}
