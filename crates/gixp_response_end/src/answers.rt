//! A reader of packet lines that passes on whole responses.
ghost use Rattle.std.specs.Prelude.{◌≡◌, ◌<◌, ◌≤◌, true, false, length, take, IfOk};
ghost use Rattle.std.specs.Option.{option_map};
ghost use Rattle.std.specs.Io.{ReadsAtMost};
ghost use Rattle.std.specs.Io.KnownBytes.{Consumes, ReadConsumes};
ghost use Rattle.gixp_packetline.specs.Frames.{size_of};
ghost use Rattle.gixp_response_end.specs.Order.{needs_digits};
ghost use Rattle.gixp_response_end.specs.Answers.{is_number, next_of, given_count, advertised_after, passed_on, passed_from, to_come, steps_of, ReadsDigits, GivesOrSteps};

use crate::place::{Answers, Next};
use hex;
use std::io;
use std::io::Read;

// `None` where a byte is not a hexadecimal digit.
fn size_of(digits: &[u8]) -> Option<usize>
    requires { length digits.now ≡ 4 }
    ensures { result ≡ size_of digits.now }
{
    let mut pair = [0; 2];
    match hex::decode_to_slice(digits, &mut pair) {
        Ok(()) => {
            let [high, low] = pair;
            Some(usize::from(high) * 256 + usize::from(low))
        }
        Err(_) => None,
    }
}

// What follows four digits of a packet line.
fn next_of(advertised: bool, size: Option<usize>) -> Next
    ensures { result ≡ next_of advertised size }
{
    match size {
        Some(0) if advertised => Next::AnswerEnd,
        Some(2) => Next::Nothing,
        Some(size) => Next::Payload(size.saturating_sub(4)),
        None => Next::Rest,
    }
}

// Whether the flush packet of the advertisement has been read, these digits included.
fn advertised_after(advertised: bool, size: Option<usize>) -> bool
    ensures { result ≡ advertised_after advertised size }
{
    match size {
        Some(0) => true,
        _ => advertised,
    }
}

// Whether these are the digits of a response-end packet.
fn is_response_end(size: Option<usize>) -> bool
    ensures { result ≡ is_number 2 size }
{
    match size {
        Some(size) => size == 2,
        None => false,
    }
}

// How many of four digits are passed on before what follows them.
fn given_count(next: Next) -> usize
    ensures { result ≡ given_count next }
{
    match next {
        Next::Payload(_) | Next::Rest => 4,
        _ => 0,
    }
}

impl<R: Read> Answers<R> {
    /// Passes on the packet lines of this reader, which must be at the start of a capability advertisement.
    pub fn new(reader: R) -> Answers<R>
        ensures bytes { to_come R.remaining result ≡ option_map passed_on (R.remaining reader) }
        ensures unread { result.reader ≡ reader }
        ensures none_held { result.end ≡ 0 }
    {
        Answers {
            reader,
            advertised: false,
            digits: [0; 4],
            start: 0,
            end: 0,
            next: Next::Line,
        }
    }

    // Passes on held digits.
    fn give(&mut self, buf: &mut [u8]) -> usize
        requires held { self.old.start < self.old.end }
        requires known { needs_digits self.old.next ≡ false }
        requires room { 0 < length buf.old }
        ensures some { 0 < result }
        ensures bound { result ≤ length buf.new }
        ensures given { Consumes (to_come R.remaining self.old) (to_come R.remaining self.new) (take result buf.new) }
    {
        let count = (self.end - self.start).min(buf.len());
        let end = self.start + count;
        buf[..count].copy_from_slice(&self.digits[self.start..end]);
        self.start = end;
        count
    }

    // Takes the digits of a packet line, and finds what follows them.
    fn begin_line(&mut self, digits: [u8; 4])
        requires { self.old.next ≡ Next.Line }
        ensures bytes { to_come R.remaining self.new
            ≡ option_map (passed_from self.old.advertised Next.Line digits) (R.remaining self.old.reader) }
        ensures fewer { steps_of self.new < 6 }
    {
        let size = size_of(&digits);
        self.next = next_of(self.advertised, size);
        self.advertised = advertised_after(self.advertised, size);
        self.digits = digits;
        self.end = given_count(self.next);
    }

    // Takes the digits after the flush packet of a response. If they are a response-end packet, the flush packet is passed on.
    fn end_answer(&mut self, digits: [u8; 4])
        requires { self.old.next ≡ Next.AnswerEnd }
        ensures bytes { to_come R.remaining self.new
            ≡ option_map (passed_from self.old.advertised Next.AnswerEnd digits) (R.remaining self.old.reader) }
        ensures fewer { steps_of self.new < 1 }
    {
        if is_response_end(size_of(&digits)) {
            self.digits = *b"0000";
            self.end = 4;
            self.next = Next::Payload(0);
        } else {
            self.end = 0;
            self.next = Next::Nothing;
        }
    }

    // Takes digits that were read, and finds what follows the fourth.
    fn take_digits(&mut self, digits: [u8; 4], end: usize)
        requires next { needs_digits self.old.next ≡ true }
        requires more { self.old.end < end }
        requires bound { end ≤ 4 }
        ensures bytes { to_come R.remaining self.new
            ≡ option_map (passed_from self.old.advertised self.old.next (take end digits)) (R.remaining self.old.reader) }
        ensures fewer { steps_of self.new < steps_of self.old }
    {
        if end < 4 {
            self.digits = digits;
            self.end = end;
            return;
        }
        match self.next {
            Next::AnswerEnd => self.end_answer(digits),
            _ => self.begin_line(digits),
        }
    }

    // Reads digits. Returns true at the end of the reader, after which nothing is passed on; a held flush packet is then dropped.
    fn read_digits(&mut self) -> io::Result<bool>
        requires { needs_digits self.old.next ≡ true }
        ensures bytes { ReadsDigits (to_come R.remaining self.old) (to_come R.remaining self.new) (steps_of self.old) (steps_of self.new)
            result }
        ensures ended { self.old.next ≡ Next.AnswerEnd → IfOk result (λ ended. ended ≡ true → self.new.next ≡ Next.Nothing) }
    {
        let mut digits = self.digits;
        let count = self.reader.read(&mut digits[self.end..])?;
        if count > 0 {
            self.take_digits(digits, self.end + count);
            return Ok(false);
        }
        match self.next {
            Next::AnswerEnd => {
                self.end = 0;
                self.next = Next::Nothing;
                Ok(true)
            }
            _ => {
                if self.end == 0 {
                    return Ok(true);
                }
                self.next = Next::Rest;
                Ok(false)
            }
        }
    }

    // Reads part of a payload.
    fn read_payload(&mut self, left: usize, buf: &mut [u8]) -> io::Result<usize>
        requires some { 0 < left }
        requires next { self.old.next ≡ Next.Payload left }
        requires all_given { self.old.start ≡ self.old.end }
        requires room { 0 < length buf.old }
        ensures bound { ReadsAtMost result buf.new }
        ensures bytes { ReadConsumes (to_come R.remaining self.old) (to_come R.remaining self.new) result buf.new }
    {
        let most = left.min(buf.len());
        let count = self.reader.read(&mut buf[..most])?;
        self.next = Next::Payload(left - count);
        Ok(count)
    }

    // Passes on what it can, or goes a step further.
    fn step(&mut self, buf: &mut [u8]) -> io::Result<Option<usize>>
        requires { 0 < length buf.old }
        ensures { GivesOrSteps (to_come R.remaining self.old) (to_come R.remaining self.new) (steps_of self.old) (steps_of self.new)
            buf.new result }
    {
        match self.next {
            Next::Line | Next::AnswerEnd => {
                if self.read_digits()? {
                    return Ok(Some(0));
                }
                Ok(None)
            }
            Next::Payload(left) => {
                if self.start < self.end {
                    return Ok(Some(self.give(buf)));
                }
                if left > 0 {
                    return Ok(Some(self.read_payload(left, buf)?));
                }
                self.start = 0;
                self.end = 0;
                self.next = Next::Line;
                Ok(None)
            }
            Next::Rest => {
                if self.start < self.end {
                    return Ok(Some(self.give(buf)));
                }
                Ok(Some(self.reader.read(buf)?))
            }
            Next::Nothing => {
                if self.start < self.end {
                    return Ok(Some(self.give(buf)));
                }
                Ok(Some(0))
            }
        }
    }
}

impl<R: Read> Read for Answers<R> {
    ghost remaining = { to_come R.remaining };

    fn read(&mut self, buf: &mut [u8]) -> io::Result<usize> {
        if buf.is_empty() {
            return Ok(0);
        }
        loop {
            if let Some(count) = self.step(buf)? {
                return Ok(count);
            }
        }
    }
}
