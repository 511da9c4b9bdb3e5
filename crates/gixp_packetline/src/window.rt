//! The buffer that packet lines are read into.
ghost use Rattle.std.specs.Prelude.{◌≡◌, ◌+◌, ◌-◌, ◌<◌, ◌≤◌, [], length, take, drop, slice_range, vec_len, IfOk};
ghost use Rattle.std.specs.IoError.{error_kind};
ghost use Rattle.gixp_packetline.specs.Window.{Shown, ReadsAfter, Receives};

use crate::packet::MAX_FRAME;
use std::alloc::{AllocError, Global};
use std::io;
use std::io::{ErrorKind, Read};
use std::marker::Model;

// A buffer with room for one packet line of any length.
#[derive(Drop)]
pub(crate) struct Window {
    bytes: Vec<u8>,
    // The bytes from `start` to `end` were read and not yet taken.
    start: usize,
    end: usize,
    // The bytes from `line_start` to `line_end` are the lent line.
    line_start: usize,
    line_end: usize,
}

impl Model for Window {
    ghost Value = { Shown };

    ghost view = { λ w. record {
      pending = slice_range w.bytes.items w.start w.end;
      lent = slice_range w.bytes.items w.line_start w.line_end;
    } };

    ghost invariant = { λ w. (vec_len w.bytes ≡ 65520) × (w.start ≤ w.end) × (w.end ≤ 65520)
        × (w.line_start ≤ w.line_end) × (w.line_end ≤ 65520) };
}

fn kind_of(e: io::Error) -> ErrorKind
    ensures { result ≡ error_kind e }
{
    e.kind()
}

// Reads once, into the buffer from `end` on.
fn read_after<R: Read>(reader: &mut R, buffer: &mut Vec<u8>, end: usize) -> Result<usize, ErrorKind>
    requires { end ≤ vec_len buffer.old }
    ensures len { vec_len buffer.new ≡ vec_len buffer.old }
    ensures front { take end buffer.new.items ≡ take end buffer.old.items }
    ensures bytes { ReadsAfter (R.remaining reader.old) (R.remaining reader.new) end buffer.new.items result }
{
    match reader.read(&mut buffer[end..]) {
        Ok(n) => Ok(n),
        Err(e) => Err(kind_of(e)),
    }
}

// Moves the bytes between these offsets to the front, unless they are there.
fn to_front(buffer: &mut Vec<u8>, start: usize, end: usize)
    requires in_order { start ≤ end }
    requires there { end ≤ vec_len buffer.old }
    ensures len { vec_len buffer.new ≡ vec_len buffer.old }
    ensures moved { take (end - start) buffer.new.items ≡ slice_range buffer.old.items start end }
{
    if start == 0 {
        return;
    }
    buffer.copy_within(start..end, 0);
}

impl Window {
    pub(crate) fn new(alloc: Global) -> Result<Window, AllocError>
        ensures { IfOk result (λ w. w ≡ record { pending = []; lent = [] }) }
    {
        Ok(Window {
            bytes: vec![in alloc; 0; MAX_FRAME]?,
            start: 0,
            end: 0,
            line_start: 0,
            line_end: 0,
        })
    }

    // The bytes that were read and not yet taken.
    pub(crate) fn pending(&self) -> &[u8]
        ensures value { result.now ≡ self.now.pending }
        ensures bound { length self.now.pending ≤ 65520 }
    {
        &self.bytes[self.start..self.end]
    }

    pub(crate) fn lent(&self) -> &[u8]
        ensures { result.now ≡ self.now.lent }
    {
        &self.bytes[self.line_start..self.line_end]
    }

    // The bytes that were read and not yet taken, in their buffer.
    pub(crate) fn into_pending(self) -> Vec<u8>
        ensures { result.items ≡ self.pending }
    {
        let Window {
            mut bytes,
            start,
            end,
            line_start: _line_start,
            line_end: _line_end,
        } = self;
        to_front(&mut bytes, start, end);
        bytes.truncate(end - start);
        bytes
    }

    pub(crate) fn clear(&mut self)
        ensures { self.new ≡ record { pending = []; lent = [] } }
    {
        self.start = 0;
        self.end = 0;
        self.line_start = 0;
        self.line_end = 0;
    }

    // Shortens the lent line to its first `len` bytes.
    pub(crate) fn shorten(&mut self, len: usize)
        requires { len ≤ length self.old.lent }
        ensures { self.new ≡ record self.old { lent = take len self.old.lent } }
    {
        self.line_end = self.line_start + len;
    }

    pub(crate) fn skip(&mut self, amount: usize)
        requires { amount ≤ length self.old.pending }
        ensures { self.new ≡ record self.old { pending = drop amount self.old.pending } }
    {
        self.start += amount;
    }

    // Takes the first `amount` bytes, and lends those from `from` on.
    pub(crate) fn take_line(&mut self, from: usize, amount: usize)
        requires in_order { from ≤ amount }
        requires there { amount ≤ length self.old.pending }
        ensures { self.new ≡ record { pending = drop amount self.old.pending; lent = drop from (take amount self.old.pending) } }
    {
        self.line_start = self.start + from;
        self.line_end = self.start + amount;
        self.start += amount;
    }

    // Reads once, into all free space after the pending bytes. The lent line is lost. The pending bytes move only if
    // they don't begin at the front.
    pub(crate) fn receive<R: Read>(&mut self, reader: &mut R) -> Result<usize, ErrorKind>
        requires { length self.old.pending < 65520 }
        ensures { Receives (R.remaining reader.old) (R.remaining reader.new) self.old.pending self.new.pending result }
    {
        to_front(&mut self.bytes, self.start, self.end);
        self.end -= self.start;
        self.start = 0;
        let received = read_after(reader, &mut self.bytes, self.end);
        if let Ok(n) = &received {
            self.end += *n;
        }
        received
    }
}
