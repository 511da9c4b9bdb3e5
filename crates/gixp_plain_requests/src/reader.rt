//! A reader of an advertisement that names the capabilities that the server lacks.
ghost use Rattle.std.specs.Prelude.{◌≡◌, ℕ, List, ◌+◌, ◌<◌, ◌≤◌, ◌⊎◌, length, take, slice_range, true, false, vec_len, IfOk, OnOk};
ghost use Rattle.std.specs.Option.{option_map};
ghost use Rattle.std.specs.Io.{ReadsAtMost};
ghost use Rattle.std.specs.Io.KnownBytes.{Keeps, Consumes, ReadConsumes, IsAtEnd};
ghost use Rattle.gixp_plain_requests.specs.Advertisement.{advertised, lacks_advertised, size_needed, to_come, is_after_names};
ghost use Rattle.gixp_plain_requests.specs.Reads.{ReadsSpace};

use crate::advertisement::{advertised, size_needed};
use crate::missing::Missing;
use crate::named::{NamedCapabilities, ROOM};
use std::alloc::{AllocError, Global};
use std::io;
use std::io::Read;

// Reads into the space between these offsets.
fn read_into<R: Read>(
    reader: &mut R,
    room: &mut Vec<u8>,
    end: usize,
    limit: usize,
) -> io::Result<usize>
    requires order { end < limit }
    requires there { limit ≤ vec_len room.old }
    ensures len { vec_len room.new ≡ vec_len room.old }
    ensures front { take end room.new.items ≡ take end room.old.items }
    ensures bytes { ReadsSpace (R.remaining reader.old) (R.remaining reader.new) end limit room.new.items result }
{
    reader.read(&mut room[end..limit])
}

impl<R: Read + Drop> NamedCapabilities<R> {
    /// Reads nothing yet. The reader must be at the start of an advertisement.
    ///
    /// # Errors
    ///
    /// Only an allocation failure.
    pub fn new(alloc: Global, reader: R) -> Result<NamedCapabilities<R>, AllocError>
        ensures bytes { IfOk result (λ n. to_come R.remaining n ≡ option_map advertised (R.remaining reader)) }
        ensures unread { IfOk result (λ n. n.reader ≡ reader) }
    {
        Ok(NamedCapabilities {
            alloc,
            reader,
            room: vec![in alloc; 0; ROOM]?,
            start: 0,
            end: 0,
            is_named: false,
            missing: Missing::nothing(),
        })
    }
}

impl<R: Read> NamedCapabilities<R> {
    /// What the server lacks, once its first ref line was read. Before that, nothing.
    pub fn missing(&self) -> Missing
        ensures { result ≡ self.now.missing }
    {
        self.missing
    }

    /// Whether the first ref line was passed on, and nothing is held.
    pub fn is_after_names(&self) -> bool
        ensures { result ≡ is_after_names self.now }
    {
        self.is_named && self.start == self.end
    }

    // Reads more of the first lines. Returns false if they are whole, or at the end of the reader.
    fn read_more(&mut self) -> io::Result<bool>
        requires { self.old.is_named ≡ false }
        ensures bytes { Keeps (to_come R.remaining self.old) (to_come R.remaining self.new) }
        ensures more { IfOk result (λ is_more. is_more ≡ true → self.old.end < self.new.end) }
        ensures whole { IfOk result (λ is_more. is_more ≡ false → (size_needed (take self.new.end self.new.room.items) ≤ self.new.end)
            ⊎ IsAtEnd (R.remaining self.new.reader)) }
        ensures unnamed { self.new.is_named ≡ false }
    {
        let count = size_needed(&self.room[..self.end]);
        if self.end >= count {
            return Ok(false);
        }
        let read = read_into(&mut self.reader, &mut self.room, self.end, count)?;
        self.end += read;
        Ok(read > 0)
    }

    // Reads the first lines.
    fn fill(&mut self) -> io::Result<()>
        requires { self.old.is_named ≡ false }
        ensures bytes { Keeps (to_come R.remaining self.old) (to_come R.remaining self.new) }
        ensures whole { OnOk result ((size_needed (take self.new.end self.new.room.items) ≤ self.new.end)
            ⊎ IsAtEnd (R.remaining self.new.reader)) }
        ensures unnamed { self.new.is_named ≡ false }
    {
        while self.read_more()? {}
        Ok(())
    }

    // Reads the first lines, and adds the names.
    fn add_names(&mut self) -> io::Result<()>
        requires { self.old.is_named ≡ false }
        ensures bytes { Keeps (to_come R.remaining self.old) (to_come R.remaining self.new) }
        ensures named { OnOk result (self.new.is_named ≡ true) }
        ensures missing { OnOk result ((held : List ℕ) × (self.new.room.items ≡ advertised held) × (self.new.missing ≡ lacks_advertised held)) }
    {
        self.fill()?;
        let (missing, named) = advertised(self.alloc, &self.room[..self.end])?;
        self.end = named.len();
        self.room = named;
        self.missing = missing;
        self.is_named = true;
        Ok(())
    }

    // Passes on held bytes.
    fn give(&mut self, buf: &mut [u8]) -> usize
        requires held { self.old.start < self.old.end }
        requires named { self.old.is_named ≡ true }
        requires room { 0 < length buf.old }
        ensures some { 0 < result }
        ensures bound { result ≤ length buf.new }
        ensures given { Consumes (to_come R.remaining self.old) (to_come R.remaining self.new) (take result buf.new) }
    {
        let count = (self.end - self.start).min(buf.len());
        let end = self.start + count;
        buf[..count].copy_from_slice(&self.room[self.start..end]);
        self.start = end;
        count
    }

    // Passes on held bytes, or those of the reader.
    fn pass_on(&mut self, buf: &mut [u8]) -> io::Result<usize>
        requires named { self.old.is_named ≡ true }
        requires room { 0 < length buf.old }
        ensures bound { ReadsAtMost result buf.new }
        ensures bytes { ReadConsumes (to_come R.remaining self.old) (to_come R.remaining self.new) result buf.new }
    {
        if self.start < self.end {
            return Ok(self.give(buf));
        }
        self.reader.read(buf)
    }
}

impl<R: Read> Read for NamedCapabilities<R> {
    ghost remaining = { to_come R.remaining };

    fn read(&mut self, buf: &mut [u8]) -> io::Result<usize> {
        if buf.is_empty() {
            return Ok(0);
        }
        if self.is_named {
            return self.pass_on(buf);
        }
        self.add_names()?;
        self.pass_on(buf)
    }
}
