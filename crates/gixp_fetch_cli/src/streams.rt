//! The streams of a server: files, or the standard streams.
ghost use Rattle.gixp_fetch_cli.specs.Streams.{server_remaining, client_contents};

use std::io;
use std::io::{Read, Write};

/// The server's output: a file, or standard input.
#[derive(Drop)]
pub enum ServerStream<F, S> {
    File(F),
    Standard(S),
}

impl<F: Read, S: Read> Read for ServerStream<F, S> {
    ghost remaining = { server_remaining F.remaining S.remaining };

    fn read(&mut self, buf: &mut [u8]) -> io::Result<usize> {
        match self {
            ServerStream::File(file) => file.read(buf),
            ServerStream::Standard(stream) => stream.read(buf),
        }
    }
}

/// The server's input: a file, or standard output.
#[derive(Drop)]
pub enum ClientStream<F, S> {
    File(F),
    Standard(S),
}

impl<F: Write, S: Write> Write for ClientStream<F, S> {
    ghost contents = { client_contents F.contents S.contents };

    fn write(&mut self, buf: &[u8]) -> io::Result<usize> {
        match self {
            ClientStream::File(file) => file.write(buf),
            ClientStream::Standard(stream) => stream.write(buf),
        }
    }

    fn flush(&mut self) -> io::Result<()> {
        match self {
            ClientStream::File(file) => file.flush(),
            ClientStream::Standard(stream) => stream.flush(),
        }
    }
}
