//! An observer that reports the messages of bands 2 and 3, and whether a name lost white space.
ghost use Rattle.std.specs.Prelude.{◌≡◌, false, [], Option};
ghost use Rattle.std.specs.Option.{option_map};
ghost use Rattle.gixp_client.specs.Listening.{kept_texts, text_in, ReceivesLine, RecordsLoss};

use crate::listen::{Kept, Listener};
use crate::tap::{LineObserver, Tap};
use gixp_packetline::MessageKind;
use gixp_refs::handshake::refs::loses_white_space;
use std::alloc::Global;
use std::mem;

/// Reports the messages of bands 2 and 3 to a listener and keeps them, each as its packet line is read. No other line begins with
/// a byte 2 or 3.
///
/// It also records whether the parser of refs would lose white space of a line (`loses_white_space`). This has a meaning only for
/// the lines of a list of refs, so a session resets the record before it reads a list, and looks at it after the list.
#[derive(Drop)]
pub struct Messages<L> {
    pub(crate) listener: L,
    pub(crate) kept: Kept,
    pub(crate) lost_white_space: bool,
}

// The message in a line, and whether it is an error.
fn text_in(line: &[u8]) -> Option<(bool, &[u8])>
    ensures { option_map (λ text. (text.0, text.1.now)) result ≡ text_in line.now }
{
    let Some((band, text)) = line.split_first() else {
        return None;
    };
    match *band {
        2 => Some((false, text)),
        3 => Some((true, text)),
        _ => None,
    }
}

// Whether white space is lost after this line.
fn has_lost(lost: bool, line: &[u8]) -> bool
    ensures { RecordsLoss line.now lost result }
{
    lost || loses_white_space(line)
}

impl<L> Messages<L> {
    /// Reports to this listener.
    pub fn new(alloc: Global, listener: L) -> Messages<L>
        ensures listener { result.listener ≡ listener }
        ensures kept { kept_texts result.kept ≡ [] }
        ensures names { result.lost_white_space ≡ false }
    {
        Messages {
            listener,
            kept: Kept::new(alloc),
            lost_white_space: false,
        }
    }
}

impl<L: Listener> LineObserver for Messages<L> {
    ghost sees = { λ old line new. ReceivesLine L.receives (text_in line) old.listener old.kept new.listener new.kept
        × RecordsLoss line old.lost_white_space new.lost_white_space };

    ghost ends = { λ old stop new. new ≡ old };

    fn line(&mut self, line: &[u8]) {
        if let Some((is_error, text)) = text_in(line) {
            self.listener.hear(is_error, text);
            self.kept.hear(is_error, text);
        }
        self.lost_white_space = has_lost(self.lost_white_space, line);
    }

    fn end(&mut self, _stop: Option<MessageKind>) {}
}

impl<T, L> Tap<T, Messages<L>> {
    /// Returns the messages kept so far, and removes them.
    pub fn take_kept(&mut self, alloc: Global) -> Kept
        ensures inner { self.new.inner ≡ self.old.inner }
        ensures kept { result ≡ self.old.observer.kept }
        ensures none { kept_texts self.new.observer.kept ≡ [] }
        ensures listener { self.new.observer.listener ≡ self.old.observer.listener }
        ensures names { self.new.observer.lost_white_space ≡ self.old.observer.lost_white_space }
    {
        mem::replace(&mut self.observer.kept, Kept::new(alloc))
    }
}
