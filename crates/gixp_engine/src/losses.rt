//! White space that the lists of refs in a session's responses lose (git-check-ref-format).
ghost use Rattle.std.specs.Prelude.{◌≡◌, map};
ghost use Rattle.gixp_transport.specs.Bodies.{answer_of};
ghost use Rattle.gixp_engine.specs.ListLosses.{advertisement_loses, list_loses, first_list_loses, losses_of, is_lossy};

use gixp_handshake::Handshake;
use gixp_records::{advertisement_loses_white_space, list_loses_white_space};
use gixp_transport::Body;

/// Whether the first response loses white space as an advertisement, and the second one as the response to `ls-refs`.
#[derive(Clone, Copy)]
pub(crate) struct ListLosses {
    pub(crate) advertisement: bool,
    pub(crate) list: bool,
}

fn advertisement_loses(answer: &Body) -> bool
    ensures { result ≡ advertisement_loses (answer_of answer.now) }
{
    match answer {
        Body::Bytes(bytes) => advertisement_loses_white_space(bytes),
        Body::Fail(_) => false,
    }
}

fn list_loses(answer: &Body) -> bool
    ensures { result ≡ list_loses (answer_of answer.now) }
{
    match answer {
        Body::Bytes(bytes) => list_loses_white_space(bytes),
        Body::Fail(_) => false,
    }
}

fn first_list_loses(answers: &[Body]) -> bool
    ensures { result ≡ first_list_loses (map answer_of answers.now) }
{
    match answers.split_first() {
        Some((answer, _)) => list_loses(answer),
        None => false,
    }
}

/// What the responses of a session lose.
pub(crate) fn losses_of(answers: &[Body]) -> ListLosses
    ensures { result ≡ losses_of (map answer_of answers.now) }
{
    match answers.split_first() {
        Some((first, rest)) => ListLosses {
            advertisement: advertisement_loses(first),
            list: first_list_loses(rest),
        },
        None => ListLosses {
            advertisement: false,
            list: false,
        },
    }
}

/// Whether the refs of a ref map lose white space.
pub(crate) fn is_lossy(losses: ListLosses, needs_no_list: bool, handshake: &Handshake) -> bool
    ensures { result ≡ is_lossy losses needs_no_list handshake.now }
{
    if handshake.refs.is_some() {
        losses.advertisement
    } else {
        !needs_no_list && losses.list
    }
}
