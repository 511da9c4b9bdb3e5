//! Texts of errors, copies of values, and windows.
use crate::shown::texts;
use gixp_graph::{ObjectError, RefStoreError};
use gixp_negotiate::negotiate::one_round::window_size;
use gixp_negotiate::negotiate::{Action, Error, Round};
use gixp_shallow::Shallow;
use std::alloc::AllocError;
use std::io::ErrorKind;
use std::test::Fail;

#[test]
fn writes_each_error(rt: HostRuntime) -> Result<(), Fail> {
    let failed: Error<u8> = Error::NegotiationFailed { rounds: 3 };
    let errors = [
        failed,
        Error::from(ObjectError::Corrupt),
        Error::from(ObjectError::Io(ErrorKind::Other)),
        Error::from(RefStoreError::OpenPackedRefsBuffer),
        Error::from(RefStoreError::Io(ErrorKind::Other)),
        Error::from(RefStoreError::Iter),
        Error::from(RefStoreError::Peel),
        Error::AlternateRefsAndObjects(7),
        Error::from(RefStoreError::Memory),
    ];
    assert_eq!(rt;
        texts(rt.alloc(), &errors)?.as_str(),
        "We were unable to figure out what objects the server should send after 3 round(s)\n\
        Corrupt\nIo\nOpenPackedRefsBuffer\nIO\nInitRefIter\nPeelToId\nAlternateRefsAndObjects\nMemory\n"
    );
    Ok(())
}

// Which objects are known in a copy of an action that has to negotiate.
fn known_of_copy(action: &Action) -> Result<Vec<bool>, Fail> {
    match action.clone()? {
        Action::MustNegotiate {
            remote_ref_target_known,
        } => Ok(remote_ref_target_known),
        _ => Err("another action".into()),
    }
}

#[test]
fn copies_actions(rt: HostRuntime) -> Result<(), Fail> {
    let action = Action::MustNegotiate {
        remote_ref_target_known: Vec::from_slice(rt.alloc(), &[true, false])?,
    };
    let known = known_of_copy(&action)?;
    assert_eq!(rt; known.as_slice(), [true, false].as_slice());
    Ok(())
}

fn is_copied(shallow: &Shallow) -> Result<bool, AllocError> {
    Ok(shallow.clone()? == *shallow)
}

#[test]
fn copies_actions_and_boundaries(rt: HostRuntime) -> Result<(), Fail> {
    assert!(rt; is_copied(&Shallow::default())?);
    assert!(rt; is_copied(&Shallow::Deepen(3))?);
    assert!(rt; is_copied(&Shallow::Since { cutoff: -1 })?);
    Ok(())
}

#[test]
fn undoes_by_the_largest_depth(rt: HostRuntime) -> Result<(), Fail> {
    let Shallow::DepthAtRemote(depth) = Shallow::undo() else {
        return Err("no depth".into());
    };
    assert_eq!(rt; depth.get(), 2_147_483_647);
    Ok(())
}

#[test]
fn shows_rounds(rt: HostRuntime) -> Result<(), Fail> {
    let round = Round {
        haves_sent: 1,
        in_vain: 2,
        haves_to_send: 16,
        previous_response_had_at_least_one_in_common: true,
    };
    assert_eq!(rt;
        format!(in rt.alloc(); "{round:?}")?.as_str(),
        "Round { haves_sent: 1, in_vain: 2, haves_to_send: 16, previous_response_had_at_least_one_in_common: true }"
    );
    Ok(())
}

#[test]
fn widens_windows(rt: HostRuntime) -> Result<(), Fail> {
    for (stateless, window, next) in [
        (true, None, 16),
        (true, Some(16_383), 32_766),
        (true, Some(16_384), 18_022),
        (
            true,
            Some(1_700_000_000_000_000_000),
            1_870_000_000_000_000_000,
        ),
        (true, Some(usize::MAX), usize::MAX),
        (false, Some(16), 32),
        (false, Some(32), 64),
        (false, Some(64), 96),
    ] {
        assert_eq!(rt; window_size(stateless, window), next);
    }
    Ok(())
}
