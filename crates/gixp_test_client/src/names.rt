//! Lists of refs that have a name with white space at its end.
use crate::fetches::{branches, fetch, unless_memory};
use crate::servers::{GREETING, PACK, REFS, server};
use gixp_client::{Error, ErrorClass, Session, Silent, State};
use std::alloc::Global;

const SENTENCE: &str = "the server lists a ref whose name ends in white space outside ASCII";

// Lists with names that end in U+00A0, U+3000, and U+0085 before a tab.
const SPACED: &[&[&[u8]]] = &[
    &[
        b"7257effbd41e1233eaae5744e614c5c728e3c979 refs/heads/x\xc2\xa0\n",
        b"7257effbd41e1233eaae5744e614c5c728e3c979 refs/heads/y\n",
        b"",
    ],
    &[
        b"7257effbd41e1233eaae5744e614c5c728e3c979 refs/heads/x\n",
        b"7257effbd41e1233eaae5744e614c5c728e3c979 refs/heads/x\xe3\x80\x80",
        b"",
    ],
    &[
        b"7257effbd41e1233eaae5744e614c5c728e3c979 refs/heads/x\xc2\x85\t\n",
        b"",
    ],
];

// A list with blanks of ASCII at the end of a line, and U+00A0 within a name.
const BLANK: &[&[u8]] = &[
    b"7257effbd41e1233eaae5744e614c5c728e3c979 refs/heads/x \t\r\n",
    b"7257effbd41e1233eaae5744e614c5c728e3c979 refs/heads/x\xc2\xa0y\n",
    b"",
];

// A pack with messages and data that end in U+00A0.
const SPACED_PACK: &[&[u8]] = &[
    b"packfile\n",
    b"\x02Counting\xc2\xa0\n",
    b"\x01PACK\xc2\xa0",
    b"",
];

// Advertisements of versions 1 and 0 with names that end in U+00A0.
const SPACED_FIRST: &[&[&[u8]]] = &[
    &[
        b"version 1\n",
        b"7257effbd41e1233eaae5744e614c5c728e3c979 refs/heads/x\0multi_ack_detailed side-band-64k\n",
        b"7257effbd41e1233eaae5744e614c5c728e3c979 refs/heads/x\xc2\xa0\n",
        b"",
    ],
    &[
        b"7257effbd41e1233eaae5744e614c5c728e3c979 refs/heads/x\xc2\xa0\0multi_ack_detailed side-band-64k\n",
        b"7257effbd41e1233eaae5744e614c5c728e3c979 refs/heads/y\n",
        b"",
    ],
];

// Advertisements with blanks of ASCII at the end of a line, and with U+00A0 at the end of the capabilities.
const BLANK_FIRST: &[&[&[u8]]] = &[
    &[
        b"version 1\n",
        b"7257effbd41e1233eaae5744e614c5c728e3c979 refs/heads/x \0multi_ack_detailed agent=x\xc2\xa0\n",
        b"7257effbd41e1233eaae5744e614c5c728e3c979 refs/heads/y \n",
        b"",
    ],
    &[
        b"version 2\n",
        b"ls-refs=unborn\n",
        b"agent=git/2.39.5\xc2\xa0\n",
        b"",
    ],
];

fn text_of(alloc: Global, e: &Error) -> Result<String, Error> {
    Ok(format!(in alloc; "{e}")?)
}

// Whether a call failed since a name isn't supported, with the class and the sentence of that error.
fn is_unsupported(alloc: Global, called: Result<(), Error>) -> Result<bool, Error> {
    match unless_memory(called)? {
        Ok(()) => Ok(false),
        Err(e) => {
            let text = text_of(alloc, &e)?;
            Ok(e.class() == ErrorClass::Refused && text.as_str() == SENTENCE)
        }
    }
}

#[test]
fn a_listed_name_that_ends_in_wide_space_is_rejected(rt: HostRuntime) -> Result<(), Error> {
    let alloc = rt.alloc();
    for list in SPACED {
        let transport = server(alloc, &[GREETING, *list, *list, *list, REFS, PACK])?;
        let mut session = Session::open(alloc, transport, "first/1.0", Silent)?;
        let request = branches(alloc)?;
        assert!(rt; is_unsupported(alloc, session.list())?);
        assert!(rt; is_unsupported(alloc, session.map(&request).map(|_map| ()))?);
        assert!(rt; is_unsupported(alloc, session.refs().map(|_refs| ()))?);
        assert!(rt; session.state() == State::AtStop);
        let (_, pack) = fetch(alloc, &mut session, &request)?;
        assert_eq!(rt; pack.as_slice(), b"PACK".as_slice());
    }
    Ok(())
}

#[test]
fn blanks_and_messages_are_no_names(rt: HostRuntime) -> Result<(), Error> {
    let alloc = rt.alloc();
    let transport = server(alloc, &[GREETING, BLANK, SPACED_PACK, REFS, BLANK])?;
    let mut session = Session::open(alloc, transport, "first/1.0", Silent)?;
    let request = branches(alloc)?;
    let (_, pack) = fetch(alloc, &mut session, &request)?;
    assert_eq!(rt; pack.as_slice(), b"PACK\xc2\xa0".as_slice());
    let map = session.map(&request)?;
    assert_eq!(rt; map.mappings.len(), 1);
    let refs = session.refs()?;
    assert_eq!(rt; refs.len(), 2);
    assert!(rt; session.state() == State::AtStop);
    Ok(())
}

#[test]
fn an_advertised_name_that_ends_in_wide_space_is_rejected(rt: HostRuntime) -> Result<(), Error> {
    let alloc = rt.alloc();
    for advertisement in SPACED_FIRST {
        let transport = server(alloc, &[*advertisement])?;
        match unless_memory(Session::open(alloc, transport, "first/1.0", Silent))? {
            Ok(_) => assert!(rt; false, "a session is opened"),
            Err(e) => {
                assert!(rt; matches!(e, Error::UnsupportedRefName));
                assert_eq!(rt; text_of(alloc, &e)?.as_str(), SENTENCE);
            }
        }
    }
    for advertisement in BLANK_FIRST {
        let transport = server(alloc, &[*advertisement])?;
        let session = Session::open(alloc, transport, "first/1.0", Silent)?;
        assert!(rt; session.state() == State::AtStop);
    }
    Ok(())
}
