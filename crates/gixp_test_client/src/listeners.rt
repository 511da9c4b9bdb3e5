//! The output of listeners.
use gixp_client::{Kept, Listener, RemoteLines};
use std::alloc::AllocError;

#[test]
fn shows_lines_as_git_does(rt: HostRuntime) -> Result<(), AllocError> {
    let alloc = rt.alloc();
    let mut shown: Vec<u8> = Vec::new(alloc);
    {
        let mut lines = RemoteLines::new(alloc, &mut shown);
        lines.hear(false, b"Counting obj");
        lines.hear(false, b"ects: 1\rTotal\x07 2\n");
        lines.hear(true, b"disk full");
        if lines.is_cut() {
            return Err(AllocError);
        }
    }
    let expected =
        "remote: Counting objects: 1        \rremote: Total? 2        \nremote: disk full        \n";
    assert_eq!(rt; shown.as_slice(), expected.as_bytes());
    Ok(())
}

#[test]
fn knows_an_error_whose_text_is_missing(rt: HostRuntime) -> Result<(), AllocError> {
    let alloc = rt.alloc();
    let mut text: Vec<u8> = Vec::new(alloc);
    text.resize(65_000, b'.')?;
    let mut kept = Kept::new(alloc);
    for _ in 0..17 {
        kept.hear(false, &text);
    }
    kept.hear(true, b"disk full");
    assert!(rt; kept.is_cut());
    assert!(rt; kept.has_error());
    Ok(())
}
