//! The messages of a server in a progress reporter.
use gixp_doubles::{Lent, ProgressLog};
use gixp_fetch::RemoteText;
use gixp_sidebands::BandText;
use std::alloc::{AllocError, Global};
use std::test::Fail;

// Sends two messages of a server to a progress reporter.
fn say_two(alloc: Global, reported: &mut ProgressLog) -> Result<(), AllocError> {
    let mut text = RemoteText::new(alloc, Lent { reported });
    text.band_text(false, b"Receiving objects:  42% (21/50)")?;
    text.band_text(true, b"no access")
}

#[test]
fn shows_the_texts_of_a_server(rt: HostRuntime) -> Result<(), Fail> {
    let mut reported = ProgressLog::new(rt.alloc());
    say_two(rt.alloc(), &mut reported)?;
    let want = "Receiving objects\nobjects\n21\nno access\n";
    assert_eq!(rt; reported.lines(rt.alloc())?.as_str(), want);
    Ok(())
}
