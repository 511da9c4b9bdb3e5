//! The names of git's `fetch.negotiationAlgorithm`.
use gixp_negotiators::Algorithm;
use std::test::Fail;

#[test]
fn knows_the_names_of_git(rt: HostRuntime) -> Result<(), Fail> {
    assert_eq!(rt; Algorithm::from_name("noop"), Some(Algorithm::Noop));
    assert_eq!(rt;
        Algorithm::from_name("consecutive"),
        Some(Algorithm::Consecutive)
    );
    assert_eq!(rt;
        Algorithm::from_name("default"),
        Some(Algorithm::Consecutive)
    );
    assert_eq!(rt; Algorithm::from_name("Skipping"), Some(Algorithm::Skipping));
    assert_eq!(rt; Algorithm::from_name("newest"), None);
    Ok(())
}
