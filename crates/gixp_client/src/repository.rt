//! The repository that a fetch reads.
use gixp_hash::ObjectId;

/// The repository that fetches, borrowed for one fetch.
#[derive(Drop)]
pub struct Repository<'a, F, R> {
    /// Its objects. After an interrupted fetch there may be a commit without its history, which no ref reaches. So an object that the
    /// server offers counts as missing, although it exists, unless the local ref of its mapping has its id, or the refs reach it as a
    /// commit. If an object is in doubt, the fetch reads the history down to the oldest commit in doubt. Each other object counts as
    /// complete, with everything that it reaches. `Request::trusts_objects` turns the check off.
    pub objects: &'a F,
    /// Its refs.
    pub refs: &'a mut R,
    /// Its shallow boundary: the ids in its file `shallow`.
    pub boundary: &'a [ObjectId],
}
