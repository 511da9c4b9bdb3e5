//! The local refs to write after a fetch.
use gix_protocol::fetch::negotiate::{Graph, Shared, StoredObjects, StoredRefs};
use gix_protocol::fetch::refs::Update;
use gix_protocol::fetch::refs::update::{self, update};
use gix_protocol::fetch::{RefMap, Tags};
use std::alloc::Global;

/// The update of the local ref of each mapping, after the pack is stored. `objects` has all received objects. After an error
/// write no ref.
pub fn refs_to_write(
    alloc: Global,
    map: &RefMap,
    refs: &StoredRefs,
    objects: &StoredObjects,
) -> Result<Vec<Update>, update::Error> {
    let mut graph = Graph::new(alloc, Shared::new(objects));
    let options = update::Options {
        tags: Tags::Included,
        checked_out: &[],
        most_commits: None,
    };
    update(
        alloc,
        map,
        refs,
        &Shared::new(objects),
        &mut graph,
        &options,
    )
}

/// Whether `git fetch` would exit with a status other than 0 because of one of the updates.
pub fn has_failed(map: &RefMap, updates: &[Update]) -> bool {
    let mut pairs = updates.iter().zip(&map.mappings);
    pairs.any(|(update, mapping)| update.fails(map, mapping, Tags::Included))
}
