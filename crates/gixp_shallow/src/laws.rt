//! Theorems about the definitions. Each is a function without a body; its contract is the theorem.
ghost use Rattle.std.specs.Prelude.{◌≡◌, ℕ, List};
ghost use Rattle.std.specs.List.{All};
ghost use Rattle.std.specs.List.Sorted.{IsStrictlySortedBy};
ghost use Rattle.gixp_hash.specs.ObjectId.{id_cmp};
ghost use Rattle.gixp_hash.specs.declared.object_id.ObjectId.{ObjectId};
ghost use Rattle.gixp_shallow.specs.declared.update.ShallowUpdate.{ShallowUpdate};
ghost use Rattle.gixp_shallow.specs.declared.store.ShallowError.{ShallowError};
ghost use Rattle.gixp_shallow.specs.declared.store.ShallowError.TheVariants.{Memory};
ghost use Rattle.gixp_shallow.specs.Boundary.{IsSetOf, IsBoundary, boundary};
ghost use Rattle.gixp_shallow.specs.ShallowText.{IsId, IsTextOf, ReadsIds, IdTextFails};

/// The boundary after some updates is sorted and has each id once. Each `shallow` adds its id and each `unshallow`
/// removes it, in their order.
pub fn boundaries_are_sets()
    ensures { (ids : List ObjectId) (updates : List ShallowUpdate) → IsBoundary ids updates (boundary ids updates) }
{}

/// The text of a boundary reads as the ids that it was written from. `shallow_ids` fails on a text from `shallow_text`
/// only if an allocation fails, and returns exactly the ids of that text, sorted, each once. If the ids were sorted
/// without repetition, it returns the same list.
pub fn boundary_texts_read_back()
    ensures read { (ids : List ObjectId) (text : List ℕ) (read : List ObjectId) → All IsId ids → IsTextOf ids text → ReadsIds text read
        → IsSetOf ids read }
    ensures same { (ids : List ObjectId) (text : List ℕ) (read : List ObjectId) → All IsId ids → IsStrictlySortedBy id_cmp ids
        → IsTextOf ids text → ReadsIds text read → read ≡ ids }
    ensures refused { (ids : List ObjectId) (text : List ℕ) (e : ShallowError) → All IsId ids → IsTextOf ids text → IdTextFails text e
        → e ≡ Memory }
{}
