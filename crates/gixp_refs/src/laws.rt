//! Theorems about the definitions. Each is a function without a body; its contract is the theorem.
ghost use Rattle.std.specs.Prelude.{◌≡◌, ℕ, List, Option, None, Ok, Err};
ghost use Rattle.gixp_refs.specs.Ref.{RefValue};
ghost use Rattle.gixp_refs.specs.RefLine.{RefsRefusal};
ghost use Rattle.gixp_refs.specs.RefAdvertisement.{Symref, groups};
ghost use Rattle.gixp_refs.specs.RefGroups.{Group, AreRefGroups, AreGroupRefs, AreRefusedAfter};

/// The refs of a reference advertisement of version 0 or 1 are those of its groups: ref lines alone, or with their
/// peeled lines. Lines that belong to no group may occur between these.
pub fn advertised_refs_are_of_groups()
    ensures { (t : List Symref) (texts : List (List ℕ)) (values : List RefValue) → groups texts None t None ≡ Ok values
        → (gs : List Group) × AreRefGroups texts gs × AreGroupRefs t gs values }
{}

/// Groups of lines are read as their refs, however they are read.
pub fn groups_are_advertised_refs()
    ensures { (t : List Symref) (texts : List (List ℕ)) (gs : List Group) (values : List RefValue) → AreRefGroups texts gs
        → AreGroupRefs t gs values → groups texts None t None ≡ Ok values }
{}

/// If reading a reference advertisement fails, it begins with groups that have refs, and the error is that of the first
/// line after them, or of the end.
pub fn refused_advertisements_are_cut()
    ensures { (t : List Symref) (texts : List (List ℕ)) (end : Option RefsRefusal) (e : RefsRefusal) → groups texts end t None ≡ Err e
        → AreRefusedAfter t texts end e }
{}

/// Groups with such an error after them fail with it, however they are read.
pub fn cut_advertisements_are_refused()
    ensures { (t : List Symref) (texts : List (List ℕ)) (end : Option RefsRefusal) (e : RefsRefusal) → AreRefusedAfter t texts end e
        → groups texts end t None ≡ Err e }
{}
