//! The negotiation: which commits client and server have in common.
pub use gixp_fetch::again::NamesCommons;
pub use gixp_fetch::mapped::NegotiatesMap;
pub use gixp_graph::{
    CommitData, Find, Flags, Graph, Negotiator, NegotiatorError, NoObjects, NoRefs, ObjectError,
    ObjectKind, Objects, RefStore, RefStoreError, Shared,
};
pub use gixp_memory::{NoAlternates, StoredObjects, StoredRefs, TextError};
pub use gixp_negotiate::negotiate::ignore::{IgnoreMapping, make_refmapping_ignore_predicate};
pub use gixp_negotiate::negotiate::mark::mark_complete_and_common_ref;
pub use gixp_negotiate::negotiate::negotiation::{NegotiateContext, Negotiation, PaysForHaves};
pub use gixp_negotiate::negotiate::one_round::{State, window_size};
pub use gixp_negotiate::negotiate::wants::add_wants;
pub use gixp_negotiate::negotiate::{Action, Error, Negotiate, Round, one_round};
pub use gixp_negotiators::{Algorithm, AnyNegotiator, Consecutive, HaveList, Noop, Skipping};
pub use gixp_reachable::{Reached, reachable_objects};
