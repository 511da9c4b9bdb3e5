//! The features that a session requests.
ghost use Rattle.std.specs.Prelude.{◌≡◌};
ghost use Rattle.gixp_requests.specs.Command.{table_of};
ghost use Rattle.gixp_engine.specs.EngineTable.{engine_table};

use gixp_requests::command::CommandTable;

/// git's table without `ref-in-want`. With it a response may give a wanted ref another id than the list of refs has (gitprotocol-v2,
/// "fetch", `wanted-refs`), and the caller takes the ids of the list.
pub(crate) fn engine_table() -> CommandTable
    ensures { table_of result ≡ engine_table }
{
    CommandTable {
        v2_fetch: &["shallow", "filter", "sideband-all"],
        ..CommandTable::git()
    }
}
