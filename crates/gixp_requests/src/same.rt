//! Equality and order of commands.
ghost use Rattle.std.specs.Prelude.{◌≡◌, ◌↔◌, IsTrue};
ghost use Rattle.std.specs.Ordering.{nat_cmp};
ghost use Rattle.gixp_requests.specs.Order.{command_place};

use crate::command::Command;
use std::cmp::Ordering;

fn is_same_command(one: &Command, other: &Command) -> bool
    ensures { IsTrue result ↔ (one.now ≡ other.now) }
{
    one == other
}

// `ls-refs` comes before `fetch`.
fn order_of_commands(first: &Command, second: &Command) -> Ordering
    ensures { result ≡ nat_cmp (command_place first.now) (command_place second.now) }
{
    first.cmp(second)
}
