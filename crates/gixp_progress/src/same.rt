//! Equality and order of progress lines.
ghost use Rattle.std.specs.Prelude.{◌≡◌, ◌↔◌, IsTrue};
ghost use Rattle.gixp_progress.specs.Line.{line_value};
ghost use Rattle.gixp_progress.specs.Order.{progress_line_cmp};

use crate::remote_progress::RemoteProgress;
use std::cmp::Ordering;

fn is_same_line(one: &RemoteProgress<'_>, other: &RemoteProgress<'_>) -> bool
    ensures { IsTrue result ↔ (line_value one.now ≡ line_value other.now) }
{
    one == other
}

// Lines are ordered by action, then by percentage, step and maximum. An absent number precedes each number.
fn order_of_lines(first: &RemoteProgress<'_>, second: &RemoteProgress<'_>) -> Ordering
    ensures { result ≡ progress_line_cmp (line_value first.now) (line_value second.now) }
{
    first.cmp(second)
}
