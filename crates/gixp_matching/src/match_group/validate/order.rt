//! Conflicts sorted by the bytes of their local names.
ghost use Rattle.std.specs.Prelude.{◌≡◌, drop, take, OnOk};
ghost use Rattle.std.specs.Cmp.Lexicographic.{slice_cmp};
ghost use Rattle.std.specs.List.Sorted.{IsPermutation, IsSortedByKey};
ghost use Rattle.std.specs.Ordering.{nat_cmp};
ghost use Rattle.gixp_matching.specs.Found.{destination_of, leading, part, ShareFront};

use crate::match_group::digest::step;
use crate::match_group::validate::Issue;
use std::alloc::AllocError;
use std::cmp::Ordering;

// How many bytes of a name are compared before the whole name is.
const WIDTH: usize = 64;

fn name_of(issue: &Issue) -> &[u8]
    ensures { result.now ≡ destination_of issue.now }
{
    let Issue::Conflict {
        destination_full_ref_name,
        specs: _,
        sources: _,
    } = issue;
    destination_full_ref_name.as_bytes()
}

// The length of the common prefix of two names.
fn shared_len(first: &[u8], name: &[u8]) -> usize
    ensures { take result name.now ≡ take result first.now }
{
    'bytes: for place in 0..first.len() {
        if place >= name.len() || name[place] != first[place] {
            return place;
        }
    }
    first.len()
}

// The length of the common prefix of all local names.
fn front_len(issues: &[Issue]) -> usize
    ensures { ShareFront result issues.now }
{
    let Some(first) = issues.first() else {
        return 0;
    };
    let name = name_of(first);
    let mut front = name.len();
    'issues: for issue in issues {
        front = front.min(shared_len(name, name_of(issue)));
    }
    front
}

// The first eight bytes as a big-endian number, padded with zeros.
#[tactic(auto, unfolding(crate::specs::Found::leading))]
fn leading(bytes: &[u8]) -> u64
    ensures { result ≡ leading 8 bytes.now }
{
    let mut number = 0;
    'places: for place in 0usize..8 {
        number = step(number, bytes.get(place).copied().unwrap_or(0));
    }
    number
}

// The eight bytes after the common prefix, as a number.
fn number_of(issue: &Issue, front: usize) -> u64
    ensures { result ≡ leading 8 (drop front (destination_of issue.now)) }
{
    let name = name_of(issue);
    leading(&name[front.min(name.len())..])
}

// The bytes after the common prefix, padded with zeros.
fn part_of(issue: &Issue, front: usize) -> [u8; WIDTH]
    ensures { result ≡ part 64 (drop front (destination_of issue.now)) }
{
    let name = name_of(issue);
    let rest = &name[front.min(name.len())..];
    let count = rest.len().min(WIDTH);
    let mut part = [0; WIDTH];
    part[..count].copy_from_slice(&rest[..count]);
    part
}

// Compares the bytes of the local names.
fn by_name(a: &Issue, b: &Issue) -> Ordering
    ensures { result ≡ slice_cmp nat_cmp (destination_of a.now) (destination_of b.now) }
{
    name_of(a).cmp(name_of(b))
}

// Whether each local name is below the next.
fn are_in_order(issues: &[Issue]) -> bool {
    'places: for place in 1..issues.len() {
        if by_name(&issues[place - 1], &issues[place]) != Ordering::Less {
            return false;
        }
    }
    true
}

// Sorts conflicts almost by the bytes of their local names. The eight bytes after the common prefix mostly decide,
// else the part after it. Both are stored next to each other, while names are far apart in memory.
fn sort_by_parts(issues: &mut Vec<Issue>) -> Result<(), AllocError>
    ensures { IsPermutation issues.old.items issues.new.items }
{
    let front = front_len(issues);
    issues.sort_by_cached_key(|issue| number_of(issue, front))?;
    if are_in_order(issues) {
        return Ok(());
    }
    issues.sort_by_cached_key(|issue| part_of(issue, front))?;
    Ok(())
}

/// Sorts conflicts by the bytes of their local names. Most names are then only compared with their neighbours. A
/// server that makes all parts equal has to send names so long that comparing them costs less than the rest of the work on
/// them.
pub(crate) fn sort_by_name(issues: &mut Vec<Issue>) -> Result<(), AllocError>
    ensures permutation { IsPermutation issues.old.items issues.new.items }
    ensures order { OnOk result (IsSortedByKey destination_of (slice_cmp nat_cmp) issues.new.items) }
{
    sort_by_parts(issues)?;
    issues.sort_unstable_by(|a, b| by_name(a, b));
    Ok(())
}
