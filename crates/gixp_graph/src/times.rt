//! An ordered map from times to lists of node numbers.
ghost use Rattle.std.specs.Prelude.{◌≡◌, ◌≤◌, ◌+◌, ◌≤ℤ◌, None, IfOk, IfSome, IfNone, OnOk, OnErr, IsTrue, [], ◌∷◌, ◌++◌, All, length};
ghost use Rattle.std.specs.List.Sorted.{IsPermutation};
ghost use Rattle.std.specs.BTreeMap.{insert_entry};
ghost use Rattle.std.specs.Ordering.{int_cmp};
ghost use Rattle.gixp_graph.specs.Times.{entries_in, with_list, IsLinked, AllEnd, IsRest, TakesList};

use crate::queue::Entry;
use std::alloc::{AllocError, Global};
use std::collections::BTreeMap;
use std::marker::Model;

/// A list of node numbers: the first one, and the index of the link with the next.
#[derive(Clone, Copy)]
pub(crate) struct Link {
    number: usize,
    // One past the index of the next number's link, 0 where there is none.
    next: usize,
}

/// Node numbers by time.
#[derive(Drop)]
pub(crate) struct Times {
    // All numbers, except the first of each list. A list continues at an earlier link.
    links: Vec<Link>,
    // The rest of the list that was taken last, with its time, which is the greatest.
    newest: Option<(i64, Link)>,
    lists: BTreeMap<i64, Link>,
}

impl Model for Times {
    ghost use Rattle.std.specs.Prelude.{List};
    ghost use Rattle.gixp_graph.specs.declared.queue.Entry.{Entry};

    ghost Value = { List Entry };

    ghost use Rattle.gixp_graph.specs.Times.{all_entries, IsTimes};

    ghost view = { λ a. all_entries a.links.items a.newest a.lists.entries };

    ghost invariant = { λ a. IsTimes a.links.items a.newest a.lists.entries };
}

// A list without its first number. None where it had no other.
fn rest_of(links: &[Link], list: (i64, Link)) -> Option<(i64, Link)>
    requires { list.1.next ≤ length links.now }
    ensures { IsRest links.now list result }
{
    let (time, numbers) = list;
    if numbers.next == 0 {
        None
    } else {
        Some((time, links[numbers.next - 1]))
    }
}

// Prepends a number to a list.
fn longer(links: &mut Vec<Link>, number: usize, numbers: Link) -> Result<Link, AllocError>
    ensures links { OnOk result (links.new.items ≡ links.old.items ++ numbers ∷ []) }
    ensures longer { IfOk result (λ more. more ≡ record { number = number; next = length links.old.items + 1 }) }
    ensures err { OnErr result (links.new.items ≡ links.old.items) }
{
    links.push(numbers)?;
    Ok(Link {
        number,
        next: links.len(),
    })
}

fn insert_link(lists: &mut BTreeMap<i64, Link>, time: i64, numbers: Link) -> Result<(), AllocError>
    ensures ok { OnOk result (lists.new.entries ≡ insert_entry int_cmp lists.old.entries time numbers) }
    ensures err { OnErr result (lists.new.entries ≡ lists.old.entries) }
{
    match lists.insert(time, numbers) {
        Ok(_) => Ok(()),
        Err(_) => Err(AllocError),
    }
}

// Puts a list back under its time, where there is one.
fn put_back(newest: Option<(i64, Link)>, lists: &mut BTreeMap<i64, Link>) -> Result<(), AllocError>
    ensures ok { OnOk result (lists.new.entries ≡ with_list newest lists.old.entries) }
    ensures err { OnErr result (lists.new.entries ≡ lists.old.entries) }
{
    match newest {
        Some((time, numbers)) => insert_link(lists, time, numbers),
        None => Ok(()),
    }
}

fn add(
    links: &mut Vec<Link>,
    lists: &mut BTreeMap<i64, Link>,
    entry: Entry,
) -> Result<(), AllocError>
    requires linked { IsLinked links.old.items }
    requires ends { AllEnd links.old.items lists.old.entries }
    ensures linked { IsLinked links.new.items }
    ensures ends { AllEnd links.new.items lists.new.entries }
    ensures added { OnOk result (IsPermutation (entry ∷ entries_in links.old.items lists.old.entries)
        (entries_in links.new.items lists.new.entries)) }
{
    let Some(numbers) = lists.remove(&entry.time) else {
        let alone = Link {
            number: entry.number,
            next: 0,
        };
        return insert_link(lists, entry.time, alone);
    };
    let more = longer(links, entry.number, numbers)?;
    insert_link(lists, entry.time, more)
}

// Takes the list of the greatest time: `newest`, else the last of the map.
fn take_list(newest: Option<(i64, Link)>, lists: &mut BTreeMap<i64, Link>) -> Option<(i64, Link)>
    ensures some { IfSome result (λ list. TakesList newest lists.old.entries list lists.new.entries) }
    ensures none { IfNone result ((newest ≡ None) × (lists.old.entries ≡ []) × (lists.new.entries ≡ [])) }
{
    match newest {
        Some(list) => Some(list),
        None => lists.pop_last(),
    }
}

impl Times {
    /// Creates an empty collection of times.
    pub fn new(alloc: Global) -> Self
        ensures { result ≡ [] }
    {
        Times {
            links: Vec::new(alloc),
            newest: None,
            lists: BTreeMap::new(alloc),
        }
    }

    /// Adds a number. An error may lose numbers.
    pub fn push(&mut self, entry: Entry) -> Result<(), AllocError>
        ensures { OnOk result (IsPermutation (entry ∷ self.old) self.new) }
    {
        put_back(self.newest, &mut self.lists)?;
        self.newest = None;
        add(&mut self.links, &mut self.lists, entry)
    }

    fn newest_time(&self) -> Option<i64>
        ensures some { IfSome result (λ t. All (λ e. e.time ≤ℤ t) self.now) }
        ensures none { IfNone result (self.now ≡ []) }
    {
        if let Some((time, _)) = self.newest {
            return Some(time);
        }
        match self.lists.last_key_value() {
            Some(last) => Some(*last.0),
            None => None,
        }
    }

    /// Whether no number has a greater time than this one.
    pub fn is_newest(&self, time: i64) -> bool
        ensures { IsTrue result → All (λ e. e.time ≤ℤ time) self.now }
    {
        match self.newest_time() {
            Some(newest) => newest <= time,
            None => true,
        }
    }

    /// Takes an entry with the greatest time.
    pub fn pop_newest(&mut self) -> Option<Entry>
        ensures taken { IfSome result (λ newest. IsPermutation self.old (newest ∷ self.new)) }
        ensures newest { IfSome result (λ newest. All (λ e. e.time ≤ℤ newest.time) self.new) }
        ensures none { IfNone result (self.old ≡ []) }
    {
        let list = take_list(self.newest, &mut self.lists)?;
        self.newest = rest_of(self.links.as_slice(), list);
        let (time, numbers) = list;
        Some(Entry {
            time,
            number: numbers.number,
        })
    }
}
