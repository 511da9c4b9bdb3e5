//! Commits that are named as common more than once, found by sorting.
ghost use Rattle.std.specs.Prelude.{List, length, ◌≡◌, ◌∷◌, ◌++◌, [], not, OnOk};
ghost use Rattle.std.specs.List.Sorted.{IsPermutation, IsSorted};
ghost use Rattle.gixp_hash.specs.ObjectId.{id_cmp};
ghost use Rattle.gixp_response.specs.RepeatedCommons.{AreNoted, front_of, named_from, row_cmp};
ghost use Rattle.gixp_utils.specs.Repeats.{is_repeat, marked, tested_from};
ghost use Rattle.gixp_response.specs.declared.fetch.response.line.Acknowledgement.{Acknowledgement as AcknowledgementData};

use crate::fetch::response::line::Acknowledgement;
use gixp_hash::ObjectId;
use gixp_utils::mark;
use std::alloc::{AllocError, Global};
use std::cmp::Ordering;

// A commit named as common, and the position of its acknowledgement.
pub(crate) type Row = (ObjectId, usize);

// Finds the repeats once all acknowledgements were read. By then the response may have ended, and no allocation may
// fail. So `note` allocates for each acknowledgement.
#[derive(Drop)]
pub(crate) struct Repeats {
    pub(crate) rows: Vec<Row>,
    pub(crate) flags: Vec<bool>,
}

// The first bytes of an id, as one number.
#[tactic(auto, unfolding(crate::specs::RepeatedCommons::front_of))]
fn front_of(id: &ObjectId) -> u64
    ensures { result ≡ front_of id.now.bytes }
{
    let bytes = &id.bytes;
    u64::from_le_bytes([
        bytes[0], bytes[1], bytes[2], bytes[3], bytes[4], bytes[5], bytes[6], bytes[7],
    ])
}

// Compares two rows by the first bytes of their commits; only if these are equal by all bytes and then by position. Ids
// are as good as random, so a processor predicts this branch, and the sort compiles the comparison of two numbers
// without a branch.
fn compare(a: &Row, b: &Row) -> Ordering
    ensures { result ≡ row_cmp a.now b.now }
{
    let first = front_of(&a.0);
    let second = front_of(&b.0);
    if first == second {
        a.cmp(b)
    } else {
        first.cmp(&second)
    }
}

// Sorts the rows, so that equal commits are next to each other in order of position. It allocates nothing.
fn put_in_order(rows: &mut Vec<Row>)
    ensures permutation { IsPermutation rows.old.items rows.new.items }
    ensures sorted { IsSorted row_cmp rows.new.items }
{
    rows.sort_unstable_by(|a, b| compare(a, b));
}

impl Repeats {
    pub(crate) fn new(alloc: Global) -> Repeats
        ensures { AreNoted [] result }
    {
        Repeats {
            rows: Vec::new(alloc),
            flags: Vec::new(alloc),
        }
    }

    // Adds a row if this acknowledgement names a common commit.
    fn push_row(&mut self, found: Acknowledgement) -> Result<(), AllocError>
        ensures rows { OnOk result (self.new.rows.items ≡ self.old.rows.items ++ named_from (length self.old.flags.items) (found ∷ [])) }
        ensures flags { self.new.flags.items ≡ self.old.flags.items }
    {
        match found {
            Acknowledgement::Common(id) => {
                self.rows.push((id, self.flags.len()))?;
                Ok(())
            }
            Acknowledgement::Ready => Ok(()),
            Acknowledgement::Nak => Ok(()),
        }
    }

    pub(crate) fn note(&mut self, found: Acknowledgement) -> Result<(), AllocError>
        ensures { OnOk result ((had : List AcknowledgementData) → AreNoted had self.old → AreNoted (had ++ found ∷ []) self.new) }
    {
        self.push_row(found)?;
        self.flags.push(true)?;
        Ok(())
    }

    // For each acknowledgement, whether no earlier one names the same common commit.
    pub(crate) fn into_flags(self) -> Vec<bool>
        ensures { (had : List AcknowledgementData) → AreNoted had self
            → result.items ≡ tested_from (λ place. not (is_repeat id_cmp (named_from 0 had) place)) 0 had }
    {
        let Repeats {
            mut rows,
            mut flags,
        } = self;
        put_in_order(&mut rows);
        mark(&rows, &mut flags);
        flags
    }
}
