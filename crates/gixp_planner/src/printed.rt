//! A ref map whose mappings become their printed text.
ghost use Rattle.std.specs.Prelude.{◌≡◌, ◌<◌, ◌++◌, [], false, true, IfOk, OnErr, OnOk, flat_map, length, reverse};
ghost use Rattle.gixp_planner.specs.Text.{mapping_shown};
ghost use Rattle.gixp_planner.specs.Printed.{left_of, printed_text, taken_text};

use crate::print::append_mapping;
use gix_protocol::fetch::RefMap;
use gix_protocol::fetch::refmap::Mapping;
use std::alloc::{AllocError, Global};
use std::mem;

// How many mappings become text at once: few enough that the memory that they free serves for later texts.
const PART: usize = 512;

/// A ref map whose first mappings may be text.
#[derive(Drop)]
pub(crate) struct PrintedMap {
    /// The texts of the first mappings.
    pub(crate) texts: Vec<Vec<u8>>,
    /// The ref map, with the next mappings.
    pub(crate) map: RefMap,
    /// The mappings after those. Between `begin` and `end` they are in reverse order.
    pub(crate) later: Vec<Mapping>,
}

impl PrintedMap {
    /// No mapping is text yet.
    pub(crate) fn new(alloc: Global, map: RefMap) -> PrintedMap
        ensures map { result.map ≡ map }
        ensures texts { result.texts.items ≡ [] }
        ensures later { result.later.items ≡ [] }
    {
        PrintedMap {
            texts: Vec::new(alloc),
            map,
            later: Vec::new(alloc),
        }
    }

    /// Reverses the mappings, since a list can free memory at its end alone.
    pub(crate) fn begin(&mut self)
        ensures text { taken_text self.new ≡ printed_text self.old }
        ensures left { self.old.later.items ≡ [] → left_of self.new ≡ self.old.map.mappings.items }
    {
        if self.later.is_empty() {
            mem::swap(&mut self.later, &mut self.map.mappings);
        }
        self.later.reverse();
    }

    /// Restores the order of the remaining mappings.
    pub(crate) fn end(&mut self)
        ensures { printed_text self.new ≡ taken_text self.old }
    {
        self.later.reverse();
    }

    /// Replaces the mappings of the ref map by their text.
    ///
    /// # Errors
    ///
    /// An allocation failure; the mappings stay then.
    pub(crate) fn print_part(&mut self, alloc: Global) -> Result<(), AllocError>
        ensures text { taken_text self.new ≡ taken_text self.old }
        ensures taken { OnOk result (self.new.map.mappings.items ≡ []) }
        ensures later { self.new.later.items ≡ self.old.later.items }
    {
        let text = text_of(alloc, &self.map.mappings)?;
        self.texts.push(text)?;
        self.map.mappings.clear();
        Ok(())
    }

    /// Moves the next mappings into the ref map, which has none. Returns whether there are any.
    ///
    /// # Errors
    ///
    /// An allocation failure; nothing changes then.
    pub(crate) fn next_part(&mut self, alloc: Global) -> Result<bool, AllocError>
        requires { self.old.map.mappings.items ≡ [] }
        ensures text { taken_text self.new ≡ taken_text self.old }
        ensures left { left_of self.new ≡ left_of self.old }
        ensures more { IfOk result (λ more. more ≡ true → length self.new.later.items < length self.old.later.items) }
        ensures done { IfOk result (λ more. more ≡ false → left_of self.new ≡ []) }
    {
        if self.later.is_empty() {
            return Ok(false);
        }
        self.map.mappings = next_mappings(alloc, &mut self.later)?;
        self.later.shrink_to_fit();
        Ok(true)
    }
}

fn text_of(alloc: Global, mappings: &[Mapping]) -> Result<Vec<u8>, AllocError>
    ensures { IfOk result (λ text. text.items ≡ flat_map mapping_shown mappings.now) }
{
    let mut text = Vec::new(alloc);
    for mapping in mappings {
        append_mapping(&mut text, mapping)?;
    }
    text.shrink_to_fit();
    Ok(text)
}

// Takes the next mappings, which are at the end of `later` in reverse order.
fn next_mappings(alloc: Global, later: &mut Vec<Mapping>) -> Result<Vec<Mapping>, AllocError>
    ensures taken { IfOk result (λ part. part.items ++ reverse later.new.items ≡ reverse later.old.items) }
    ensures some { IfOk result (λ part. 0 < length later.old.items → 0 < length part.items) }
    ensures refused { OnErr result (later.new.items ≡ later.old.items) }
{
    let mut part = Vec::with_capacity(alloc, PART)?;
    'part: while part.len() < PART {
        match later.pop() {
            Some(mapping) => part.push_reserved(mapping),
            None => return Ok(part),
        }
    }
    Ok(part)
}
