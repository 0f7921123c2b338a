ghost use Rattle.std.specs.Prelude.{◌≡◌, ◌<◌, ◌++◌, ◌∷◌, [], OnOk, length, slice_index_or};
ghost use Rattle.csv.specs.Records.{prev};

use opt_base::OutOfMemory;
use std::alloc::Global;
use std::marker::Model;

/// Texts one after the other in one string, with the place where each ends in 4 bytes.
/// Contracts see a list of the fields' bytes.
#[derive(Drop)]
pub(crate) struct FieldList {
    text: String,
    ends: Vec<u32>,
}

impl Model for FieldList {
    ghost use Rattle.std.specs.Prelude.{List, ℕ, string_bytes};
    ghost use Rattle.csv.specs.Records.{cut_from};
    ghost use Rattle.opt_read.specs.Fields.{AreEnds};

    ghost Value = { List (List ℕ) };

    ghost view = { λ list. cut_from 0 list.ends.items (string_bytes list.text) };

    ghost invariant = { λ list. AreEnds (string_bytes list.text) list.ends.items };
}

impl FieldList {
    /// No fields.
    pub(crate) fn new(alloc: Global) -> FieldList
        ensures { result ≡ [] }
    {
        FieldList {
            text: String::new(alloc),
            ends: Vec::new(alloc),
        }
    }

    /// Adds a field. Where all fields together would pass 2^32 - 1 bytes, this is out of memory.
    pub(crate) fn push(&mut self, field: &str) -> Result<(), OutOfMemory>
        ensures { OnOk result (self.new ≡ self.old ++ field.now ∷ []) }
    {
        let Ok(end) = u32::try_from(self.text.len() + field.len()) else {
            return Err(OutOfMemory);
        };
        self.ends.reserve(1)?;
        self.text.push_str(field)?;
        self.ends.push_reserved(end);
        Ok(())
    }

    /// The field at a place, numbered from 0; empty where there is none.
    pub(crate) fn field(&self, index: usize) -> &str
        ensures { result.now ≡ slice_index_or self.now index [] }
    {
        if index >= self.ends.len() {
            return "";
        }
        let start = start(&self.ends, index);
        &self.text[start..self.ends[index] as usize]
    }
}

/// Where the field at a place starts: where the one before it ends.
fn start(ends: &[u32], index: usize) -> usize
    requires { index < length ends.now }
    ensures { result ≡ prev 0 ends.now index }
{
    match index.checked_sub(1) {
        Some(before) => ends[before] as usize,
        None => 0,
    }
}
