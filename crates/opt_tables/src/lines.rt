ghost use Rattle.std.specs.Prelude.{◌≡◌, ◌↔◌, ◌+◌, ◌-◌, ◌^◌, ◌<◌, [], IsTrue, OnOk, length, slice_index_or, slice_get, option_copied};
ghost use Rattle.opt_base.specs.Answers.{Gives};
ghost use Rattle.opt_tables.specs.Records.{row_of};
ghost use Rattle.opt_tables.specs.Lines.{no_lines, with_line, lines_of, lines_in, without_keys};

use crate::key::Key;
use crate::keys::Keys;
use crate::row::Row;
use opt_base::{File, Kind, ModelFault, Refusal};
use opt_read::{Cells, Setup};
use std::alloc::Global;
use std::marker::Model;

/// What a record says but for the records that it names.
pub trait Line: Drop + Sized {
    ghost use Rattle.std.specs.Prelude.{Result};
    ghost use Rattle.opt_base.specs.declared.refusal.Refusal.{Refusal};
    ghost use Rattle.opt_model.specs.Settings.{Settings};
    ghost use Rattle.opt_tables.specs.Keys.{Known, known_by};
    ghost use Rattle.opt_tables.specs.Records.{Record};

    /// What a record says under the settings, or its first refusal.
    ghost line_of: { Settings → Record → Result Self Refusal };

    /// What the record of a line is known by under the settings.
    ghost key_of: { Settings → Record → Self → Known };

    /// What a record says under the settings, or its first refusal.
    fn read(row: &Row<'_>, setup: &Setup) -> Result<Self, Refusal>
        ensures { result ≡ line_of setup.now row.now };

    /// What the record is known by in its table.
    fn key<'a>(&self, row: &Row<'a>, setup: &Setup) -> Key<'a>
        ensures { known_by result ≡ key_of setup.now row.now self.now };
}

/// The lines of a table in file order, and what its records are known by, each found in constant time.
#[derive(Drop)]
pub struct Lines<'a, L> {
    file: File,
    cells: &'a Cells,
    keys: Keys<'a>,
    lines: Vec<L>,
}

impl<'a, L> Model for Lines<'a, L> {
    ghost use Rattle.std.specs.Prelude.{◌^◌, ◌<◌, ◌≤◌, length};
    ghost use Rattle.opt_tables.specs.Lines.{Lines as Table};

    ghost Value = { Table L };

    ghost view = { λ table. record {
      file = table.file;
      rows = table.cells.now;
      keys = table.keys;
      lines = table.lines.items;
    } };

    ghost invariant = { λ table.
        (length table.lines.items ≤ length table.keys) × (length table.lines.items < 2 ^ 32) };
}

impl<'a, L: Drop> Lines<'a, L> {
    /// No lines of a table so far.
    fn new(alloc: Global, file: File, cells: &'a Cells) -> Lines<'a, L>
        ensures { result ≡ no_lines file cells.now }
    {
        Lines {
            file,
            cells,
            keys: Keys::new(alloc),
            lines: Vec::new(alloc),
        }
    }

    /// How many records the table has.
    pub fn rows(&self) -> u32
        ensures { result ≡ length self.now.rows }
    {
        self.cells.len()
    }

    /// Whether the table has no record.
    pub fn is_empty(&self) -> bool
        ensures { IsTrue result ↔ (self.now.rows ≡ []) }
    {
        self.cells.is_empty()
    }

    /// How many lines there are.
    pub fn len(&self) -> u32
        ensures { result ≡ length self.now.lines }
    {
        self.lines.len() as u32
    }

    /// The line of this number, from 0.
    pub fn line(&self, number: u32) -> &L
        requires { number < length self.now.lines }
        ensures { result.now ≡ slice_index_or self.now.lines number result.now }
    {
        &self.lines[number as usize]
    }

    /// The line of this number, from 0, if there is one.
    pub fn get(&self, number: u32) -> Option<&L>
        ensures { option_copied result ≡ slice_get self.now.lines number }
    {
        self.lines.get(number as usize)
    }

    /// What the records are known by, in file order.
    pub fn keys(&self) -> &Keys<'a>
        ensures { result.now ≡ self.now.keys }
    {
        &self.keys
    }

    /// The lines without what the records are known by, which takes most of the memory.
    pub fn without_keys(self) -> KeylessLines<'a, L>
        ensures { result ≡ without_keys self.entry }
    {
        let Lines {
            file,
            cells,
            keys: _keys,
            lines,
        } = self;
        KeylessLines { file, cells, lines }
    }
}

/// The lines of a table in file order.
#[derive(Drop)]
pub struct KeylessLines<'a, L> {
    file: File,
    cells: &'a Cells,
    lines: Vec<L>,
}

impl<'a, L> Model for KeylessLines<'a, L> {
    ghost use Rattle.std.specs.Prelude.{[], ◌^◌, ◌<◌, length};
    ghost use Rattle.opt_tables.specs.Lines.{Lines as Table};

    ghost Value = { Table L };

    ghost view = { λ table. record {
      file = table.file;
      rows = table.cells.now;
      keys = [];
      lines = table.lines.items;
    } };

    ghost invariant = { λ table. length table.lines.items < 2 ^ 32 };
}

impl<'a, L: Drop> KeylessLines<'a, L> {
    /// How many lines there are.
    pub fn len(&self) -> u32
        ensures { result ≡ length self.now.lines }
    {
        self.lines.len() as u32
    }

    /// The line of this number, from 0.
    pub fn line(&self, number: u32) -> &L
        requires { number < length self.now.lines }
        ensures { result.now ≡ slice_index_or self.now.lines number result.now }
    {
        &self.lines[number as usize]
    }

    /// The record of the line of this number, from 0.
    pub fn row(&self, number: u32) -> Row<'a>
        requires { number < 2 ^ 32 - 1 }
        ensures { result ≡ row_of self.now.file self.now.rows (number + 1) }
    {
        Row::new(self.cells, self.file, number + 1)
    }
}

impl<'a, L: Line> Lines<'a, L> {
    /// The lines of a table, under the settings, unless the table is refused as it stands.
    pub fn read(
        alloc: Global,
        file: File,
        setup: &Setup,
        grid: &'a Result<Cells, Refusal>,
    ) -> Result<Lines<'a, L>, ModelFault>
        ensures { Gives (λ lines. lines) result
            (lines_in (L.line_of setup.now) (L.key_of setup.now) file grid.now) }
    {
        match grid {
            Ok(cells) => Lines::read_all(alloc, file, setup, cells),
            Err(refusal) => Err(ModelFault::Refused(*refusal)),
        }
    }

    /// The lines of a table, under the settings.
    pub fn read_all(
        alloc: Global,
        file: File,
        setup: &Setup,
        cells: &'a Cells,
    ) -> Result<Lines<'a, L>, ModelFault>
        ensures { Gives (λ lines. lines) result
            (lines_of (L.line_of setup.now) (L.key_of setup.now) file cells.now) }
    {
        let mut lines = Lines::new(alloc, file, cells);
        for i in 0..cells.len() {
            lines.add(&Row::new(cells, file, i + 1), setup)?;
        }
        Ok(lines)
    }

    /// Adds the line of one more record.
    fn add(&mut self, row: &Row<'a>, setup: &Setup) -> Result<(), ModelFault>
        requires { length self.old.keys < 2 ^ 32 - 1 }
        ensures read { Gives (λ _. self.new) result
            (with_line (L.line_of setup.now) (L.key_of setup.now) row.now self.old) }
        ensures more { OnOk result (length self.new.keys ≡ length self.old.keys + 1) }
    {
        let line = L::read(row, setup)?;
        let key = line.key(row, setup);
        if self.keys.has(key) {
            return Err(ModelFault::Refused(row.refused(0, Kind::Duplicate)));
        }
        self.keys.add(key)?;
        self.lines.push(line)?;
        Ok(())
    }
}
