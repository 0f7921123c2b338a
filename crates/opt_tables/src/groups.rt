use crate::key::Key;
use crate::lines::Line;
use crate::link::Link;
use crate::row::Row;
use opt_base::{ModelFault, Refusal};
use opt_model::{GROUP_LIMIT, Group, Name};
use opt_read::Setup;
use std::alloc::Global;

/// What a record of groups.csv says but for its name.
#[derive(Clone, Copy, Debug, PartialEq, Eq)]
pub struct GroupLine {
    /// The least sum of rations, 0 to 10^6 grams per person and day.
    pub min_g: u32,
    /// The greatest sum of rations, 0 to 10^6 grams per person and day.
    pub max_g: u32,
}

impl Line for GroupLine {
    ghost use Rattle.opt_tables.specs.Lines.{name_key};
    ghost use Rattle.opt_tables.specs.Diet.{group_line_of};

    ghost line_of = { λ settings. group_line_of };

    ghost key_of = { λ settings. name_key };

    fn read(row: &Row<'_>, _setup: &Setup) -> Result<GroupLine, Refusal> {
        row.name(1)?;
        Ok(GroupLine {
            min_g: row.number(2, 0, GROUP_LIMIT)?,
            max_g: row.number(3, 0, GROUP_LIMIT)?,
        })
    }

    fn key<'a>(&self, row: &Row<'a>, _setup: &Setup) -> Key<'a> {
        Key::Name(row.text(1))
    }
}

impl Link<Group, ()> for GroupLine {
    ghost use Rattle.opt_tables.specs.Diet.{group_of};

    ghost record_of = { λ settings named. group_of };

    fn link(
        &self,
        alloc: Global,
        row: &Row<'_>,
        _setup: &Setup,
        _named: &(),
    ) -> Result<Group, ModelFault> {
        Ok(Group {
            group: Name::new(alloc, row.text(1))?,
            min_g: i64::from(self.min_g),
            max_g: i64::from(self.max_g),
        })
    }
}
