ghost use Rattle.std.specs.Prelude.{◌≡◌, ◌≤◌, IfOk, IfSome, map, option_map};
ghost use Rattle.opt_base.specs.Answers.{Gives};
ghost use Rattle.opt_base.specs.Refusals.{refusal_at};
ghost use Rattle.opt_base.specs.declared.refusal.File.TheVariants.{Settings as SettingsFile};
ghost use Rattle.opt_base.specs.declared.refusal.Kind.TheVariants.{SettingRange};
ghost use Rattle.toml.specs.Data.{get_member};
ghost use Rattle.toml.specs.View.{table_view, view};
ghost use Rattle.opt_read.specs.Keys.{key_name, key_number};
ghost use Rattle.opt_read.specs.Settings.{all_there, amount_setting, amount_value, budget_setting, day_list, days_setting, document_of, goal_setting, goal_named, goal_value, or_out_of_range, natural_of, number_setting, integer_between, settings_of, setup_of, required_value};

use crate::key::Key;
use crate::limits::{AMOUNT_LIMIT, DAY_LIMIT, NODE_SETTING_LIMIT};
use crate::reading::text;
use crate::setup::Setup;
use opt_base::{File, Kind, ModelFault, Refusal};
use opt_model::{Goal, LAST_FORMAT, MONTH_LIMIT};
use std::alloc::Global;
use toml::{Table, Value};

/// What the settings file says.
///
/// Refused are, in this order, a file that is not UTF-8; one that is no TOML; and the keys in the order format,
/// months, days, goal, gap, nodes, budget, each where it is absent, then where its type, word, length or range is wrong.
#[tactic(auto, unfolding(crate::specs::Settings::settings_of))]
pub fn settings(alloc: Global, bytes: &[u8]) -> Result<Setup, ModelFault>
    ensures { Gives (λ setup. setup) result (settings_of bytes.now) }
{
    let text = text(File::Settings, bytes)?;
    let table = document(alloc, text)?;
    setup(alloc, &table)
}

/// The text as TOML.
fn document(alloc: Global, text: &str) -> Result<Table, ModelFault>
    ensures { Gives table_view result (document_of text.now) }
{
    match toml::table_from_str(alloc, text) {
        Ok(table) => Ok(table),
        Err(error) => {
            if error.is_memory() {
                Err(ModelFault::OutOfMemory)
            } else {
                Err(ModelFault::Refused(Refusal::of_file(File::Settings, Kind::TomlRefused)))
            }
        }
    }
}

/// The settings that a document holds.
fn setup(alloc: Global, table: &Table) -> Result<Setup, ModelFault>
    ensures { Gives (λ setup. setup) result (setup_of (table_view table.now)) }
{
    let format = number_setting(table, Key::Format, 1, LAST_FORMAT as u64)?;
    let months = number_setting(table, Key::Months, 1, MONTH_LIMIT as u64)?;
    let days = days_setting(alloc, table, months)?;
    let goal = goal_setting(table)?;
    let gap = amount_setting(table, Key::Gap)?;
    let nodes = number_setting(table, Key::Nodes, 1, NODE_SETTING_LIMIT)?;
    let budget = budget_setting(table)?;
    Ok(Setup {
        format: format as u32,
        months: months as u32,
        days,
        goal,
        gap,
        nodes: nodes as u32,
        budget,
    })
}

/// What stands at a key, if anything does.
fn entry<'a>(table: &'a Table, key: Key) -> Option<&'a Value>
    ensures { option_map (λ value. view value.now) result ≡ get_member (key_name key) (table_view table.now) }
{
    table.get(key.name())
}

/// What stands at a key that must be there.
fn required_value<'a>(table: &'a Table, key: Key) -> Result<&'a Value, ModelFault>
    ensures { Gives (λ value. view value.now) result (required_value (table_view table.now) key) }
{
    match entry(table, key) {
        Some(value) => Ok(value),
        None => {
            let refusal = Refusal::at(File::Settings, 0, key.number(), Kind::SettingMissing);
            Err(ModelFault::Refused(refusal))
        }
    }
}

/// The refusal of a key's value.
fn out_of_range(key: Key) -> ModelFault
    ensures { result ≡ ModelFault.Refused (refusal_at SettingsFile 0 (key_number key) SettingRange) }
{
    ModelFault::Refused(Refusal::at(File::Settings, 0, key.number(), Kind::SettingRange))
}

/// The integer at a key, from `low` to `high`.
fn number_setting(table: &Table, key: Key, low: u64, high: u64) -> Result<u64, ModelFault>
    ensures gives { Gives (λ number. number) result (number_setting (table_view table.now) key low high) }
    ensures bound { IfOk result (λ number. (low ≤ number) × (number ≤ high)) }
{
    let value = required_value(table, key)?;
    match number(value, low, high) {
        Some(number) => Ok(number),
        None => Err(out_of_range(key)),
    }
}

/// The days of each month.
fn days_setting(alloc: Global, table: &Table, months: u64) -> Result<Vec<u32>, ModelFault>
    ensures { Gives (λ days. days.items) result (days_setting (table_view table.now) months) }
{
    let value = required_value(table, Key::Days)?;
    match value.as_array() {
        Some(values) => days(alloc, values, months),
        None => Err(out_of_range(Key::Days)),
    }
}

/// The days of each month that an array holds.
fn days(alloc: Global, values: &[Value], months: u64) -> Result<Vec<u32>, ModelFault>
    ensures { Gives (λ days. days.items) result (or_out_of_range Key.Days (day_list months (map view values.now))) }
{
    if values.len() as u64 == months {
        all_days(alloc, values)
    } else {
        Err(out_of_range(Key::Days))
    }
}

/// Each of these integers, from 0 to the greatest number of days.
fn all_days(alloc: Global, values: &[Value]) -> Result<Vec<u32>, ModelFault>
    ensures { Gives (λ days. days.items) result (or_out_of_range Key.Days (all_there (map (λ value. integer_between 0 DAY_LIMIT (view value)) values.now))) }
{
    let mut days = Vec::new(alloc);
    for value in values {
        match number(value, 0, DAY_LIMIT) {
            Some(day) => days.push(day as u32)?,
            None => return Err(out_of_range(Key::Days)),
        }
    }
    Ok(days)
}

/// What the objective is.
fn goal_setting(table: &Table) -> Result<Goal, ModelFault>
    ensures { Gives (λ goal. goal) result (goal_setting (table_view table.now)) }
{
    let value = required_value(table, Key::Goal)?;
    match goal(value) {
        Some(goal) => Ok(goal),
        None => Err(out_of_range(Key::Goal)),
    }
}

/// The amount at a key, in mills or in units of weighted shortfall.
fn amount_setting(table: &Table, key: Key) -> Result<i64, ModelFault>
    ensures { Gives (λ amount. amount) result (amount_setting (table_view table.now) key) }
{
    let value = required_value(table, key)?;
    match amount(value) {
        Some(amount) => Ok(amount),
        None => Err(out_of_range(key)),
    }
}

/// The budget, in mills, where there is one.
fn budget_setting(table: &Table) -> Result<Option<i64>, ModelFault>
    ensures { Gives (λ budget. budget) result (budget_setting (table_view table.now)) }
{
    match entry(table, Key::Budget) {
        Some(value) => match amount(value) {
            Some(amount) => Ok(Some(amount)),
            None => Err(out_of_range(Key::Budget)),
        },
        None => Ok(None),
    }
}

/// The integer that a value is, from `low` to `high`.
fn number(value: &Value, low: u64, high: u64) -> Option<u64>
    ensures value { result ≡ integer_between low high (view value.now) }
    ensures bound { IfSome result (λ number. (low ≤ number) × (number ≤ high)) }
{
    let number = natural(value.as_integer()?)?;
    if low <= number && number <= high {
        Some(number)
    } else {
        None
    }
}

/// An integer that is not below 0.
fn natural(number: i64) -> Option<u64>
    ensures { result ≡ natural_of number }
{
    u64::try_from(number).ok()
}

/// The amount that a value is.
fn amount(value: &Value) -> Option<i64>
    ensures { result ≡ amount_value (view value.now) }
{
    match number(value, 0, AMOUNT_LIMIT) {
        Some(amount) => Some(amount as i64),
        None => None,
    }
}

/// What the objective is by a value.
fn goal(value: &Value) -> Option<Goal>
    ensures { result ≡ goal_value (view value.now) }
{
    match value.as_str() {
        Some(word) => goal_named(word),
        None => None,
    }
}

/// What the objective is by its word.
fn goal_named(word: &str) -> Option<Goal>
    ensures { result ≡ goal_named word.now }
{
    if word == "cost" {
        Some(Goal::Cost)
    } else if word == "shortfall" {
        Some(Goal::Shortfall)
    } else {
        None
    }
}
