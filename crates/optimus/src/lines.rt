ghost use Rattle.std.specs.Prelude.{◌≡◌, IfOk, string_bytes};
ghost use Rattle.opt_model.specs.Texts.{outcome_line, best_text, kind_text, record_text, column_text, refusal_line};
ghost use Rattle.opt_report.specs.Summaries.{IsSummed};

use opt_base::{File, Kind, Refusal};
use opt_model::{Verdict, column_name, file_name};
use std::alloc::{AllocError, Global};

/// The line of a verdict, with the number of nodes. Its numbers are from 0 to 2^126.
pub fn line_of_verdict(alloc: Global, verdict: &Verdict, nodes: u32) -> Result<String, AllocError>
    requires { IsSummed verdict.now }
    ensures { IfOk result (λ text. string_bytes text ≡ outcome_line verdict.now nodes) }
{
    match *verdict {
        Verdict::Plan { objective, bound } => {
            let gap = objective - bound;
            format!(in alloc; "plan {objective} bound {bound} gap {gap} nodes {nodes}\n")
        }
        Verdict::NoPlan => format!(in alloc; "no plan nodes {nodes}\n"),
        Verdict::Unfinished { bound, best } => {
            let best = text_of_best(alloc, best)?;
            format!(in alloc; "unfinished bound {bound} best {best} nodes {nodes}\n")
        }
    }
}

/// The best known objective, or `none`.
fn text_of_best(alloc: Global, best: Option<i128>) -> Result<String, AllocError>
    ensures { IfOk result (λ text. string_bytes text ≡ best_text best) }
{
    match best {
        Some(best) => format!(in alloc; "{best}"),
        None => format!(in alloc; "none"),
    }
}

/// What a kind of refusal is called, with the count that it carries.
fn text_of_kind(alloc: Global, kind: Kind) -> Result<String, AllocError>
    ensures { IfOk result (λ text. string_bytes text ≡ kind_text kind) }
{
    let name = match kind {
        Kind::MissingFile => "MissingFile",
        Kind::FileTooBig => "FileTooBig",
        Kind::NotUtf8 => "NotUtf8",
        Kind::TomlRefused => "TomlRefused",
        Kind::SettingMissing => "SettingMissing",
        Kind::SettingRange => "SettingRange",
        Kind::ColumnMissing => "ColumnMissing",
        Kind::ColumnTwice => "ColumnTwice",
        Kind::Uneven => "Uneven",
        Kind::EmptyName => "EmptyName",
        Kind::NameTooLong => "NameTooLong",
        Kind::BadNumber => "BadNumber",
        Kind::OutOfRange => "OutOfRange",
        Kind::Duplicate => "Duplicate",
        Kind::UnknownName => "UnknownName",
        Kind::WrongPlaceKind => "WrongPlaceKind",
        Kind::NoStepInRange => "NoStepInRange",
        Kind::EmptyTable => "EmptyTable",
        Kind::TooMany(count) => return format!(in alloc; "TooMany {count}"),
    };
    name.to_string(alloc)
}

/// The record of a refusal, where there is one.
fn text_of_record(alloc: Global, number: u32) -> Result<String, AllocError>
    ensures { IfOk result (λ text. string_bytes text ≡ record_text number) }
{
    if number == 0 {
        "".to_string(alloc)
    } else {
        format!(in alloc; " record {number}")
    }
}

/// The column or key of a refusal, where there is one.
fn text_of_column(alloc: Global, file: File, column: u8) -> Result<String, AllocError>
    ensures { IfOk result (λ text. string_bytes text ≡ column_text file column) }
{
    if column == 0 {
        "".to_string(alloc)
    } else {
        let name = column_name(file, column);
        format!(in alloc; " column {name}")
    }
}

/// The line of a refusal of the model or of a plan file.
pub fn line_of_refusal(alloc: Global, refusal: &Refusal) -> Result<String, AllocError>
    ensures { IfOk result (λ text. string_bytes text ≡ refusal_line refusal.now) }
{
    let file = file_name(refusal.file);
    let record = text_of_record(alloc, refusal.number)?;
    let column = text_of_column(alloc, refusal.file, refusal.column)?;
    let kind = text_of_kind(alloc, refusal.kind)?;
    format!(in alloc; "refused {file}{record}{column}: {kind}\n")
}
