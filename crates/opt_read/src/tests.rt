ghost use Rattle.std.specs.Prelude.{◌<◌, ◌^◌, length};

use crate::{Cells, Goal, grid, settings};
use opt_base::{File, Kind, ModelFault, Refusal};
use std::alloc::{AllocError, Global};
use std::test::Fail;

/// The settings that the other tests change.
const PLAIN: &str =
    "format = 1\nmonths = 1\ndays = [30]\ngoal = \"shortfall\"\ngap = 300\nnodes = 1\n";

/// The settings of 36 months, from the days on.
const YEARS: &str = "months = 36\ndays = [
31, 28, 31, 30, 31, 30, 31, 31, 30, 31, 30, 31,
31, 29, 31, 30, 31, 30, 31, 31, 30, 31, 30, 31,
31, 28, 31, 30, 31, 30, 31, 31, 30, 31, 30, 0,
]\ngoal = \"cost\"\ngap = 9_000_000_000_000_000_000\nnodes = 1_000_000\n";

fn refused(file: File, number: u32, column: u8, kind: Kind) -> Option<ModelFault> {
    Some(ModelFault::Refused(Refusal {
        file,
        number,
        column,
        kind,
    }))
}

/// Whether a table of the columns a and b is refused so.
fn refuses_table(alloc: Global, bytes: &[u8], number: u32, column: u8, kind: Kind) -> bool
    requires { length bytes.now < 2 ^ 32 }
{
    grid(alloc, File::Arcs, bytes, "a,b").err() == refused(File::Arcs, number, column, kind)
}

/// Whether settings that go on so are refused so.
fn refuses_settings(
    alloc: Global,
    head: &str,
    tail: &str,
    column: u8,
    kind: Kind,
) -> Result<bool, AllocError> {
    let text = format!(in alloc; "{head}{tail}")?;
    let answer = settings(alloc, text.as_bytes()).err();
    Ok(answer == refused(File::Settings, 0, column, kind))
}

#[test]
fn reads_a_table_of_a_spreadsheet(rt: HostRuntime) -> Result<(), Fail> {
    // A mark, CRLF, another order, a further column, a quoted comma, quote and line end, and blanks round fields.
    let bytes =
        b"\xef\xbb\xbfstep_g,\tcommodity ,note,group\r\n10,\"rice, white\",x,\r\n 5\t,\"a \"\"b\"\"\r\nc\", ,\"\t g \"\r\n";
    let cells = grid(
        rt.alloc(),
        File::Commodities,
        bytes,
        "commodity,group,step_g",
    )?;
    assert!(rt; cells.len() == 2);
    assert!(rt; !cells.is_empty());
    assert!(rt; cells.field(1, 0) == "rice, white");
    assert!(rt; cells.field(1, 1) == "");
    assert!(rt; cells.field(1, 2) == "10");
    assert!(rt; cells.field(2, 0) == "a \"b\"\r\nc");
    assert!(rt; cells.field(2, 1) == "g");
    assert!(rt; cells.field(2, 2) == "5");
    assert!(rt; cells.field(0, 0) == "");
    assert!(rt; cells.field(3, 0) == "");
    assert!(rt; cells.field(1, 3) == "");
    Ok(())
}

#[test]
fn reads_a_header_alone(rt: HostRuntime) -> Result<(), Fail> {
    // A further column may stand twice.
    let cells = grid(rt.alloc(), File::Groups, b"x,b,x,a", "a,b")?;
    assert!(rt; cells.is_empty());
    Ok(())
}

#[test]
fn has_no_records(rt: HostRuntime) {
    let cells = Cells::empty(rt.alloc());
    assert!(rt; cells.is_empty());
    assert!(rt; cells.len() == 0);
    assert!(rt; cells.field(1, 0).is_empty());
}

#[test]
fn refuses_columns(rt: HostRuntime) -> Result<(), Fail> {
    let alloc = rt.alloc();
    // No record, the first column, the second, another case, one inside another.
    assert!(rt; refuses_table(alloc, b"", 0, 1, Kind::ColumnMissing));
    assert!(rt; refuses_table(alloc, b"\xef\xbb\xbf\r\n\n", 0, 1, Kind::ColumnMissing));
    assert!(rt; refuses_table(alloc, b"b,c\n1,2\n", 0, 1, Kind::ColumnMissing));
    assert!(rt; refuses_table(alloc, b"c,a\n", 0, 2, Kind::ColumnMissing));
    assert!(rt; refuses_table(alloc, b"A,b\n", 0, 1, Kind::ColumnMissing));
    assert!(rt; refuses_table(alloc, b"ab,b\n", 0, 1, Kind::ColumnMissing));
    // Twice, also once with blanks; the earlier column decides.
    assert!(rt; refuses_table(alloc, b"a,b,a\n", 0, 1, Kind::ColumnTwice));
    assert!(rt; refuses_table(alloc, b"b,a, b\n", 0, 2, Kind::ColumnTwice));
    assert!(rt; refuses_table(alloc, b"a,a\n", 0, 1, Kind::ColumnTwice));
    assert!(rt; refuses_table(alloc, b"b,b\n", 0, 1, Kind::ColumnMissing));
    Ok(())
}

#[test]
fn refuses_records(rt: HostRuntime) -> Result<(), Fail> {
    let alloc = rt.alloc();
    // The first record that is shorter or longer, after the columns.
    assert!(rt; refuses_table(alloc, b"a,b\n1,2\n1\n1,2,3\n", 2, 0, Kind::Uneven));
    assert!(rt; refuses_table(alloc, b"a,b\n1,2,\n", 1, 0, Kind::Uneven));
    assert!(rt; refuses_table(alloc, b"a,c\n1\n", 0, 2, Kind::ColumnMissing));
    // No text: in the header, in a column that is read, in a further one.
    assert!(rt; refuses_table(alloc, b"\xff\n", 0, 0, Kind::NotUtf8));
    assert!(rt; refuses_table(alloc, b"a,b,c\n1,\xc3,3\n1\n", 0, 0, Kind::NotUtf8));
    assert!(rt; refuses_table(alloc, b"a,b,c\n1,2,\xed\xa0\x80\n", 0, 0, Kind::NotUtf8));
    Ok(())
}

#[test]
fn reads_a_table_of_16_777_216_bytes(rt: HostRuntime) -> Result<(), Fail> {
    // A further column of half as many bytes, and then empty lines.
    let alloc = rt.alloc();
    let mut bytes = Vec::from_slice(alloc, b"a,c,b\n1,")?;
    bytes.resize(8_388_608, b'x')?;
    bytes.extend_from_slice(b",2\n")?;
    bytes.resize(16_777_216, b'\n')?;
    assert!(rt; bytes.len() == 16_777_216);
    let cells = grid(alloc, File::Arcs, bytes.as_slice(), "a,b")?;
    assert!(rt; cells.len() == 1);
    assert!(rt; cells.field(1, 0) == "1");
    assert!(rt; cells.field(1, 1) == "2");
    Ok(())
}

#[test]
fn reads_settings_of_65_536_bytes(rt: HostRuntime) -> Result<(), Fail> {
    let alloc = rt.alloc();
    let mut bytes = Vec::from_slice(alloc, PLAIN.as_bytes())?;
    bytes.resize(65_536, b'#')?;
    assert!(rt; bytes.len() == 65_536);
    let setup = settings(alloc, bytes.as_slice())?;
    assert!(rt; setup.nodes() == 1);
    Ok(())
}

#[test]
fn reads_settings(rt: HostRuntime) -> Result<(), Fail> {
    let setup = settings(rt.alloc(), PLAIN.as_bytes())?;
    assert!(rt; setup.format() == 1);
    assert!(rt; setup.months() == 1);
    assert!(rt; setup.days(1) == 30);
    assert!(rt; setup.goal() == Goal::Shortfall);
    assert!(rt; setup.gap() == 300);
    assert!(rt; setup.nodes() == 1);
    assert!(rt; setup.budget().is_none());
    Ok(())
}

#[test]
fn reads_settings_at_their_ends(rt: HostRuntime) -> Result<(), Fail> {
    // A mark, another order and further keys.
    let text =
        "\u{feff}budget = 9_000_000_000_000_000_000\nnodes = 1\ngap = 0\ngoal = 'shortfall'\ndays = [\n0, # none\n]\nmonths = 1\nformat = 1\nnote = \"x\"\n[more]\ngap = 1\n";
    let setup = settings(rt.alloc(), text.as_bytes())?;
    assert!(rt; setup.months() == 1);
    assert!(rt; setup.days(1) == 0);
    assert!(rt; setup.gap() == 0);
    assert!(rt; setup.nodes() == 1);
    assert!(rt; setup.budget() == Some(9_000_000_000_000_000_000));
    Ok(())
}

#[test]
fn reads_settings_of_36_months(rt: HostRuntime) -> Result<(), Fail> {
    let alloc = rt.alloc();
    for (format, text) in [
        (1, "format = 1\n"),
        (2, "format = 2\n"),
        (3, "format = 3\n"),
    ] {
        let text = format!(in alloc; "{text}{YEARS}budget = 0\n")?;
        let setup = settings(alloc, text.as_bytes())?;
        assert!(rt; setup.format() == format);
        assert!(rt; setup.months() == 36);
        assert!(rt; setup.goal() == Goal::Cost);
        assert!(rt; setup.gap() == 9_000_000_000_000_000_000);
        assert!(rt; setup.nodes() == 1_000_000);
        assert!(rt; setup.budget() == Some(0));
        // 31 + 28 + 31 + 30 + 31 + 30 + 31 + 31 + 30 + 31 + 30 + 31 days are 365, so 365 + 366 + 365 - 31.
        let mut sum = 0u64;
        for month in 1..=setup.months() {
            sum = sum.saturating_add(setup.days(month) as u64);
        }
        assert!(rt; sum == 1065);
        assert!(rt; setup.days(2) == 28);
        assert!(rt; setup.days(14) == 29);
        assert!(rt; setup.days(36) == 0);
    }
    Ok(())
}

#[test]
fn refuses_files_of_settings(rt: HostRuntime) -> Result<(), Fail> {
    let alloc = rt.alloc();
    let bytes = settings(alloc, b"format = 1 # \xff\n").err();
    assert!(rt; bytes == refused(File::Settings, 0, 0, Kind::NotUtf8));
    // Two marks, an array that is not closed, a key twice, an integer past 64 bits on either side.
    assert!(rt; refuses_settings(alloc, "\u{feff}\u{feff}", PLAIN, 0, Kind::TomlRefused)?);
    assert!(rt; refuses_settings(alloc, "days = [30\n", "", 0, Kind::TomlRefused)?);
    assert!(rt; refuses_settings(alloc, PLAIN, "gap = 300\n", 0, Kind::TomlRefused)?);
    assert!(rt;
        refuses_settings(
            alloc,
            "gap = 9223372036854775808\n",
            "",
            0,
            Kind::TomlRefused
        )?
    );
    assert!(rt;
        refuses_settings(
            alloc,
            PLAIN,
            "budget = -9223372036854775809\n",
            0,
            Kind::TomlRefused
        )?
    );
    Ok(())
}

#[test]
fn refuses_keys(rt: HostRuntime) -> Result<(), Fail> {
    let alloc = rt.alloc();
    let range = Kind::SettingRange;
    let missing = Kind::SettingMissing;
    assert!(rt; refuses_settings(alloc, "", "nodes = 0\n", 1, missing)?);
    for wrong in ["0", "4", "-1", "1.0", "\"1\"", "[1]", "true"] {
        assert!(rt; refuses_settings(alloc, "format = ", wrong, 1, range)?);
    }
    let head = "format = 1\n";
    assert!(rt; refuses_settings(alloc, head, "", 2, missing)?);
    for wrong in [
        "months = 0",
        "months = 37",
        "months = -1",
        "months = true",
        "months = '1'",
        "months = [1]",
        "months = 9223372036854775807",
    ] {
        assert!(rt; refuses_settings(alloc, head, wrong, 2, range)?);
    }
    let head = "format = 1\nmonths = 1\n";
    assert!(rt; refuses_settings(alloc, head, "", 3, missing)?);
    for wrong in ["30", "[]", "[30, 30]", "[-1]", "[32]", "['30']", "[[30]]"] {
        assert!(rt; refuses_settings(alloc, "format = 1\nmonths = 1\ndays = ", wrong, 3, range)?);
    }
    // One number of days too few, one too many, the last one wrong.
    for wrong in [
        "[30, 30]",
        "[30, 30, 30, 30]",
        "[30, 30, 32]",
        "[30, 30, 1.5]",
    ] {
        assert!(rt; refuses_settings(alloc, "format = 3\nmonths = 3\ndays = ", wrong, 3, range)?);
    }
    Ok(())
}

#[test]
fn refuses_later_keys(rt: HostRuntime) -> Result<(), Fail> {
    let alloc = rt.alloc();
    let range = Kind::SettingRange;
    let missing = Kind::SettingMissing;
    let head = "format = 1\nmonths = 1\ndays = [31]\n";
    assert!(rt; refuses_settings(alloc, head, "gap = 300\nnodes = 1\n", 4, missing)?);
    for wrong in [
        "goal = 1",
        "goal = 'Cost'",
        "goal = 'costs'",
        "goal = 'Shortfall'",
        "goal = ''",
        "goal = ['shortfall']",
    ] {
        assert!(rt; refuses_settings(alloc, head, wrong, 4, range)?);
    }
    let head = "format = 1\nmonths = 1\ndays = [31]\ngoal = 'shortfall'\n";
    assert!(rt; refuses_settings(alloc, head, "", 5, missing)?);
    for wrong in [
        "gap = -1",
        "gap = 9000000000000000001",
        "gap = '0'",
        "gap = 1e3",
    ] {
        assert!(rt; refuses_settings(alloc, head, wrong, 5, range)?);
    }
    let head =
        "format = 1\nmonths = 1\ndays = [31]\ngoal = 'shortfall'\ngap = 9000000000000000000\n";
    assert!(rt; refuses_settings(alloc, head, "", 6, missing)?);
    for wrong in ["nodes = 0", "nodes = 1000001", "nodes = -1", "nodes = [1]"] {
        assert!(rt; refuses_settings(alloc, head, wrong, 6, range)?);
    }
    for wrong in [
        "budget = -1",
        "budget = 9000000000000000001",
        "budget = 0.0",
        "budget = ''",
    ] {
        assert!(rt; refuses_settings(alloc, PLAIN, wrong, 7, range)?);
    }
    Ok(())
}
