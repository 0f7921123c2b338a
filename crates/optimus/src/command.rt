ghost use Rattle.std.specs.Prelude.{◌≡◌};
ghost use Rattle.optimus.specs.Words.{command_named};

/// The commands of the program.
#[derive(Clone, Copy, Debug, PartialEq, Eq)]
pub enum Command {
    /// Plans the model of a folder.
    Plan,
    /// Judges the certificate of a folder.
    Check,
    /// Holds the plan file of a folder against each row of its model.
    Audit,
    /// Reports what the plan file of a folder means.
    Report,
}

/// The command of this name.
pub fn command_named(name: &str) -> Option<Command>
    ensures { result ≡ command_named name.now }
{
    match name {
        "plan" => Some(Command::Plan),
        "check" => Some(Command::Check),
        "audit" => Some(Command::Audit),
        "report" => Some(Command::Report),
        _ => None,
    }
}
