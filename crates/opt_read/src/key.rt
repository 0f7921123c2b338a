ghost use Rattle.std.specs.Prelude.{◌≡◌};
ghost use Rattle.opt_read.specs.Keys.{key_name, key_number};

use opt_base::File;
use opt_model::column_name;

/// The keys of the settings, in the order in which they are read.
#[derive(Clone, Copy)]
pub(crate) enum Key {
    Format = 1,
    Months = 2,
    Days = 3,
    Goal = 4,
    Gap = 5,
    Nodes = 6,
    Budget = 7,
}

impl Key {
    /// The number of the key, which a refusal names.
    pub(crate) fn number(self) -> u8
        ensures { result ≡ key_number self }
    {
        self as u8
    }

    /// The key as it stands in the file.
    #[tactic(auto, unfolding(crate::specs::Keys::key_name))]
    pub(crate) fn name(self) -> &'static str
        ensures { result.now ≡ key_name self }
    {
        column_name(File::Settings, self.number())
    }
}
