ghost use Rattle.std.specs.Prelude.{◌≡◌, IfOk};

use arrayvec::ArrayString;
use opt_base::OutOfMemory;
use std::alloc::Global;
use std::marker::Model;

/// The name of a record, of 1 to 64 bytes where it was read from a table. Contracts see its bytes.
#[derive(Debug, Drop)]
pub struct Name {
    text: Text,
}

/// The text of a name.
#[derive(Debug, Drop)]
enum Text {
    /// Up to 16 bytes, which lie in the name itself, so that tables of short names take little memory.
    Short(ArrayString<16>),
    /// Any text.
    Long(String),
}

impl Model for Name {
    ghost use Rattle.std.specs.Prelude.{List, ℕ};
    ghost use Rattle.opt_model.specs.Names.{text_bytes};

    ghost Value = { List ℕ };

    ghost view = { λ name. text_bytes name.text };
}

impl Name {
    /// A name of these bytes.
    pub fn new(alloc: Global, text: &str) -> Result<Name, OutOfMemory>
        ensures { IfOk result (λ name. name ≡ text.now) }
    {
        let text = match ArrayString::from(text) {
            Ok(short) => Text::Short(short),
            Err(_) => Text::Long(text.to_string(alloc)?),
        };
        Ok(Name { text })
    }

    /// The name as text.
    pub fn as_str(&self) -> &str
        ensures { result.now ≡ self.now }
    {
        match &self.text {
            Text::Short(short) => short.as_str(),
            Text::Long(long) => long.as_str(),
        }
    }
}
