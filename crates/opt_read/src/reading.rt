ghost use Rattle.opt_base.specs.Answers.{Gives};
ghost use Rattle.opt_read.specs.Reading.{text_of};

use opt_base::{File, Kind, ModelFault, Refusal};
use std::str;

/// A file's bytes as text.
pub(crate) fn text(file: File, bytes: &[u8]) -> Result<&str, ModelFault>
    ensures { Gives (λ text. text.now) result (text_of file bytes.now) }
{
    match str::from_utf8(bytes) {
        Ok(text) => Ok(text),
        Err(_) => Err(ModelFault::Refused(Refusal::of_file(file, Kind::NotUtf8))),
    }
}
