ghost use Rattle.std.specs.Prelude.{◌≡◌, ◌==◌, ◌∷◌, ◌++◌, [], ◌+◌, ◌≤◌, length, IfSome, MatchOption};
ghost use Rattle.std.specs.List.{position};
ghost use Rattle.std.specs.Option.{option_map};
ghost use Rattle.opt_cert.specs.Numbers.{pieces};
ghost use Rattle.opt_cert.specs.Forms.{one, two};

use std::marker::Model;

/// The parts of a text between separators, one after the other. Contracts see those that are left.
#[derive(Drop)]
pub(crate) struct Pieces<'a> {
    separator: u8,
    rest: &'a [u8],
    ended: bool,
}

impl<'a> Model for Pieces<'a> {
    ghost use Rattle.std.specs.Prelude.{List, ℕ, [], if◌then◌else◌};
    ghost use Rattle.opt_cert.specs.Numbers.{pieces};

    ghost Value = { List (List ℕ) };

    ghost view = { λ p. if p.ended then [] else pieces p.separator p.rest.now };
}

impl<'a> Pieces<'a> {
    /// The parts of this text.
    pub(crate) fn new(text: &'a [u8], separator: u8) -> Pieces<'a>
        ensures parts { result ≡ pieces separator text.now }
        ensures few { length result ≤ length text.now + 1 }
    {
        Pieces {
            separator,
            rest: text,
            ended: false,
        }
    }

    /// The one part that is left.
    pub(crate) fn one(mut self) -> Option<&'a [u8]>
        ensures { option_map (λ word. word.now) result ≡ one self.entry }
    {
        match (self.next(), self.next()) {
            (Some(word), None) => Some(word),
            _ => None,
        }
    }

    /// The two parts that are left.
    pub(crate) fn two(mut self) -> Option<(&'a [u8], &'a [u8])>
        ensures { option_map (λ words. (words.0.now, words.1.now)) result ≡ two self.entry }
    {
        match (self.next(), self.next(), self.next()) {
            (Some(first), Some(second), None) => Some((first, second)),
            _ => None,
        }
    }

    /// The next part, while there is one.
    pub(crate) fn next(&mut self) -> Option<&'a [u8]>
        ensures { MatchOption result ((self.old ≡ []) × (self.new ≡ [])) (λ piece. self.old ≡ piece.now ∷ self.new) }
    {
        if self.ended {
            return None;
        }
        match cut(self.rest, self.separator) {
            Some((piece, rest)) => {
                self.rest = rest;
                Some(piece)
            }
            None => {
                self.ended = true;
                Some(self.rest)
            }
        }
    }
}

/// What stands before the first separator and after it, where there is one.
pub(crate) fn cut(text: &[u8], separator: u8) -> Option<(&[u8], &[u8])>
    ensures parts { MatchOption result (pieces separator text.now ≡ text.now ∷ [])
        (λ cut. pieces separator text.now ≡ cut.0.now ∷ pieces separator cut.1.now) }
    ensures whole { IfSome result (λ cut. text.now ≡ cut.0.now ++ separator ∷ cut.1.now) }
{
    match place_of(text, separator) {
        Some(at) => Some((&text[..at], &text[at + 1..])),
        None => None,
    }
}

/// Where the first separator stands.
fn place_of(text: &[u8], separator: u8) -> Option<usize>
    ensures { result ≡ position (λ byte. byte == separator) text.now }
{
    text.iter().position(|byte| *byte == separator)
}
