ghost use Rattle.std.specs.Prelude.{◌≡◌};
ghost use Rattle.opt_read.specs.Grid.{is_blank, without_blanks, without_back, without_front};

/// A field without the spaces and tabs before and after it.
pub(crate) fn strip(field: &[u8]) -> &[u8]
    ensures { result.now ≡ without_blanks field.now }
{
    strip_back(strip_front(field))
}

fn strip_front(field: &[u8]) -> &[u8]
    ensures { result.now ≡ without_front field.now }
{
    let mut rest = field;
    while let [first, tail @ ..] = rest
        && is_blank(*first)
    {
        rest = tail;
    }
    rest
}

fn strip_back(field: &[u8]) -> &[u8]
    ensures { result.now ≡ without_back field.now }
{
    let mut rest = field;
    while let [front @ .., last] = rest
        && is_blank(*last)
    {
        rest = front;
    }
    rest
}

fn is_blank(byte: u8) -> bool
    ensures { result ≡ is_blank byte }
{
    byte == b' ' || byte == b'\t'
}
