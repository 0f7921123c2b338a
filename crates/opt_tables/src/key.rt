/// What a record is known by in its table.
#[derive(Clone, Copy, Debug, PartialEq, Eq, Hash)]
pub enum Key<'a> {
    /// A name.
    Name(&'a str),
    /// Two names.
    Names(&'a str, &'a str),
    /// A name in a month.
    NameInMonth(&'a str, u32),
    /// Two names in a month.
    NamesInMonth(&'a str, &'a str, u32),
}
