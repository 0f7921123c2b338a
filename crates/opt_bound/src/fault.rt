/// Why an entry of multipliers is wrong for a system.
#[derive(Clone, Copy, Debug, PartialEq, Eq)]
pub enum EntryFault {
    /// It names this row, which the system does not have.
    RowNumber(u32),
    /// It is below 0 on this row, which is at least its right-hand side.
    Sign(u32),
}
