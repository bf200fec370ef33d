/// How a part is cut in two.
#[derive(Clone, Copy)]
pub(crate) enum Cut {
    /// So many columns, and the others.
    Across(u32),
    /// So many rows, and the others.
    Down(u32),
}
