// What records are read by.

use table::flat::Table;

// A table, and how many frames the lent buffer has.
#[derive(Clone, Copy)]
pub struct Rules<'t> {
    pub table: &'t Table,
    pub frames: usize,
}
