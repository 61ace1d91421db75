// What a host holds beside its program and its store.
use tables::table::Table;

// The table of its processes, and whether it is dark.
#[derive(Clone, Copy)]
pub struct HostState {
    pub table: Table,
    // beside the table, whose states stay while the host is dark, as the rules want
    pub dark: bool,
}
