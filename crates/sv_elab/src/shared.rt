// What all instances of a text share.
use indexmap::IndexSet;
use std::alloc::Global;
use sv_elab_decl::TextTables;
use sv_num::Name;

/// What allocates, the modules, points and maps of a text, and the names of its modules, each with
/// the number of its module.
#[derive(Clone, Copy)]
pub struct Shared<'a> {
    pub alloc: Global,
    pub tables: TextTables<'a>,
    pub names: &'a IndexSet<Name>,
}
