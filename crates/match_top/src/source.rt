// What is known of a file that is read and declared.
use crate::option_words::Options;
use type_table::TypeTable;

/// The table of the types of a file of which no item breaks a rule on declarations, and the options by which it is read;
/// the table is for their width.
#[derive(Clone, Copy)]
pub(crate) struct Source<'f> {
    pub table: &'f TypeTable,
    pub options: Options,
}
