//! The columns that rows of most kinds have.

use crate::column::text_at;
use crate::trouble::Trouble;
use net_addr::Text;
use sqlite::Row;

/// Whose a row is, and what it is called.
#[derive(Drop)]
pub(crate) struct Names {
    pub project: Text,
    pub name: Text,
    pub description: Text,
}

/// The project in column 1, and the name and the description in the columns with these numbers.
pub(crate) fn names_at(row: &Row, name: usize, description: usize) -> Result<Names, Trouble> {
    Ok(Names {
        project: text_at(row, 1)?,
        name: text_at(row, name)?,
        description: text_at(row, description)?,
    })
}
