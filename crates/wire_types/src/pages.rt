//! Pages of the rows.
ghost use Rattle.std.specs.Prelude.{◌≡◌, ◌++◌, IfOk, MatchOption, OnOk, false, map, true};
ghost use Rattle.wire_types.specs.Pages.{all_rows, is_last_page, is_page, kind_of, page, page_row};
ghost use Rattle.wire_types.specs.PagesMade.{with_rows};

use api_types::{
    FloatingRow, GroupRow, Kind, NetworkRow, PageRow, PageRows, PolicyRow, PortRow, ProjectRow,
    RouterRow, Row, RowKind, Rows, RuleRow, Shared, SubnetRow,
};
use net_addr::{Copies, OutOfMemory, Seq};
use std::alloc::Global;

/// How many rows a page has at most.
const PAGE_SIZE: usize = 64;

/// A page of the rows of all kinds.
#[derive(Drop)]
pub struct RowsPage {
    /// Its rows, at most 64.
    pub rows: PageRows,
    /// Whether no row comes after them.
    pub last: bool,
}

// A page to which rows are added, kind by kind.
#[derive(Drop)]
pub(crate) struct Making {
    /// How many of the rows to come stand before the page.
    before: u128,
    rows: PageRows,
    /// Whether a row that came stands after the page.
    more: bool,
}

fn find_kind(row: &Row) -> Kind
    ensures { result ≡ kind_of row.now }
{
    match row {
        Row::Project(_) => Kind::Project,
        Row::Network(_) => Kind::Network,
        Row::Subnet(_) => Kind::Subnet,
        Row::Port(_) => Kind::Port,
        Row::Group(_) => Kind::Group,
        Row::Rule(_) => Kind::Rule,
        Row::Router(_) => Kind::Router,
        Row::Floating(_) => Kind::Floating,
        Row::Policy(_) => Kind::Policy,
    }
}

fn add_rows<R: RowKind>(
    alloc: Global,
    page: &mut PageRows,
    rows: &[Shared<R>],
) -> Result<(), OutOfMemory>
    ensures { OnOk result (page.new ≡ page.old ++ map (λ r. page_row (R.into_of r)) rows.now) }
{
    for row in rows {
        let row = row.get().copy(alloc)?.into_row();
        let kind = find_kind(&row);
        page.push(PageRow { kind, row })?;
    }
    Ok(())
}

impl Making {
    /// Adds the rows of a kind that stand on the page. Its cost is that of copying these.
    fn add<R: RowKind>(&mut self, alloc: Global, rows: &Rows) -> Result<(), OutOfMemory>
        ensures { OnOk result (self.new
            ≡ with_rows self.old (map (λ r. page_row (R.into_of r)) (R.list_of rows.now))) }
    {
        let rows = R::table(rows).rows();
        let start = self.before.min(rows.len() as u128);
        let rows = &rows[start as usize..];
        let count = rows.len().min(PAGE_SIZE.saturating_sub(self.rows.len()));
        self.before -= start;
        self.more = self.more || count < rows.len();
        add_rows::<R>(alloc, &mut self.rows, &rows[..count])
    }

    /// Adds the rows of all kinds.
    fn add_all(&mut self, alloc: Global, rows: &Rows) -> Result<(), OutOfMemory>
        ensures { OnOk result (self.new ≡ with_rows self.old (all_rows rows.now)) }
    {
        self.add::<ProjectRow>(alloc, rows)?;
        self.add::<NetworkRow>(alloc, rows)?;
        self.add::<SubnetRow>(alloc, rows)?;
        self.add::<PortRow>(alloc, rows)?;
        self.add::<GroupRow>(alloc, rows)?;
        self.add::<RuleRow>(alloc, rows)?;
        self.add::<RouterRow>(alloc, rows)?;
        self.add::<FloatingRow>(alloc, rows)?;
        self.add::<PolicyRow>(alloc, rows)
    }
}

/// The page with this number, or none if there is none: page 0 is always there, and each other one
/// begins with a row. Its cost is that of copying its rows.
pub fn copy_page(alloc: Global, rows: &Rows, number: u64) -> Result<Option<RowsPage>, OutOfMemory>
    ensures { IfOk result (λ found. MatchOption found (is_page number (all_rows rows.now) ≡ false)
        (λ p. (is_page number (all_rows rows.now) ≡ true)
        × (p.rows ≡ page number (all_rows rows.now))
        × (p.last ≡ is_last_page number (all_rows rows.now)))) }
{
    let mut page = Making {
        before: u128::from(number) * PAGE_SIZE as u128,
        rows: Seq::new(alloc),
        more: false,
    };
    page.add_all(alloc, rows)?;
    if number != 0 && page.rows.is_empty() {
        return Ok(None);
    }
    Ok(Some(RowsPage {
        rows: page.rows,
        last: !page.more,
    }))
}
