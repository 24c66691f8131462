//! Copies of queries and of texts of paths.
ghost use Rattle.std.specs.Prelude.{◌≡◌, IfOk};
ghost use Rattle.neutron_json.specs.Asks.{first_text, id_text, row_named};

use api_types::{Filter, IdText, Query};
use json_values::read_id;
use net_addr::{Copies, OutOfMemory, Seq, Text};
use neutron_http::Route;
use std::alloc::Global;

// A list of filters that is equal.
fn filters(alloc: Global, filters: &[Filter]) -> Result<Seq<Filter>, OutOfMemory>
    ensures { IfOk result (λ fs. fs ≡ filters.now) }
{
    let mut copies = Seq::new(alloc);
    for filter in filters {
        copies.push(Filter {
            name: filter.name.copy(alloc)?,
            value: filter.value.copy(alloc)?,
        })?;
    }
    Ok(copies)
}

// A text with its id that is equal.
fn marker(alloc: Global, marker: &Option<IdText>) -> Result<Option<IdText>, OutOfMemory>
    ensures { IfOk result (λ m. m ≡ marker.now) }
{
    match marker {
        None => Ok(None),
        Some(marker) => Ok(Some(IdText {
            text: marker.text.copy(alloc)?,
            id: marker.id,
        })),
    }
}

/// An equal query. The cost grows with the query.
pub(crate) fn query_copy(alloc: Global, query: &Query) -> Result<Query, OutOfMemory>
    ensures { IfOk result (λ q. q ≡ query.now) }
{
    let filters = filters(alloc, query.filters.as_slice())?;
    let marker = marker(alloc, &query.marker)?;
    let fields = query.fields.copy(alloc)?;
    Ok(Query {
        filters,
        limit: query.limit,
        marker,
        fields,
    })
}

/// The first text that stands in the path where the route has a name.
pub(crate) fn first_text(alloc: Global, route: &Route) -> Result<Text, OutOfMemory>
    ensures { IfOk result (λ t. t ≡ first_text route.now.parameters) }
{
    match route.parameters.as_slice().first() {
        None => Ok(Text::new(alloc)),
        Some(text) => text.copy(alloc),
    }
}

/// The row that a path names.
pub(crate) fn row_named(alloc: Global, route: &Route) -> Result<IdText, OutOfMemory>
    ensures { IfOk result (λ n. n ≡ row_named route.now) }
{
    let text = first_text(alloc, route)?;
    let id = read_id(text.as_str().as_bytes());
    Ok(IdText { text, id })
}
