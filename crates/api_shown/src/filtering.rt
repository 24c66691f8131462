//! Filters, put together by their names once a query.

ghost use Rattle.std.specs.Prelude.{◌≡◌, ℕ, List, Bool, IfOk, IfSome, false, map};
ghost use Rattle.std.specs.HashSet.{contains_text};
ghost use Rattle.std.specs.List.{list_all, list_any};
ghost use Rattle.std.specs.Str.{bytes_eq};
ghost use Rattle.api_types.specs.Printed.{member_of, tree_of, word};
ghost use Rattle.api_types.specs.Printed as printed_specs;
ghost use Rattle.api_types.specs.RowLists.{RowLists};
ghost use Rattle.api_types.specs.declared.call.Caller.{Caller as TheCaller};
ghost use Rattle.api_types.specs.declared.call.Filter.{Filter as TheFilter};
ghost use Rattle.api_policy.specs.Trees.{id_word};
ghost use Rattle.api_policy.specs.Filtered as filtered;
ghost use Rattle.api_shown.specs.Asked.{AskedName, asked_under, has_asked};
ghost use Rattle.api_shown.specs.Asked as asked_specs;
ghost use Rattle.api_shown.specs.Keys.{IsOnlyId};

use crate::asked_id::{find_asked, may_be, see_fit};
use crate::keys::{HasKeys, Key, find_key};
use crate::showing::is_told;
use api_types::{Filter, Id, MemberName, Members, Printed, Query};
use net_addr::{OutOfMemory, Text};
use std::alloc::Global;
use std::collections::HashSet;
use std::marker::Model;

/// The filters of one name: the key that it names, the texts and the ids that they ask for, and
/// which truth values. Contracts see the name and all filters of the query.
#[derive(Drop)]
struct NameFilters<'q> {
    filters: &'q [Filter], // for contracts alone
    name: &'q Text,
    key: Option<Key>,
    texts: HashSet<String>,
    id: Option<Id>,
    asks_true: bool,
    asks_false: bool,
}

impl<'q> Model for NameFilters<'q> {
    ghost use Rattle.std.specs.Prelude.{◌≡◌, ℕ, IfSome, IsTrue, List, true, false};
    ghost use Rattle.std.specs.HashSet.{contains_text};
    ghost use Rattle.std.specs.Str.{bytes_eq};
    ghost use Rattle.api_types.specs.Ident.{Ident};
    ghost use Rattle.api_types.specs.Printed.{truth, word};
    ghost use Rattle.api_policy.specs.Trees.{id_word};
    ghost use Rattle.api_shown.specs.Asked.{AskedName, asked_under, asks_for};
    ghost use Rattle.api_shown.specs.Keys.{FitsId, key_name, may_be};

    ghost Value = { AskedName };

    ghost view = { λ n. asked_under n.filters.now n.name.now };

    ghost invariant = { λ n. let asked : AskedName = asked_under n.filters.now n.name.now in
        record {
          key : IfSome n.key (λ key. IsTrue (bytes_eq n.name.now (key_name key)));
          texts : (t : List ℕ) → contains_text n.texts t ≡ asks_for asked (word t);
          id : (i : Ident) → FitsId i → may_be n.id i ≡ false
              → asks_for asked (id_word i) ≡ false;
          yes : n.asks_true ≡ asks_for asked (truth true);
          no : n.asks_false ≡ asks_for asked (truth false);
        } };
}

fn truth_fits(value: &Text, truth: bool) -> bool
    ensures { result ≡ filtered.fits value.now (printed_specs.truth truth) }
{
    let word = if truth { "true" } else { "false" };
    value.as_str().eq_ignore_ascii_case(word)
}

// Whether a filter with the name asks for the truth value.
fn asks_truth(filters: &[Filter], name: &Text, truth: bool) -> bool
    ensures { result ≡ asked_specs.asks_for
        (asked_under filters.now name.now) (printed_specs.truth truth) }
{
    filters.iter().any(|filter| *name == filter.name && truth_fits(&filter.value, truth))
}

// The values of the filters with the name.
fn texts_of(alloc: Global, filters: &[Filter], name: &Text) -> Result<HashSet<String>, OutOfMemory>
    ensures { IfOk result
        (λ s. (t : List ℕ)
        → contains_text s t ≡ asked_specs.asks_for (asked_under filters.now name.now) (word t)) }
{
    let mut texts = HashSet::new(alloc);
    for filter in filters {
        if *name == filter.name {
            texts.insert(String::from_str(alloc, filter.value.as_str())?)?;
        }
    }
    Ok(texts)
}

impl<'q> NameFilters<'q> {
    // Those of these filters that have the name.
    fn of(
        alloc: Global,
        filters: &'q [Filter],
        name: &'q Text,
    ) -> Result<NameFilters<'q>, OutOfMemory>
        ensures { IfOk result (λ n. n ≡ asked_under filters.now name.now) }
    {
        Ok(NameFilters {
            filters,
            name,
            key: find_key(name),
            texts: texts_of(alloc, filters, name)?,
            id: find_asked(filters, name),
            asks_true: asks_truth(filters, name, true),
            asks_false: asks_truth(filters, name, false),
        })
    }

    // Whether their name is that of the member.
    fn is_name_of(&self, name: &MemberName) -> bool
        ensures { result ≡ bytes_eq self.now.name name.now }
    {
        self.name.as_str() == name.as_str()
    }

    // Whether one of them asks for the text.
    fn has_text(&self, text: &Text) -> bool
        ensures { result ≡ asked_specs.asks_for self.now (word text.now) }
    {
        self.texts.contains(text.as_str())
    }

    // Whether one of them asks for the value. What has a text is printed only here.
    fn asks_for(&self, alloc: Global, printed: &Printed) -> Result<bool, OutOfMemory>
        ensures { IfOk result (λ b. b ≡ asked_specs.asks_for self.now (tree_of printed.now)) }
    {
        match printed {
            Printed::Truth(true) => Ok(self.asks_true),
            Printed::Truth(false) => Ok(self.asks_false),
            Printed::Number(number) => {
                let text = number.to_string(alloc)?;
                Ok(self.texts.contains(text.as_str()))
            }
            Printed::Constant(word) => Ok(self.texts.contains(*word)),
            Printed::Word(text) => Ok(self.has_text(text)),
            Printed::Id(id) => Ok(self.has_text(&id.print(alloc)?)),
            Printed::Mac(mac) => Ok(self.has_text(&mac.print(alloc)?)),
            Printed::Address(address) => Ok(self.has_text(&address.print(alloc)?)),
            Printed::Prefix(prefix) => Ok(self.has_text(&prefix.print(alloc)?)),
            Printed::Null | Printed::Items(_) | Printed::Object(_) => Ok(false),
        }
    }

    // Whether they may ask for the id.
    fn may_ask(&self, id: Id) -> bool
        ensures { result ≡ false → asked_specs.asks_for self.now (id_word id) ≡ false }
    {
        see_fit(id);
        may_be(self.id, id)
    }

    // The one id that they ask for, where their name is the id's.
    fn find_id(&self) -> Option<Id>
        ensures { IfSome result
            (IsOnlyId (λ admin members. has_asked admin members self.now)) }
    {
        let Some(key) = self.key else {
            return None;
        };
        match key {
            Key::Id => self.id,
            Key::Name | Key::Project | Key::Tenant | Key::Network | Key::Device | Key::Group =>
                None,
        }
    }

    // Whether the row may have a member with the name and a value that one of them asks for, by
    // its keys alone.
    fn may_hold<R: HasKeys>(&self, row: &R) -> bool
        ensures { result ≡ false → (rows : RowLists) (caller : TheCaller) (admin : Bool)
            → has_asked admin (R.members_of rows caller row.now) self.now ≡ false }
    {
        let Some(key) = self.key else {
            return true;
        };
        if let Some(word) = row.word_at(key) {
            return self.texts.contains(word.as_str());
        }
        match row.id_at(key) {
            Some(id) => self.may_ask(id),
            None => true,
        }
    }

    // Whether a member that the caller is told has the name and a value that one of them asks for.
    fn are_met(&self, alloc: Global, admin: bool, members: &Members) -> Result<bool, OutOfMemory>
        ensures { IfOk result
            (λ b. b ≡ has_asked admin (map member_of members.now) self.now) }
    {
        for (name, printed) in members.as_slice() {
            let is_named = is_told(admin, name) && self.is_name_of(name);
            if is_named && self.asks_for(alloc, printed)? {
                return Ok(true);
            }
        }
        Ok(false)
    }
}

fn is_among(names: &[&Text], name: &Text) -> bool
    ensures { result ≡ list_any (bytes_eq name.now) (map (λ n. n.now) names.now) }
{
    for other in names {
        if *name == **other {
            return true;
        }
    }
    false
}

// The names of the filters, each once.
fn names_of<'q>(alloc: Global, filters: &'q [Filter]) -> Result<Vec<&'q Text>, OutOfMemory>
    ensures { IfOk result
        (λ v. (p : List ℕ → Bool)
        → list_all p (map (λ n. n.now) v.items)
        ≡ list_all (λ (f : TheFilter). p f.name) filters.now) }
{
    let mut names = Vec::new(alloc);
    for filter in filters {
        if !is_among(names.as_slice(), &filter.name) {
            names.push(&filter.name)?;
        }
    }
    Ok(names)
}

// The filters of each of these names.
fn filters_named<'q>(
    alloc: Global,
    filters: &'q [Filter],
    names: &[&'q Text],
) -> Result<Vec<NameFilters<'q>>, OutOfMemory>
    ensures { IfOk result
        (λ v. v.items ≡ map (λ n. asked_under filters.now n.now) names.now) }
{
    let mut by_name = Vec::new(alloc);
    for name in names {
        by_name.push(NameFilters::of(alloc, filters, *name)?)?;
    }
    Ok(by_name)
}

// The filters, put together by their names.
fn filters_by_name<'q>(
    alloc: Global,
    filters: &'q [Filter],
) -> Result<Vec<NameFilters<'q>>, OutOfMemory>
    ensures { IfOk result
        (λ v. (p : AskedName → Bool)
        → list_all p v.items
        ≡ list_all (λ (f : TheFilter). p (asked_under filters.now f.name)) filters.now) }
{
    let names = names_of(alloc, filters)?;
    filters_named(alloc, filters, names.as_slice())
}

// Whether the filters of each name are met.
fn are_all_met(
    alloc: Global,
    admin: bool,
    members: &Members,
    by_name: &[NameFilters],
) -> Result<bool, OutOfMemory>
    ensures { IfOk result
        (λ b. b ≡ list_all (has_asked admin (map member_of members.now)) by_name.now) }
{
    for filters in by_name {
        if !filters.are_met(alloc, admin, members)? {
            return Ok(false);
        }
    }
    Ok(true)
}

// Whether the row may meet the filters of each name, by its keys alone.
fn may_all_hold<R: HasKeys>(row: &R, by_name: &[NameFilters]) -> bool
    ensures { result ≡ false → (rows : RowLists) (caller : TheCaller) (admin : Bool)
        → list_all (has_asked admin (R.members_of rows caller row.now)) by_name.now ≡ false }
{
    for filters in by_name {
        if !filters.may_hold(row) {
            return false;
        }
    }
    true
}

// The one id that the filters of some name ask for.
fn find_id_among(by_name: &[NameFilters]) -> Option<Id>
    ensures { IfSome result
        (IsOnlyId (λ admin members. list_all (has_asked admin members) by_name.now)) }
{
    for filters in by_name {
        if let Some(id) = filters.find_id() {
            return Some(id);
        }
    }
    None
}

/// A query, whose filters are put together by their names, so that a row costs the same however
/// many there are. Contracts see the query.
#[derive(Drop)]
pub(crate) struct FilteredQuery<'q> {
    query: &'q Query,
    by_name: Vec<NameFilters<'q>>,
}

impl<'q> Model for FilteredQuery<'q> {
    ghost use Rattle.std.specs.Prelude.{◌≡◌, Bool};
    ghost use Rattle.std.specs.List.{list_all};
    ghost use Rattle.api_types.specs.declared.call.Filter.{Filter};
    ghost use Rattle.api_types.specs.declared.call.Query.{Query};
    ghost use Rattle.api_shown.specs.Asked.{AskedName, asked_under};

    ghost Value = { Query };

    ghost view = { λ q. q.query.now };

    ghost invariant = { λ q. (p : AskedName → Bool)
        → list_all p q.by_name.items
        ≡ list_all (λ (f : Filter). p (asked_under q.query.now.filters f.name))
        q.query.now.filters };
}

impl<'q> FilteredQuery<'q> {
    /// This query. Its cost grows with the filters, times their different names.
    pub(crate) fn of(alloc: Global, query: &'q Query) -> Result<FilteredQuery<'q>, OutOfMemory>
        ensures { IfOk result (λ q. q ≡ query.now) }
    {
        Ok(FilteredQuery {
            query,
            by_name: filters_by_name(alloc, query.filters.as_slice())?,
        })
    }

    /// The query.
    pub(crate) fn as_query(&self) -> &'q Query
        ensures { result.now ≡ self.now }
    {
        self.query
    }

    /// Whether the row may meet the filters, by its keys alone: false only if its members don't. It
    /// makes no member, and its cost grows with the different names of the filters.
    pub(crate) fn may_meet<R: HasKeys>(&self, row: &R) -> bool
        ensures { result ≡ false → (rows : RowLists) (caller : TheCaller) (admin : Bool)
            → filtered.meets admin self.now.filters (R.members_of rows caller row.now) ≡ false }
    {
        may_all_hold(row, self.by_name.as_slice())
    }

    /// The one id that the filters ask for, if they do: no members with another one meet them. Its
    /// cost grows with the different names of the filters.
    pub(crate) fn find_id(&self) -> Option<Id>
        ensures { IfSome result
            (IsOnlyId (λ admin members. filtered.meets admin self.now.filters members)) }
    {
        find_id_among(self.by_name.as_slice())
    }

    /// Whether the members meet the filters. Its cost grows with the members, times the different
    /// names of the filters.
    pub(crate) fn meets(
        &self,
        alloc: Global,
        admin: bool,
        members: &Members,
    ) -> Result<bool, OutOfMemory>
        ensures { IfOk result
            (λ b. b ≡ filtered.meets admin self.now.filters (map member_of members.now)) }
    {
        are_all_met(alloc, admin, members, self.by_name.as_slice())
    }
}
