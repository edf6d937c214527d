//! Whether a file has the tables of a store, and nothing else.
ghost use Rattle.std.specs.Prelude.{◌≡◌, ◌↔◌, [], ◌∷◌, IfOk, IsTrue};
ghost use Rattle.change_store.specs.Store.{column_of, table_of, change, hub, schema_of};

use sqlite_items::Items;
use sqlite_schema::code::Terms;
use sqlite_schema::schema::{Column, Kind, Schema, Table};
use sqlite_value::keys::Collation;
use sqlite_value::value::Value;
use std::alloc::{AllocError, Global};

/// Whether a file has no table, no index, and nothing else.
pub(crate) fn is_empty(schema: &Schema) -> bool
    ensures { IsTrue result ↔ (schema.now ≡ schema_of []) }
{
    schema.tables.is_empty() && schema.indexes.is_empty() && schema.views.is_empty()
}

fn is_column(column: &Column, name: &str, kind: Kind, not_null: bool) -> bool
    ensures { IsTrue result → column.now ≡ column_of name.now kind not_null }
{
    column.name.as_slice() == name.as_bytes()
        && column.kind == kind
        && column.is_strict
        && column.not_null == not_null
        && matches!(column.default, Value::Null)
        && column.collation == Collation::Binary
}

fn has_none(alloc: Global, terms: &Terms) -> Result<bool, AllocError>
    ensures { IfOk result (λ none. IsTrue none → terms.now ≡ []) }
{
    Ok(terms.lend(alloc)?.roots.is_empty())
}

/// Whether a table has no rules but those of its columns.
fn is_plain(alloc: Global, table: &Table) -> Result<bool, AllocError>
    ensures { IfOk result (λ plain. IsTrue plain
        → table.now ≡ table_of table.now.name table.now.tree table.now.columns table.now.key table.now.primary) }
{
    let stamps = &table.stamps;
    Ok(
        table.uniques.is_empty()
            && table.orders.is_empty()
            && has_none(alloc, &table.checks)?
            && table.references.is_empty()
            && table.computed.is_empty()
            && stamps.places.is_empty()
            && has_none(alloc, &stamps.terms)?
            && stamps.formats.is_empty()
            && !table.is_counted,
    )
}

#[tactic(auto, using(crate::proofs::SchemaLemmas::two_items))]
fn has_change_columns(columns: &Items<Column>) -> bool
    ensures { IsTrue result → columns.now ≡ change.columns }
{
    let (Some(number), Some(text)) = (columns.get(0), columns.get(1)) else {
        return false;
    };
    if columns.len() != 2 {
        return false;
    }
    if !is_column(number, "number", Kind::Integer, false) {
        return false;
    }
    is_column(text, "text", Kind::Text, true)
}

#[tactic(auto, using(crate::proofs::SchemaLemmas::three_items))]
fn has_hub_columns(columns: &Items<Column>) -> bool
    ensures { IsTrue result → columns.now ≡ hub.columns }
{
    let (Some(format), Some(size), Some(id)) = (columns.get(0), columns.get(1), columns.get(2))
    else {
        return false;
    };
    if columns.len() != 3 {
        return false;
    }
    if !is_column(format, "format", Kind::Integer, true) {
        return false;
    }
    if !is_column(size, "size", Kind::Text, true) {
        return false;
    }
    is_column(id, "id", Kind::Text, true)
}

fn is_change(alloc: Global, table: &Table) -> Result<bool, AllocError>
    ensures { IfOk result (λ is. IsTrue is → table.now ≡ change) }
{
    Ok(
        is_plain(alloc, table)?
            && table.name.as_slice() == "change".as_bytes()
            && table.tree == 0
            && has_change_columns(&table.columns)
            && table.key == Some(0)
            && table.primary.as_slice() == [0].as_slice(),
    )
}

fn is_hub(alloc: Global, table: &Table) -> Result<bool, AllocError>
    ensures { IfOk result (λ is. IsTrue is → table.now ≡ hub) }
{
    Ok(
        is_plain(alloc, table)?
            && table.name.as_slice() == "hub".as_bytes()
            && table.tree == 1
            && has_hub_columns(&table.columns)
            && table.key.is_none()
            && table.primary.is_empty(),
    )
}

/// Whether a file has the two tables of a store, and nothing else.
#[tactic(auto, using(crate::proofs::SchemaLemmas::two_items))]
pub(crate) fn is_store(alloc: Global, schema: &Schema) -> Result<bool, AllocError>
    ensures { IfOk result (λ is. IsTrue is → schema.now ≡ schema_of (change ∷ hub ∷ [])) }
{
    let (Some(first), Some(second)) = (schema.tables.get(0), schema.tables.get(1)) else {
        return Ok(false);
    };
    if schema.tables.len() != 2 {
        return Ok(false);
    }
    if !is_change(alloc, first)? {
        return Ok(false);
    }
    if !is_hub(alloc, second)? {
        return Ok(false);
    }
    Ok(schema.indexes.is_empty() && schema.views.is_empty())
}
