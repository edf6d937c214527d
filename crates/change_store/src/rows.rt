//! The rows of the changes.
ghost use Rattle.std.specs.Prelude.{◌≡◌, ℕ, ◌+◌, ◌≤◌, false, List, [], ◌∷◌, ◌++◌, length, IfOk, IsTrue, OnErr, OnOk};
ghost use Rattle.sqlite.specs.State.{HasCleanDisk, IsUnchanged, KeepsCommit, Survives};
ghost use Rattle.sqlite_trees.specs.View.{doubt};
ghost use Rattle.sqlite.specs.Held.{state};
ghost use Rattle.change_store.specs.Store.{change, hub, schema_of, row_of, numbered, IsStore, AreKept};
ghost use Rattle.change_store.specs.Inserted.{Inserts, InsertsAll, Leaves};

use crate::error::{Damage, Failure, StoreError};
use change_log::text::ChangeText;
use sqlite::{Alter, Connection, Error, ErrorCode, Row, Transaction, params};
use std::alloc::Global;

/// Inserts a text under this number.
fn insert<S: Alter>(group: &mut Transaction<'_, S>, number: u32, text: &str) -> Result<(), Error>
    ensures same_reference { group.new.conn.ghost_name ≡ group.old.conn.ghost_name }
    ensures inserted { HasCleanDisk (state S.Store group.new.conn.now) → IsTrue group.old.conn.now.in_transaction
        → OnOk result (Inserts S.Store number text.now group.old.conn.now group.new.conn.now) }
    ensures inside { HasCleanDisk (state S.Store group.new.conn.now) → IsTrue group.old.conn.now.in_transaction
        → OnOk result (IsTrue group.new.conn.now.in_transaction) }
    ensures kept { HasCleanDisk (state S.Store group.new.conn.now) → IsTrue group.old.conn.now.in_transaction
        → KeepsCommit (state S.Store group.old.conn.now) (state S.Store group.new.conn.now) }
    ensures survives { Survives (state S.Store group.old.conn.now) (state S.Store group.new.conn.now) (λ _. ⊥) }
{
    group.execute(
        "INSERT INTO change (number, text) VALUES (?1, ?2)",
        params![number, text],
    )?;
    Ok(())
}

/// Inserts these texts, one after another, under the numbers behind `count`, and returns the last number.
fn insert_all<S: Alter>(
    group: &mut Transaction<'_, S>,
    count: u32,
    texts: &[ChangeText],
) -> Result<u32, Error>
    ensures same_reference { group.new.conn.ghost_name ≡ group.old.conn.ghost_name }
    ensures last { IfOk result (λ last. last ≡ count + length texts.now) }
    ensures inside { HasCleanDisk (state S.Store group.new.conn.now) → IsTrue group.old.conn.now.in_transaction
        → OnOk result (IsTrue group.new.conn.now.in_transaction) }
    ensures inserted { HasCleanDisk (state S.Store group.new.conn.now) → IsTrue group.old.conn.now.in_transaction
        → OnOk result (InsertsAll S.Store count texts.now group.old.conn.now group.new.conn.now) }
    ensures kept { HasCleanDisk (state S.Store group.new.conn.now) → IsTrue group.old.conn.now.in_transaction
        → KeepsCommit (state S.Store group.old.conn.now) (state S.Store group.new.conn.now) }
    ensures survives { Survives (state S.Store group.old.conn.now) (state S.Store group.new.conn.now) (λ _. ⊥) }
{
    let mut number = count;
    for text in texts {
        number = number
            .checked_add(1)
            .ok_or(Error::SqliteFailure(ErrorCode::NoRowid))?;
        insert(group, number, text.as_str())?;
    }
    Ok(number)
}

/// Keeps these texts under the numbers behind `count`, all or none, and returns the last number.
pub(crate) fn append<S: Alter>(
    conn: &mut Connection<S>,
    count: u32,
    texts: &[ChangeText],
) -> Result<u32, Error>
    requires { conn.old.in_transaction ≡ false }
    ensures settled { conn.new.in_transaction ≡ false }
    ensures last { IfOk result (λ last. last ≡ count + length texts.now) }
    ensures all { HasCleanDisk (state S.Store conn.new)
        → OnOk result (Leaves S.Store count texts.now conn.old (state S.Store conn.new).committed) }
    ensures kept { (before : List (List ℕ)) → AreKept (state S.Store conn.old) count before
        → IfOk result (λ last. AreKept (state S.Store conn.new) last (before ++ texts.now)) }
    ensures none { (before : List (List ℕ)) → AreKept (state S.Store conn.old) count before
        → OnErr result (AreKept (state S.Store conn.new) count before) }
    ensures crash { Survives (state S.Store conn.old) (state S.Store conn.new)
        (λ trees. (db : _) × Leaves S.Store count texts.now conn.old db × (trees ≡ db.trees)) }
{
    let mut group = conn.transaction();
    let last = insert_all(&mut group, count, texts)?;
    group.commit()?;
    Ok(last)
}

/// The text of a row that has this number.
fn text_of(row: &Row, number: u32) -> Result<ChangeText, StoreError>
    ensures { IfOk result (λ text. row.now ≡ row_of number text) }
{
    let found: u32 = row.get(0)?;
    if found != number || row.column_count() != 2 {
        return Err(StoreError::StoreDamaged(Damage::MissingNumber(number)));
    }
    let text: String = row.get(1)?;
    Ok(ChangeText::of(text)?)
}

/// The texts of rows that have the numbers 1, 2, 3 and so on.
fn texts_of(alloc: Global, rows: &[Row]) -> Result<Vec<ChangeText>, StoreError>
    ensures { IfOk result (λ texts. rows.now ≡ numbered 0 texts.items) }
{
    let mut texts = Vec::with_capacity(alloc, rows.len())?;
    let mut number: u32 = 0;
    for row in rows {
        number = number
            .checked_add(1)
            .ok_or(StoreError::StoreFailed(Failure::Unexpected))?;
        texts.push_reserved(text_of(row, number)?);
    }
    Ok(texts)
}

/// All texts, which have the numbers 1, 2, 3 and so on, in this order.
pub(crate) fn read<S: Alter>(
    conn: &mut Connection<S>,
    alloc: Global,
) -> Result<Vec<ChangeText>, StoreError>
    requires { conn.old.in_transaction ≡ false }
    ensures settled { conn.new.in_transaction ≡ false }
    ensures clean { doubt (state S.Store conn.old).is_clean ≤ doubt (state S.Store conn.new).is_clean }
    ensures found { HasCleanDisk (state S.Store conn.new)
        → (state S.Store conn.old).now.schema ≡ schema_of (change ∷ hub ∷ [])
        → IfOk result (λ texts. IsStore texts.items (state S.Store conn.old).now) }
    ensures same { HasCleanDisk (state S.Store conn.new)
        → (state S.Store conn.old).now.schema ≡ schema_of (change ∷ hub ∷ [])
        → OnOk result (IsUnchanged (state S.Store conn.old) (state S.Store conn.new)) }
    ensures kept { (count : ℕ) (before : List (List ℕ)) → AreKept (state S.Store conn.old) count before
        → IfOk result (λ texts. AreKept (state S.Store conn.new) count texts.items) }
    ensures still { (count : ℕ) (before : List (List ℕ)) → AreKept (state S.Store conn.old) count before
        → OnOk result (AreKept (state S.Store conn.new) count before) }
{
    let rows = conn.query_all("SELECT number, text FROM change ORDER BY number", &[])?;
    texts_of(alloc, rows.as_slice())
}
