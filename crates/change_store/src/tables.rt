//! The two tables of a store.
ghost use Rattle.std.specs.Prelude.{◌≡◌, false, [], ◌∷◌, IsTrue, OnOk};
ghost use Rattle.sqlite.specs.State.{HasCleanDisk, IsUnchanged, Survives};
ghost use Rattle.sqlite.specs.Held.{state};
ghost use Rattle.change_store.specs.Store.{change, hub, schema_of, Keeps, IsStore};

use crate::error::{Damage, StoreError};
use sqlite::{Alter, Connection, Error, Transaction, params};

const CHANGE: &str = "CREATE TABLE change (number INTEGER PRIMARY KEY, text TEXT NOT NULL) STRICT";

const HUB: &str =
    "CREATE TABLE hub (format INTEGER NOT NULL, size TEXT NOT NULL, id TEXT NOT NULL) STRICT";

/// Makes the table of the changes, the first of the file.
fn create_change<S: Alter>(group: &mut Transaction<'_, S>) -> Result<(), Error>
    ensures same_reference { group.new.conn.ghost_name ≡ group.old.conn.ghost_name }
    ensures inside { HasCleanDisk (state S.Store group.new.conn.now) → IsTrue group.old.conn.now.in_transaction
        → OnOk result (IsTrue group.new.conn.now.in_transaction) }
    ensures made { HasCleanDisk (state S.Store group.new.conn.now) → IsTrue group.old.conn.now.in_transaction
        → (state S.Store group.old.conn.now).now.schema ≡ schema_of []
        → OnOk result (Keeps (change ∷ []) [] (state S.Store group.new.conn.now).now) }
    ensures survives { Survives (state S.Store group.old.conn.now) (state S.Store group.new.conn.now) (λ _. ⊥) }
{
    group.execute(CHANGE, &[])?;
    Ok(())
}

/// Makes the table that says of which hub the store is.
fn create_hub<S: Alter>(group: &mut Transaction<'_, S>) -> Result<(), Error>
    ensures same_reference { group.new.conn.ghost_name ≡ group.old.conn.ghost_name }
    ensures inside { HasCleanDisk (state S.Store group.new.conn.now) → IsTrue group.old.conn.now.in_transaction
        → OnOk result (IsTrue group.new.conn.now.in_transaction) }
    ensures made { HasCleanDisk (state S.Store group.new.conn.now) → IsTrue group.old.conn.now.in_transaction
        → Keeps (change ∷ []) [] (state S.Store group.old.conn.now).now
        → OnOk result (IsStore [] (state S.Store group.new.conn.now).now) }
    ensures survives { Survives (state S.Store group.old.conn.now) (state S.Store group.new.conn.now) (λ _. ⊥) }
{
    group.execute(HUB, &[])?;
    Ok(())
}

/// Says of which hub the store is.
fn describe<S: Alter>(
    group: &mut Transaction<'_, S>,
    format: u32,
    size: &str,
    id: &str,
) -> Result<(), Error>
    ensures same_reference { group.new.conn.ghost_name ≡ group.old.conn.ghost_name }
    ensures inside { HasCleanDisk (state S.Store group.new.conn.now) → IsTrue group.old.conn.now.in_transaction
        → OnOk result (IsTrue group.new.conn.now.in_transaction) }
    ensures kept { HasCleanDisk (state S.Store group.new.conn.now) → IsTrue group.old.conn.now.in_transaction
        → IsStore [] (state S.Store group.old.conn.now).now
        → OnOk result (IsStore [] (state S.Store group.new.conn.now).now) }
    ensures survives { Survives (state S.Store group.old.conn.now) (state S.Store group.new.conn.now) (λ _. ⊥) }
{
    group.execute(
        "INSERT INTO hub (format, size, id) VALUES (?1, ?2, ?3)",
        params![format, size, id],
    )?;
    Ok(())
}

/// Makes the tables, and the row of `hub`: all or none.
pub(crate) fn make<S: Alter>(
    conn: &mut Connection<S>,
    format: u32,
    size: &str,
    id: &str,
) -> Result<(), Error>
    requires { conn.old.in_transaction ≡ false }
    ensures settled { conn.new.in_transaction ≡ false }
    ensures made { HasCleanDisk (state S.Store conn.new) → (state S.Store conn.old).now.schema ≡ schema_of []
        → OnOk result (IsStore [] (state S.Store conn.new).now
        × ((state S.Store conn.new).committed ≡ (state S.Store conn.new).now)) }
{
    let mut group = conn.transaction();
    create_change(&mut group)?;
    create_hub(&mut group)?;
    describe(&mut group, format, size, id)?;
    group.commit()
}

/// How many digits an id has.
const ID_DIGITS: usize = 32;

/// Whether a text is an id: small hexadecimal digits, so many of them.
fn is_id(text: &str) -> bool {
    text.len() == ID_DIGITS
        && text
            .bytes()
            .all(|byte| matches!(byte, b'0'..=b'9' | b'a'..=b'f'))
}

/// Whether the row of `hub` says this format, and this size or the other one: its id.
pub(crate) fn check_hub<S: Alter>(
    conn: &mut Connection<S>,
    format: u32,
    size: &str,
    other_size: Option<&str>,
) -> Result<String, StoreError>
    requires { conn.old.in_transaction ≡ false }
    ensures settled { conn.new.in_transaction ≡ false }
    ensures same { HasCleanDisk (state S.Store conn.new)
        → (state S.Store conn.old).now.schema ≡ schema_of (change ∷ hub ∷ [])
        → OnOk result (IsUnchanged (state S.Store conn.old) (state S.Store conn.new)) }
{
    let rows = conn.query_all("SELECT format, size, id FROM hub", &[])?;
    let Some(row) = rows.get(0) else {
        return Err(StoreError::StoreDamaged(Damage::Tables));
    };
    if rows.len() > 1 {
        return Err(StoreError::StoreDamaged(Damage::Tables));
    }
    let found: i64 = row.get(0)?;
    if found != i64::from(format) {
        return Err(StoreError::StoreDamaged(Damage::Format));
    }
    let found: String = row.get(1)?;
    if found.as_str() != size && other_size != Some(found.as_str()) {
        return Err(StoreError::StoreDamaged(Damage::Size));
    }
    let id: String = row.get(2)?;
    if is_id(id.as_str()) {
        Ok(id)
    } else {
        Err(StoreError::StoreDamaged(Damage::Id))
    }
}
