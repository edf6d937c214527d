//! Keys of one value, each with a value.
ghost use Rattle.std.specs.Prelude.{◌≡◌, IsTrue};
ghost use Rattle.change_ops.specs.Ids.{checked};
ghost use Rattle.change_ops.specs.Values.{is_typed};

use crate::keys::KeyRow;
use crate::value::Value;
use std::alloc::AllocError;
use std::marker::Model;

/// A key of one value, with a value of its type.
pub struct RowValue {
    row: KeyRow,
    value: Value,
}

impl Drop for RowValue {
    fn drop(self) {
        let RowValue { row: _, value: _ } = self;
    }
}

impl Model for RowValue {
    ghost use Rattle.std.specs.Prelude.{IsTrue};
    ghost use Rattle.change_ops.specs.Values.{RowValue as RowValueOf, is_typed};

    ghost Value = { RowValueOf };

    ghost view = { λ v. record { row = v.row; value = v.value } };

    ghost invariant = { λ v. IsTrue (is_typed (record { row = v.row; value = v.value })) };
}

impl Clone for RowValue {
    ghost is_clone = { λ old new. new ≡ old };

    fn clone(&self) -> Result<RowValue, AllocError> {
        Ok(RowValue {
            row: self.row,
            value: self.value.clone()?,
        })
    }
}

impl RowValue {
    /// The key with the value, if that is of the key's type.
    pub fn new(row: KeyRow, value: Value) -> Option<RowValue>
        ensures { result ≡ checked is_typed (record { row = row; value = value }) }
    {
        if row.value_type() == value.value_type() {
            Some(RowValue { row, value })
        } else {
            None
        }
    }

    /// The key.
    pub fn row(&self) -> KeyRow
        ensures { result ≡ self.now.row }
    {
        self.row
    }

    /// The value.
    pub fn value(&self) -> &Value
        ensures value { result.now ≡ self.now.value }
        ensures typed { IsTrue (is_typed self.now) }
    {
        &self.value
    }
}
