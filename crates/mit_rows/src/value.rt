ghost use Rattle.std.specs.Prelude.{◌≡◌, IfOk};

use crate::text::Text;
use std::alloc::AllocError;

/// The type of a column.
#[derive(Clone, Copy, Debug, PartialEq, Eq)]
pub enum ColType {
    /// Integers of 64 bits with a sign.
    Int,
    /// Texts.
    Text,
    /// Truth values.
    Bool,
}

/// One value. Integers are below texts and texts below booleans.
#[derive(Debug, Drop)]
pub enum Value {
    /// An integer of 64 bits with a sign.
    Int(i64),
    /// A text of at most 65,536 bytes.
    Text(Text),
    /// A truth value.
    Bool(bool),
}

impl Value {
    /// An equal value.
    pub fn copy(&self) -> Result<Value, AllocError>
        ensures { IfOk result (λ other. other ≡ self.now) }
    {
        match self {
            Value::Int(number) => Ok(Value::Int(*number)),
            Value::Text(text) => Ok(Value::Text(text.copy()?)),
            Value::Bool(truth) => Ok(Value::Bool(*truth)),
        }
    }
}
