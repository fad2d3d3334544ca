//! What an atomic operation makes of a value.
ghost use Rattle.std.specs.Prelude.{◌≡◌, IfOk};
ghost use Rattle.std.specs.Option.{option_copied};
ghost use Rattle.st_atomic.specs.Atomic.{changed};

use st_atomic::{AtomicOp, apply};
use st_key::{MAX_VALUE_LEN, Value};
use std::alloc::{AllocError, Global};

// The value after an operation, of the one before it.
pub(crate) fn value_after(
    alloc: Global,
    op: AtomicOp,
    before: Option<&Value>,
    operand: &Value,
) -> Result<Option<Value>, AllocError>
    ensures { IfOk result (λ after. after ≡ changed op (option_copied before.entry) operand.now) }
{
    let old = match before {
        Some(value) => Some(value.bytes()),
        None => None,
    };
    match apply(alloc, op, old, operand.bytes())? {
        Some(bytes) => {
            // so memory is all that can be wanting
            prove!(bytes.len() <= MAX_VALUE_LEN);
            match Value::from_vec(bytes) {
                Ok(value) => Ok(Some(value)),
                Err(_) => Err(AllocError),
            }
        }
        None => Ok(None),
    }
}
