//! Copies of requests, which share the bytes of keys and values.
ghost use Rattle.std.specs.Prelude.{◌≡◌, IfOk};

use st_fold::{Ask, Request};
use st_key::Value;
use std::alloc::AllocError;

fn copy_of_value(value: &Option<Value>) -> Result<Option<Value>, AllocError>
    ensures { IfOk result (λ copy. copy ≡ value.now) }
{
    match value {
        Some(value) => Ok(Some(value.clone()?)),
        None => Ok(None),
    }
}

fn copy_of_ask(ask: &Ask) -> Result<Ask, AllocError>
    ensures { IfOk result (λ copy. copy ≡ ask.now) }
{
    match ask {
        Ask::Get(key, version) => Ok(Ask::Get(key.clone()?, *version)),
        Ask::Rows {
            range,
            rows,
            bytes,
            reverse,
            version,
        } => Ok(Ask::Rows {
            range: range.clone()?,
            rows: *rows,
            bytes: *bytes,
            reverse: *reverse,
            version: *version,
        }),
        Ask::Select {
            key,
            or_equal,
            offset,
            range,
            version,
        } => Ok(Ask::Select {
            key: key.clone()?,
            or_equal: *or_equal,
            offset: *offset,
            range: range.clone()?,
            version: *version,
        }),
        Ask::Watch(key, value) => Ok(Ask::Watch(key.clone()?, copy_of_value(value)?)),
    }
}

/// The same request.
pub(crate) fn copy_of(request: &Request) -> Result<Request, AllocError>
    ensures { IfOk result (λ copy. copy ≡ request.now) }
{
    Ok(Request {
        number: request.number,
        reader: request.reader,
        ask: copy_of_ask(&request.ask)?,
    })
}
