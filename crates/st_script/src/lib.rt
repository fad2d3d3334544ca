//! Reads a script: its bytes are lines, a line's words say one thing, and the first line that breaks the grammar or a
//! limit is told.
#![tactic(auto)]

ghost use Rattle.std.specs.Prelude.{IfOk};
ghost use Rattle.st_script.specs.Outcome.{Reads};
ghost use Rattle.st_script.specs.Playable.{IsPlayable};
ghost use Rattle.st_script.specs.Reading.{script_of};

mod draft;
mod field;
mod form;
mod line;
mod options;
mod refusal;
mod request;
mod store;
mod words;

use draft::Draft;
pub use refusal::ScriptRefusal;
pub use st_fold::{Act, Do, Kind, LifePlan, Script, Settings};
use std::alloc::Global;
use store::Store;
use words::cut_line;

/// How many bytes a script may have.
pub const MAX_BYTES: usize = 67_108_864;

/// Reads a script, in one pass over its bytes. It tells the first faulty line, counted from 1, and
/// line 0 for the whole.
pub fn read(alloc: Global, bytes: &[u8]) -> Result<Script, ScriptRefusal>
    ensures exact { Reads result (script_of bytes.now) }
    ensures playable { IfOk result IsPlayable }
{
    if bytes.len() > MAX_BYTES {
        return Err(ScriptRefusal::Bad {
            line: 0,
            kind: Kind::Long,
        });
    }
    let Ok(mut store) = Store::new(alloc, bytes.len()) else {
        return Err(ScriptRefusal::NoMemory);
    };
    let mut words = Vec::new(alloc);
    let mut draft = Draft::new(alloc);
    let mut number = 1;
    let mut rest = bytes;
    while !rest.is_empty() {
        let (line, after) = cut_line(rest);
        if let Err(why) = draft.read_line(alloc, &mut store, &mut words, line) {
            return Err(why.at(number));
        }
        number += 1;
        rest = after;
    }
    draft.finish(number)
}

#[cfg(test)]
mod tests;
