//! Keys and values of a bounded length, ranges of keys, and sets of keys as sorted ranges.
#![tactic(auto)]

mod key_range;
mod key_set;
mod laws;
mod part;
mod stored;
#[cfg(test)]
mod tests;

pub use key_range::{Inverted, Range};
pub use key_set::Ranges;
pub use laws::{key_order, next_key, one_canonical_form, spans_are_put_in_and_taken_out};
pub use part::MetaPart;
pub use stored::{
    Key, KeyRefusal, MAX_END_KEY_LEN, MAX_KEY_LEN, MAX_VALUE_LEN, Value, ValueRefusal, key_after,
};
