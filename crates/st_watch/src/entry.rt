//! A registered watch.
use st_key::{Key, Value};
use st_model::WatchState;

// What is watched: the key, the value that it is to have, none for no value, and what has become of the watch.
#[derive(Drop)]
pub(crate) struct Standing {
    pub key: Key,
    pub value: Option<Value>,
    pub state: WatchState,
}

// A watch, and the number that it is registered under.
#[derive(Drop)]
pub(crate) struct Entry {
    pub id: u64,
    pub standing: Standing,
}
