//! What has become of a watch.

/// What has become of a watch of a key and a value.
#[derive(Clone, Copy, Debug, PartialEq, Eq)]
pub enum WatchState {
    /// The key had the value at each version that came.
    Waiting,
    /// The key had another value at this version, for the first time.
    Fired { version: u64 },
    /// The key was taken away at this version, and had the value until then.
    Lost { version: u64 },
}
