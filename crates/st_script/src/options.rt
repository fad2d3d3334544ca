//! The options of a script.
ghost use Rattle.std.specs.Prelude.{◌≡◌, ◌≤◌, is_some};
ghost use Rattle.st_script.specs.Options.{least_of, most_of, none_chosen, chosen_of, choose, settings_of};

use st_fold::Settings;

/// Where no script says something else.
const DEFAULT_SETTINGS: Settings = Settings {
    window: 5_000_000,
    patience: 3,
    seed: 1,
    swap: 1_048_576,
    limit: 268_435_456,
    quota: 4_096,
    block: 100,
    watches: 10_000,
};

/// How many bytes a queue file may have.
const MAX_FILE: u64 = 268_435_456;

/// The fewest bytes that one may be bounded by.
const MIN_FILE: u64 = 64;

/// What an option sets.
#[derive(Clone, Copy, Debug, PartialEq, Eq)]
pub enum Setting {
    Window,
    Patience,
    Seed,
    Swap,
    Limit,
    Quota,
}

impl Setting {
    /// The least number that it may be.
    pub(crate) fn least(self) -> u64
        ensures { result ≡ least_of self }
    {
        match self {
            Setting::Window | Setting::Patience | Setting::Quota => 1,
            Setting::Seed => 0,
            Setting::Swap | Setting::Limit => MIN_FILE,
        }
    }

    /// The greatest number that it may be.
    pub(crate) fn most(self) -> u64
        ensures { result ≡ most_of self }
    {
        match self {
            Setting::Window => 4_611_686_018_427_387_904,
            Setting::Patience => 1_000,
            Setting::Seed => u64::MAX,
            Setting::Swap | Setting::Limit => MAX_FILE,
            Setting::Quota => 1_048_576,
        }
    }
}

/// What the options so far have set.
#[derive(Clone, Copy, Debug)]
pub(crate) struct Chosen {
    window: Option<u64>,
    patience: Option<u32>,
    seed: Option<u64>,
    swap: Option<u64>,
    limit: Option<u64>,
    quota: Option<u64>,
}

impl Chosen {
    pub(crate) fn none() -> Chosen
        ensures { result ≡ none_chosen }
    {
        Chosen {
            window: None,
            patience: None,
            seed: None,
            swap: None,
            limit: None,
            quota: None,
        }
    }

    /// Whether the option was set.
    pub(crate) fn has(&self, setting: Setting) -> bool
        ensures { result ≡ is_some (chosen_of setting self.now) }
    {
        match setting {
            Setting::Window => self.window.is_some(),
            Setting::Patience => self.patience.is_some(),
            Setting::Seed => self.seed.is_some(),
            Setting::Swap => self.swap.is_some(),
            Setting::Limit => self.limit.is_some(),
            Setting::Quota => self.quota.is_some(),
        }
    }

    /// Sets the option.
    pub(crate) fn choose(&mut self, setting: Setting, number: u64)
        requires { number ≤ most_of setting }
        ensures { self.new ≡ choose setting number self.old }
    {
        match setting {
            Setting::Window => self.window = Some(number),
            Setting::Patience => self.patience = Some(number as u32),
            Setting::Seed => self.seed = Some(number),
            Setting::Swap => self.swap = Some(number),
            Setting::Limit => self.limit = Some(number),
            Setting::Quota => self.quota = Some(number),
        }
    }

    /// What was set, and the defaults of the others.
    pub(crate) fn settings(&self) -> Settings
        ensures { result ≡ settings_of self.now }
    {
        Settings {
            window: self.window.unwrap_or(DEFAULT_SETTINGS.window),
            patience: self.patience.unwrap_or(DEFAULT_SETTINGS.patience),
            seed: self.seed.unwrap_or(DEFAULT_SETTINGS.seed),
            swap: self.swap.unwrap_or(DEFAULT_SETTINGS.swap),
            limit: self.limit.unwrap_or(DEFAULT_SETTINGS.limit),
            quota: self.quota.unwrap_or(DEFAULT_SETTINGS.quota),
            ..DEFAULT_SETTINGS
        }
    }
}
