//! How often the same error came in a row.

ghost use Rattle.std.specs.Prelude.{◌≡◌, None};
ghost use Rattle.spf_system.specs.Tracked.{is_news, tracked_after};

/// What kind of error an attempt met.
#[derive(Clone, Copy, Debug, PartialEq, Eq, Hash)]
pub enum ErrorKey {
    /// A client could not be made.
    ClientCreation,
    /// The connection was refused.
    StreamConnect,
    /// An update broke a rule or passed a limit.
    UpdateRejected,
    /// The agent issues no identity.
    NoIdentityIssued,
}

/// Counts errors of one kind in a row, and says which of them are worth reporting.
#[derive(Clone, Copy, Debug, PartialEq, Eq)]
pub struct ErrorTracker {
    max: u32,
    count: u32,
    last: Option<ErrorKey>,
}

impl ErrorTracker {
    /// Returns a tracker that takes the first `max` errors of a kind in a row as news.
    pub fn new(max: u32) -> ErrorTracker
        ensures { result ≡ record { max = max; count = 0; last = None } }
    {
        ErrorTracker {
            max,
            count: 0,
            last: None,
        }
    }

    /// Returns whether the error is news: its kind differs from that of the last one, or fewer than
    /// `max` of its kind came in a row.
    pub fn record_error(&mut self, key: ErrorKey) -> bool
        ensures news { result ≡ is_news self.old key }
        ensures count { self.new ≡ tracked_after self.old key }
    {
        if self.last != Some(key) {
            self.last = Some(key);
            self.count = 1;
            return true;
        }
        let is_news = self.count < self.max;
        self.count = self.count.saturating_add(1);
        is_news
    }

    /// Forgets the errors so far.
    pub fn reset(&mut self)
        ensures { self.new ≡ record { max = self.old.max; count = 0; last = None } }
    {
        self.last = None;
        self.count = 0;
    }

    /// Returns how many errors of the last kind came in a row, at most `u32::MAX`.
    pub fn consecutive_count(&self) -> u32
        ensures { result ≡ self.now.count }
    {
        self.count
    }

    pub fn last_error_kind(&self) -> Option<ErrorKey>
        ensures { result ≡ self.now.last }
    {
        self.last
    }
}
