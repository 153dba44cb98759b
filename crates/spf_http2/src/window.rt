//! Flow control (RFC 9113, sections 5.2 and 6.9): how much DATA may be put.

ghost use Rattle.std.specs.Prelude.{◌≡◌, ◌+◌, ◌≤◌, ◌^◌, IfSome};
ghost use Rattle.std.specs.Option.{option_map};
ghost use Rattle.spf_http2.specs.Windows.{window_raised, stream_left, stream_raised};
ghost use Rattle.spf_http2.specs.Windows.{most_initial};

/// The maximum size of a window.
pub const MAX_WINDOW: u32 = (1 << 31) - 1;

/// Returns the window of the connection after an increment. None where it is above the maximum.
pub fn raised(window: u32, increment: u32) -> Option<u32>
    ensures { result ≡ window_raised window increment }
{
    let sum = window as u64 + increment as u64;
    if sum > MAX_WINDOW as u64 {
        return None;
    }
    Some(sum as u32)
}

/// What was added to the window of a stream and what was sent. The window is the initial one and
/// what was added, less what was sent; a lowered INITIAL_WINDOW_SIZE may leave it below 0.
#[derive(Clone, Copy, Debug, PartialEq, Eq)]
pub struct StreamWindow {
    pub raised: u64,
    pub sent: u64,
    ghost bounded: { raised ≤ sent + 2 ^ 31 },
    ghost small: { sent ≤ 2 ^ 32 },
}

impl StreamWindow {
    /// The window of a stream on which nothing was sent.
    pub fn new() -> StreamWindow
        ensures raised { result.raised ≡ 0 }
        ensures sent { result.sent ≡ 0 }
    {
        StreamWindow { raised: 0, sent: 0 }
    }

    /// Returns how much may be sent, where the initial window is this.
    pub fn left(&self, initial: u32) -> u64
        ensures { result ≡ stream_left initial self.now.raised self.now.sent }
    {
        (initial as u64 + self.raised).saturating_sub(self.sent)
    }

    /// Counts what was sent.
    pub fn send(&mut self, octets: u32)
        requires { self.old.sent + octets ≤ 2 ^ 32 }
        ensures raised { self.new.raised ≡ self.old.raised }
        ensures sent { self.new.sent ≡ self.old.sent + octets }
    {
        self.sent += octets as u64;
    }

    /// Returns the window after an increment. None where it is above the maximum.
    pub fn raise(&self, initial: u32, increment: u32) -> Option<StreamWindow>
        ensures raised { option_map (λ w. w.raised) result
            ≡ stream_raised initial self.now.raised self.now.sent increment }
        ensures sent { IfSome result (λ w. w.sent ≡ self.now.sent) }
    {
        let raised = self.raised + increment as u64;
        if initial as u64 + raised > self.sent + MAX_WINDOW as u64 {
            return None;
        }
        Some(StreamWindow {
            raised,
            sent: self.sent,
        })
    }

    /// Returns the greatest initial window with which the window is not above the maximum.
    pub fn most_initial(&self) -> u32
        ensures { result ≡ most_initial self.now.raised self.now.sent }
    {
        let most = (self.sent + MAX_WINDOW as u64).saturating_sub(self.raised);
        most.min(MAX_WINDOW as u64) as u32
    }
}
