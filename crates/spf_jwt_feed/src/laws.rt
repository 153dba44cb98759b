//! Laws of what is the same and of texts, which contracts cite. No law has a body: its contract is
//! its statement.

ghost use Rattle.std.specs.Prelude.{◌↔◌, ◌≡◌, ℕ, true, List, Some};
ghost use Rattle.spf_api.specs.declared.response.BundlesResponse.{BundlesResponse};
ghost use Rattle.spf_jwt.specs.Bundle.{set_eq};
ghost use Rattle.spf_view.specs.Sessions.{IsFrame};
ghost use Rattle.spf_feed.specs.Events.{event_at};
ghost use Rattle.spf_feed.specs.OneLine.{IsLine};
ghost use Rattle.spf_feed.specs.Texts.{AreOctets, EventText, FrameText};
ghost use Rattle.spf_jwt_feed.specs.Items.{Event, Rules, response_at, ItemText};
ghost use Rattle.spf_jwt_feed.specs.Run.{outputs, stream};
ghost use Rattle.spf_jwt_feed.specs.Steps.{BundleSet};

/// No change is seen exactly between equal bundle sets.
pub fn same_is_equal()
    ensures { (a b : BundleSet) → (set_eq a b ≡ true) ↔ (a ≡ b) }
{}

/// The line of an event has one line feed, at its end.
pub fn one_line_feed()
    ensures { (rules : Rules) (past : List Event) (e : Event)
        → IsLine ((outputs rules).line past e) }
{}

/// An item is read exactly where the octets are the payload of its response.
pub fn items_exactly()
    ensures { (bytes : List ℕ) (r : BundlesResponse) → AreOctets bytes
        → (response_at bytes ≡ Some r) ↔ ItemText bytes r }
{}

/// A payload of a kind lays out an event exactly where it is the text of that event.
pub fn events_exactly()
    ensures { (kind : ℕ) (payload : List ℕ) (e : Event) → AreOctets payload
        → (event_at response_at kind payload ≡ Some e) ↔ EventText ItemText kind payload e }
{}

/// A frame of a session is the text of a frame of its
/// event, of a kind that is allowed after the history.
pub fn frames_exactly()
    ensures { (rules : Rules) (past : List Event) (bytes : List ℕ) (e : Event) → AreOctets bytes →
        IsFrame (stream rules) past bytes e
        ↔ ((f : FrameText ItemText bytes e) × ((stream rules).allows past f.kind ≡ true)) }
{}
