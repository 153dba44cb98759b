//! Laws of what is the same, of lines and of texts, which contracts cite. No law has a body: its
//! contract is its statement.

ghost use Rattle.std.specs.Prelude.{◌↔◌, ◌≡◌, ℕ, ℤ, Bool, true, false, nat_eq, List, Option, None};
ghost use Rattle.std.specs.Prelude.{Some};
ghost use Rattle.std.specs.Option.{option_eq};
ghost use Rattle.std.specs.Cmp.{IsEquivalence};
ghost use Rattle.std.specs.Cmp.Lexicographic.{pointwise};
ghost use Rattle.spf_x509.specs.Bundle.{Bundle, find_entry};
ghost use Rattle.spf_api.specs.Reading.{context_at};
ghost use Rattle.spf_api.specs.Refused.{Refused};
ghost use Rattle.spf_api.specs.declared.link.ClientFault.{ClientFault};
ghost use Rattle.spf_api.specs.declared.response.ContextResponse.{ContextResponse};
ghost use Rattle.spf_view.specs.Sessions.{IsFrame};
ghost use Rattle.spf_view.specs.Views.{Permitted};
ghost use Rattle.spf_feed.specs.Events.{text_at, status_at, failure_at, moment_at, event_at};
ghost use Rattle.spf_feed.specs.Items.{Event, Rules};
ghost use Rattle.spf_feed.specs.Material.{Material, chosen_of, same_svid, same_choice};
ghost use Rattle.spf_feed.specs.Material.{same_material};
ghost use Rattle.spf_feed.specs.OneLine.{IsLine};
ghost use Rattle.spf_feed.specs.Reordered.{IsReordered, HasAnother};
ghost use Rattle.spf_feed.specs.Run.{outputs, stream};
ghost use Rattle.spf_feed.specs.Shown.{visible_text};
ghost use Rattle.spf_feed.specs.Texts.{AreOctets, FieldText, StatusText, FailureText, MomentText};
ghost use Rattle.spf_feed.specs.Texts.{ItemText, EventText, FrameText};

/// Being the same is an equivalence.
pub fn same_is_an_equivalence()
    ensures { IsEquivalence same_material }
{}

/// The order of the SVIDs, of the authorities of a trust
/// domain and of the revocation lists makes no difference.
pub fn order_makes_no_difference()
    ensures { (a b : Material) → IsReordered a b → same_material a b ≡ true }
{}

/// Another chosen SVID makes a difference.
pub fn choice_makes_a_difference()
    ensures { (a b : Material) → option_eq same_choice (chosen_of a) (chosen_of b) ≡ false
        → same_material a b ≡ false }
{}

/// Another SVID makes a difference, also one that is not chosen.
pub fn svid_makes_a_difference()
    ensures { (a b : Material) → HasAnother same_svid a.context.svids b.context.svids
        → same_material a b ≡ false }
{}

/// Another trust domain makes a difference, and another authority of a trust domain does.
pub fn authority_makes_a_difference()
    ensures domain { (a b : Material) (domain : List ℕ) (q : Bundle)
        → find_entry domain a.context.bundles ≡ None → find_entry domain b.context.bundles ≡ Some q
        → same_material a b ≡ false }
    ensures authority { (a b : Material) (domain : List ℕ) (p q : Bundle)
        → find_entry domain a.context.bundles ≡ Some p
        → find_entry domain b.context.bundles ≡ Some q
        → HasAnother (pointwise nat_eq) p.authorities q.authorities → same_material a b ≡ false }
{}

/// Another revocation list makes a difference.
pub fn crl_makes_a_difference()
    ensures { (a b : Material) → HasAnother (pointwise nat_eq) a.context.crls b.context.crls
        → same_material a b ≡ false }
{}

/// Material that is the same is shown alike at one moment.
pub fn same_material_is_shown_alike()
    ensures { (a b : Material) (now : Option ℤ) → same_material a b ≡ true
        → visible_text (Permitted a) now ≡ visible_text (Permitted b) now }
{}

/// The line of an event has one line feed, at its end.
pub fn one_line_feed()
    ensures { (rules : Rules) (past : List Event) (e : Event)
        → IsLine ((outputs rules).line past e) }
{}

/// A text field is read exactly where the octets are its text.
pub fn fields_exactly()
    ensures { (bytes text : List ℕ) → AreOctets bytes
        → (text_at bytes ≡ Some text) ↔ FieldText bytes text }
{}

/// A status is read exactly where the octets are its text.
pub fn statuses_exactly()
    ensures { (bytes : List ℕ) (s : Refused) → AreOctets bytes
        → (status_at bytes ≡ Some s) ↔ StatusText bytes s }
{}

/// A client failure is read exactly where the octets are its text.
pub fn failures_exactly()
    ensures { (bytes : List ℕ) (e : ClientFault) → AreOctets bytes
        → (failure_at bytes ≡ Some e) ↔ FailureText bytes e }
{}

/// A moment is read exactly where the octets are its text.
pub fn moments_exactly()
    ensures { (bytes : List ℕ) (m : ℤ) → AreOctets bytes
        → (moment_at bytes ≡ Some m) ↔ MomentText bytes m }
{}

/// An item is read exactly where the octets are the payload of its response.
pub fn items_exactly()
    ensures { (bytes : List ℕ) (r : ContextResponse) → AreOctets bytes
        → (context_at bytes ≡ Some r) ↔ ItemText bytes r }
{}

/// A payload of a kind lays out an event exactly where it is the text of that event.
pub fn events_exactly()
    ensures { (kind : ℕ) (payload : List ℕ) (e : Event) → AreOctets payload
        → (event_at context_at kind payload ≡ Some e) ↔ EventText ItemText kind payload e }
{}

/// A frame of a session is the text of a frame of its
/// event, of a kind that is allowed after the history.
pub fn frames_exactly()
    ensures { (rules : Rules) (past : List Event) (bytes : List ℕ) (e : Event) → AreOctets bytes →
        IsFrame (stream rules) past bytes e
        ↔ ((f : FrameText ItemText bytes e) × ((stream rules).allows past f.kind ≡ true)) }
{}
