//! Laws of the definitions that contracts cite. No law has a body: its contract is its statement.

ghost use Rattle.std.specs.Prelude.{◌≡◌, ◌≢◌, ℕ, ◌+◌, ◌-◌, ◌^◌, ◌<◌, ◌≤◌, Bool, true};
ghost use Rattle.std.specs.Prelude.{if◌then◌else◌, List, [], ◌∷◌, ◌++◌, take};
ghost use Rattle.std.specs.Cmp.{IsEquivalence};
ghost use Rattle.std.specs.List.{flat_map, AllByRecursion};
ghost use Rattle.std.specs.Option.{option_to_list};
ghost use Rattle.spf_view.specs.Frames.{FitsFrame, raw_text};
ghost use Rattle.spf_view.specs.Sessions.{Stream, IsReading, refusal_of, all_of};
ghost use Rattle.spf_view.specs.Views.{Subject, outcome, Accepted, Denied, Passed, View, Waiting};
ghost use Rattle.spf_view.specs.Views.{Withdrawn, Permitted, same_view, view_after, view_at};
ghost use Rattle.spf_view.specs.Views.{revision_after, revision_at, outcome_after};
ghost use Rattle.spf_view.specs.Steps.{Step, step_in, steps_of, IsLegal, replay_view};
ghost use Rattle.spf_view.specs.Steps.{replay_revision, replay_held};
ghost use Rattle.spf_view.specs.Standing.{Kept, Stands, IsShowing, held_in, reason_of};

/// The steps of the first events make visible what these events do.
pub fn steps_replay<E, M, L, D>()
    ensures { (s : Subject E M L D) (events : List E) (k : ℕ) →
        (replay_view (steps_of s (take k events)) ≡ view_at s events k)
        × (replay_revision s.is_same (steps_of s (take k events)) ≡ revision_at s events k) }
{}

/// The steps of a session, where there are any, are legal:
/// the first accepts, and each accepted one keeps the limits.
pub fn steps_are_legal<E, M, L, D>()
    ensures { (s : Subject E M L D) (events : List E) → steps_of s events ≢ []
        → IsLegal s.is_within (steps_of s events) }
{}

/// An event that is neither accepted nor a denial leaves view and revision, withdrawn or not.
pub fn passed_changes_nothing<E, M, L, D>()
    ensures { (s : Subject E M L D) (events : List E) (e : E) → outcome_after s events e ≡ Passed →
        (view_after s (events ++ e ∷ []) ≡ view_after s events)
        × (revision_after s (events ++ e ∷ []) ≡ revision_after s events) }
{}

/// An event that was accepted is accepted again after a
/// withdrawal, restores permission, and raises the revision.
pub fn same_update_restores<E, M, L, D>()
    ensures { (s : Subject E M L D) (before events : List E) (e : E) (m : M) (d : D)
        → outcome_after s before e ≡ Accepted m → view_after s events ≡ Withdrawn d →
        (view_after s (events ++ e ∷ []) ≡ Permitted m)
        × (revision_after s events < 2 ^ 64 - 1
        → revision_after s (events ++ e ∷ []) ≡ revision_after s events + 1) }
{}

/// A denial while permitted withdraws what was visible, and raises the revision.
pub fn denial_withdraws<E, M, L, D>()
    ensures { (s : Subject E M L D) (events : List E) (e : E) (m : M) (d : D)
        → view_after s events ≡ Permitted m → outcome_after s events e ≡ Denied d →
        (view_after s (events ++ e ∷ []) ≡ Withdrawn d)
        × (revision_after s events < 2 ^ 64 - 1
        → revision_after s (events ++ e ∷ []) ≡ revision_after s events + 1) }
{}

/// A second denial while withdrawn changes neither revision nor reason.
pub fn second_denial_changes_nothing<E, M, L, D>()
    ensures { (s : Subject E M L D) (events : List E) (e : E) (d other : D)
        → view_after s events ≡ Withdrawn d → outcome_after s events e ≡ Denied other →
        (view_after s (events ++ e ∷ []) ≡ Withdrawn d)
        × (revision_after s (events ++ e ∷ []) ≡ revision_after s events) }
{}

/// An accepted update while permitted raises the revision exactly where it is not the same.
pub fn revision_counts_changes<E, M, L, D>()
    ensures { (s : Subject E M L D) (events : List E) (e : E) (m n : M)
        → view_after s events ≡ Permitted m → outcome_after s events e ≡ Accepted n
        → revision_after s events < 2 ^ 64 - 1 →
        revision_after s (events ++ e ∷ [])
        ≡ (if s.is_same m n then revision_after s events else revision_after s events + 1) }
{}

/// More steps never lower the revision.
pub fn revision_never_falls<M, L, D>()
    ensures { (eq : M → M → Bool) (steps more : List (Step M L D))
        → replay_revision eq steps ≤ replay_revision eq (steps ++ more) }
{}

/// What is kept for steps has the revision, the reason and the held
/// material of their replay, and a view that is the same as theirs.
pub fn kept_is_replayed<M, L, D>()
    ensures { (eq : M → M → Bool) → IsEquivalence eq → (steps : List (Step M L D)) (kept : Kept M D)
        → IsShowing kept.view → Stands eq steps kept →
        (kept.revision ≡ replay_revision eq steps) × (held_in kept.view ≡ replay_held eq steps)
        × (reason_of kept.view ≡ reason_of (replay_view steps))
        × (same_view eq kept.view (replay_view steps) ≡ true) }
{}

/// Being the same is an equivalence on the views that are not waiting.
pub fn same_views<M, D>()
    ensures { (eq : M → M → Bool) → IsEquivalence eq →
        ((v : View M D) → v ≢ Waiting → same_view eq v v ≡ true)
        × ((v w : View M D) → same_view eq v w ≡ same_view eq w v)
        × ((u v w : View M D) → same_view eq u v ≡ true → same_view eq v w ≡ true
        → same_view eq u w ≡ true) }
{}

/// No frame begins another, so frames one after another are cut in one way only.
pub fn frames_are_cut_in_one_way()
    ensures { (xs ys : List (ℕ × List ℕ)) → AllByRecursion (λ f. FitsFrame f.1) xs
        → AllByRecursion (λ f. FitsFrame f.1) ys
        → flat_map (λ f. raw_text f.0 f.1) xs ≡ flat_map (λ f. raw_text f.0 f.1) ys → xs ≡ ys }
{}

/// There is one reading of each list of bytes.
pub fn one_reading<E, A>()
    ensures { (s : Stream E A) (max_frames : ℕ) (bytes : List ℕ) (es fs : List E)
        (rest other : List ℕ) → IsReading s max_frames bytes es rest
        → IsReading s max_frames bytes fs other → (es ≡ fs) × (rest ≡ other) }
{}

/// Each list of bytes has a reading, for every bound on frames.
pub fn a_reading<E, A>()
    ensures { (s : Stream E A) (max_frames : ℕ) (bytes : List ℕ)
        → (es : List E) × (rest : List ℕ) × IsReading s max_frames bytes es rest }
{}

/// The steps that a session gives, event by event, are those of the whole list of its events.
pub fn steps_of_a_session<E, A, M, L, D>()
    ensures { (t : Stream E A) (s : Subject E M L D) (es : List E) → refusal_of t [] es ≡ None
        → all_of t (λ past e. option_to_list (step_in s.limits (outcome s e past))) [] es
        ≡ steps_of s es }
{}
