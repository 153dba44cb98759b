//! Laws of the definitions that contracts cite. No law has a body: its contract is its statement.

ghost use Rattle.std.specs.Prelude.{◌≡◌, ◌⊎◌, ◌++◌, List, ℕ, Some};
ghost use Rattle.std.specs.List.{AllByRecursion};
ghost use Rattle.spf_http2.specs.Frames.{Frame, IsFrame, frame_text, frames_text, frame_at};

/// A frame is read back from its text, whatever follows it.
pub fn frames_read_back()
    ensures { (f : Frame) (rest : List ℕ) → IsFrame f
        → frame_at (frame_text f ++ rest) ≡ Some (f, rest) }
{}

/// Octets are cut into frames in one way: of two such lists, one begins the other, and what it
/// leaves are the texts of the frames that it lacks.
pub fn octets_cut_one_way()
    ensures { (fs gs : List Frame) (xs ys : List ℕ) → AllByRecursion IsFrame fs
        → AllByRecursion IsFrame gs → frames_text fs ++ xs ≡ frames_text gs ++ ys
        → ((more : List Frame) × (gs ≡ fs ++ more) × (xs ≡ frames_text more ++ ys))
        ⊎ ((more : List Frame) × (fs ≡ gs ++ more) × (ys ≡ frames_text more ++ xs)) }
{}
