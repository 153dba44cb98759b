//! What a history is made of.

/// A kind of history. No value of it is made.
pub trait Kind {
    type Step: Drop;

    ghost use Rattle.std.specs.Prelude.{List};

    // Which lists of steps are legal, the oldest step first.
    ghost legal: { List Self.Step → Type 0 };
}

/// A member of a history: a step, or the end.
pub enum Entry<S> {
    Step(S),
    End,
}
