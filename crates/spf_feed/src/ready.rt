/// What a first accepted item must hold.
#[derive(Clone, Copy, Debug, PartialEq, Eq)]
pub enum Ready {
    /// A chosen SVID that has not expired at the last moment.
    Usable,
    /// Nothing more than what every accepted item must hold.
    Any,
}
