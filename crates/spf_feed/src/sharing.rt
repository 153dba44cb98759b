//! Items that were read before they came, as by a source that translates other messages.

ghost use Rattle.std.specs.Prelude.{◌≡◌, IfSome, Some};
ghost use Rattle.spf_feed.specs.Items.{item_at};

use spf_x509::X509Context;

/// What is known beside a source of the items that it gives. Such an item is shared and not read
/// again, so what follows is the same with it and without it.
pub trait Sharing<S> {
    /// The context that the payload of an item reads as, where the source knows it.
    fn context<'a>(source: &'a S, payload: &[u8]) -> Option<&'a X509Context>
        ensures { IfSome result (λ context. item_at payload.now ≡ Some (Some context.now)) };
}

/// Nothing is known beside a source.
#[derive(Clone, Copy, Debug, PartialEq, Eq)]
pub struct NoSharing;

impl<S> Sharing<S> for NoSharing {
    fn context<'a>(_source: &'a S, _payload: &[u8]) -> Option<&'a X509Context> {
        None
    }
}
