//! Responses as views, and views as responses.

ghost use Rattle.std.specs.Prelude.{◌≡◌, map, IfOk};
ghost use Rattle.spf_api.specs.Views.{bundle_entry_of, context_of};

use crate::entry::{to_entries, views_of};
use crate::response::{BundleEntryView, BundlesResponse, ContextResponse, ContextView};
use spf_io::{List, OutOfMemory};
use std::alloc::Global;

/// Returns a view of the response.
pub(crate) fn context_view(
    alloc: Global,
    response: &ContextResponse,
) -> Result<ContextView<'_>, OutOfMemory>
    ensures { IfOk result (λ v. context_of v ≡ response.now) }
{
    Ok(ContextView {
        svids: List::new(views_of(alloc, response.svids.as_slice())?),
        federated: List::new(views_of(alloc, response.federated.as_slice())?),
        crls: List::new(views_of(alloc, response.crls.as_slice())?),
    })
}

/// Returns the response that the view holds.
pub(crate) fn to_context(
    alloc: Global,
    view: &ContextView<'_>,
) -> Result<ContextResponse, OutOfMemory>
    ensures { IfOk result (λ r. r ≡ context_of view.now) }
{
    Ok(ContextResponse {
        svids: to_entries(alloc, view.svids.as_slice())?,
        federated: to_entries(alloc, view.federated.as_slice())?,
        crls: to_entries(alloc, view.crls.as_slice())?,
    })
}

/// Returns the bundles response whose entries the views show.
pub(crate) fn to_bundles(
    alloc: Global,
    views: &[BundleEntryView<'_>],
) -> Result<BundlesResponse, OutOfMemory>
    ensures { IfOk result (λ r. r ≡ record { bundles = map bundle_entry_of views.now }) }
{
    Ok(BundlesResponse {
        bundles: to_entries(alloc, views)?,
    })
}
