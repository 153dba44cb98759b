//! Certificates that differ in their expiry alone.

ghost use Rattle.std.specs.Prelude.{◌≡◌, ◌++◌, length, pos, IfOk, OnOk};
ghost use Rattle.spf_watch.specs.Template.{IsTemplate, before, dated};

use spf_der::{CertSpec, write_certificate};
use spf_io::OutOfMemory;
use std::alloc::Global;

/// The length of a UTCTime with its tag and length octets.
const TIME_LENGTH: usize = 15;

/// The octets of a certificate before its notAfter, and those after it.
#[derive(Drop)]
pub(crate) struct Template {
    before: Vec<u8>,
    after: Vec<u8>,
}

impl Template {
    /// The certificate of `spec` without its notAfter, which is a UTCTime at `offset`.
    pub(crate) fn new(
        alloc: Global,
        spec: &CertSpec,
        offset: usize,
    ) -> Result<Template, OutOfMemory>
        ensures { spec.now.expiry ≡ pos 2000000000 → offset ≡ length (before spec.now)
            → IfOk result (IsTemplate spec.now) }
    {
        let text = write_certificate(alloc, spec)?;
        let (before, rest) = text.as_slice().split_at(offset.min(text.len()));
        let (_, after) = rest.split_at(TIME_LENGTH.min(rest.len()));
        Ok(Template {
            before: Vec::from_slice(alloc, before)?,
            after: Vec::from_slice(alloc, after)?,
        })
    }

    /// Appends the certificate with this notAfter.
    pub(crate) fn push(&self, not_after: &[u8], octets: &mut Vec<u8>) -> Result<(), OutOfMemory>
        ensures { OnOk result
            (octets.new.items ≡ octets.old.items ++ dated self.now not_after.now) }
    {
        octets.extend_from_slice(self.before.as_slice())?;
        octets.extend_from_slice(not_after)?;
        octets.extend_from_slice(self.after.as_slice())?;
        Ok(())
    }
}
