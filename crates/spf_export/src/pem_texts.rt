//! What the files of an identity hold.

ghost use Rattle.std.specs.Prelude.{◌≡◌, ◌++◌, IfOk, OnOk};
ghost use Rattle.spf_export.specs.Files.{AreTexts, IsSvidIn, text_of};
ghost use Rattle.spf_export.specs.Pem.{authorities_in, authorities_of};
ghost use Rattle.spf_export.specs.Pem.{certificates_text};

use crate::export_error::ExportError;
use crate::pem::{put_block, single_block};
use crate::pem_file::PemFile;
use spf_disk::{AuthorityList, Generation};
use spf_io::Bytes;
use spf_x509::{Certificate, X509Svid, X509SvidError};
use std::alloc::{AllocError, Global};

/// The texts of the files of one identity.
#[derive(Drop)]
pub(crate) struct PemTexts {
    pub(crate) bundle: Vec<u8>,
    pub(crate) key: Vec<u8>,
    pub(crate) chain: Vec<u8>,
}

impl PemTexts {
    /// The text of a file.
    pub(crate) fn text(&self, file: PemFile) -> &[u8]
        ensures { result.now ≡ text_of self.now file }
    {
        match file {
            PemFile::Bundle => self.bundle.as_slice(),
            PemFile::Key => self.key.as_slice(),
            PemFile::Chain => self.chain.as_slice(),
        }
    }
}

/// The SVID of a generation.
fn svid_in(alloc: Global, generation: &Generation) -> Result<X509Svid, ExportError>
    ensures { IsSvidIn generation.now result }
{
    let (chain, key) = (generation.chain.as_slice(), generation.key.as_slice());
    match X509Svid::parse_from_der(alloc, chain, key) {
        Ok(svid) => Ok(svid),
        Err(X509SvidError::OutOfMemory) => Err(ExportError::OutOfMemory),
        // What the folder holds was not an identity when it was written.
        Err(_) => Err(ExportError::Damaged),
    }
}

/// The texts of the files of a generation.
pub(crate) fn pem_texts(alloc: Global, generation: &Generation) -> Result<PemTexts, ExportError>
    ensures { AreTexts generation.now result }
{
    let svid = svid_in(alloc, generation)?;
    let domain = svid.spiffe_id().trust_domain().as_str();
    let bundle = bundle_text(alloc, generation.authorities.as_slice(), domain)?;
    let key = single_block(alloc, "PRIVATE KEY", generation.key.as_slice())?;
    let chain = chain_text(alloc, svid.cert_chain())?;
    Ok(PemTexts { bundle, key, chain })
}

/// The certificates of a chain, one block each.
fn chain_text(alloc: Global, chain: &[Certificate]) -> Result<Vec<u8>, AllocError>
    ensures { IfOk result (λ v. v.items ≡ certificates_text chain.now) }
{
    let mut out = Vec::new(alloc);
    for certificate in chain {
        put_block(alloc, &mut out, "CERTIFICATE", certificate.as_bytes())?;
    }
    Ok(out)
}

/// The authorities of the trust domain, one block each.
fn bundle_text(
    alloc: Global,
    lists: &[AuthorityList],
    trust_domain: &str,
) -> Result<Vec<u8>, AllocError>
    ensures { IfOk result (λ v. v.items ≡ certificates_text
        (authorities_of trust_domain.now lists.now)) }
{
    let mut out = Vec::new(alloc);
    for list in lists {
        put_list(alloc, &mut out, list, trust_domain)?;
    }
    Ok(out)
}

/// Appends the authorities of a list, if it is that of the trust domain.
fn put_list(
    alloc: Global,
    out: &mut Vec<u8>,
    list: &AuthorityList,
    trust_domain: &str,
) -> Result<(), AllocError>
    ensures { OnOk result (out.new.items ≡ out.old.items ++ certificates_text
        (authorities_in trust_domain.now list.now)) }
{
    if list.name.as_str() == trust_domain {
        put_authorities(alloc, out, list.certificates.as_slice())?;
    }
    Ok(())
}

fn put_authorities(
    alloc: Global,
    out: &mut Vec<u8>,
    authorities: &[Bytes],
) -> Result<(), AllocError>
    ensures { OnOk result (out.new.items ≡ out.old.items ++ certificates_text authorities.now) }
{
    for authority in authorities {
        put_block(alloc, out, "CERTIFICATE", authority.as_slice())?;
    }
    Ok(())
}
