//! An X.509 SVID: an identity, the chain that names it, and its key.

ghost use Rattle.std.specs.Prelude.{◌≡◌, ◌↔◌, ◌∷◌, IfOk, IsTrue, None, Ok, Some, slice_get};
ghost use Rattle.std.specs.Option.{option_map};
ghost use Rattle.std.specs.Arc.{arc_value};
ghost use Rattle.spf_io.specs.Rule.{Gives};
ghost use Rattle.spf_der.specs.Grammar.{CertText};
ghost use Rattle.spf_x509.specs.Chain.{IsChain, IsSvid, MayFollowLeaf, svid_of, svid_of_parts};
ghost use Rattle.spf_x509.specs.Chain.{svid_with_leaf, texts};
ghost use Rattle.spf_x509.specs.Errors.{is_memory_key, is_memory_svid};
ghost use Rattle.spf_x509.specs.Key.{key_rule};

use crate::certificate::{Certificate, read_whole};
use crate::certificates::Certificates;
use crate::chain::{
    ChainPart, bytes_before, chain_with_leaf, cut_certificate, cut_others, is_concatenation,
};
use crate::error::PrivateKeyError;
use crate::private_key::PrivateKey;
use crate::svid_error::X509SvidError;
use crate::svid_rule::{intermediate_rules, leaf_rule};
use spf_der::CertScan;
use spf_id::{Shared, SpiffeId};
use spf_io::{OutOfMemory, Text};
use std::alloc::Global;
use std::marker::Model;
use std::slice;
use std::sync::Arc;

/// An X.509 SVID (SPIFFE X.509-SVID section 2). Its
/// expiry follows from its chain, so it is not compared.
#[derive(Debug, Drop)]
#[derive_where(PartialEq, Eq, PartialOrd, Ord)]
pub struct X509Svid {
    spiffe_id: Shared<SpiffeId>,
    hint: Option<Text>,
    cert_chain: Certificates,
    private_key: Shared<PrivateKey>,
    #[derive_where(skip(EqHashOrd))]
    expiry: i64,
}

impl Model for X509Svid {
    ghost use Rattle.std.specs.Prelude.{◌≢◌, []};
    ghost use Rattle.spf_x509.specs.Chain.{IsSvid};
    ghost use Rattle.spf_x509.specs.Svid.{Svid};

    ghost Value = { Svid };

    ghost view = { λ s. record {
      id = s.spiffe_id;
      hint = s.hint;
      chain = s.cert_chain;
      key = s.private_key;
      expiry = s.expiry;
    } };

    ghost invariant = { λ s. (s.cert_chain ≢ [])
        × IsSvid (record {
          id = s.spiffe_id;
          hint = s.hint;
          chain = s.cert_chain;
          key = s.private_key;
          expiry = s.expiry;
        }) };

    ghost inverse = { λ v. record {
      spiffe_id = v.id;
      hint = v.hint;
      cert_chain = v.chain;
      private_key = v.key;
      expiry = v.expiry;
    } };
}

/// A leaf, and copies of the certificates after it.
fn listed_certificates(
    alloc: Global,
    leaf: Certificate,
    others: &[ChainPart<'_>],
) -> Result<Certificates, OutOfMemory>
    ensures { IfOk result (λ c. c ≡ leaf ∷ texts others.now) }
{
    let mut certificates = Certificates::with_capacity(alloc, others.len() + 1)?;
    certificates.push(alloc, leaf)?;
    for part in others {
        certificates.push(alloc, part.certificate(alloc)?)?;
    }
    Ok(certificates)
}

/// Copies of a leaf and of the certificates after it.
fn certificates_of(
    alloc: Global,
    leaf: &ChainPart<'_>,
    others: &[ChainPart<'_>],
) -> Result<Certificates, OutOfMemory>
    ensures { IfOk result (λ c. c ≡ texts (leaf.now ∷ others.now)) }
{
    let first = leaf.certificate(alloc)?;
    match others.split_first() {
        None => Ok(Certificates::one(first)),
        Some((other, rest)) if rest.is_empty() => {
            Ok(Certificates::two(first, other.certificate(alloc)?))
        }
        Some(_) => listed_certificates(alloc, first, others),
    }
}

/// The ID of an SVID, if there is one.
fn id_of(svid: Option<&X509Svid>) -> Option<&Shared<SpiffeId>> {
    match svid {
        Some(svid) => Some(&svid.spiffe_id),
        None => None,
    }
}

/// The key that the bytes are, which is shared with an SVID that has the same.
#[inline(always)]
fn key_from(
    alloc: Global,
    der: &[u8],
    known: Option<&X509Svid>,
) -> Result<Shared<PrivateKey>, PrivateKeyError>
    ensures { Gives is_memory_key (λ k. k) result (key_rule der.now) }
{
    match known {
        Some(known) if known.private_key().as_bytes() == der => Ok(known.private_key.try_clone()?),
        _ => Ok(Shared::new(alloc, PrivateKey::try_from(alloc, der)?)?),
    }
}

/// A copy of a hint, if there is one.
fn owned_hint(alloc: Global, hint: Option<&str>) -> Result<Option<Text>, OutOfMemory>
    ensures { IfOk result (λ h. h ≡ option_map (λ t. t.now) hint.entry) }
{
    match hint {
        Some(hint) => Ok(Some(Text::copy_of(alloc, hint)?)),
        None => Ok(None),
    }
}

/// The text of a hint, if there is one.
fn text_of(hint: &Option<Text>) -> Option<&str>
    ensures { option_map (λ t. t.now) result ≡ hint.now }
{
    match hint {
        Some(hint) => Some(hint.as_str()),
        None => None,
    }
}

/// Whether two hints are the same text, or both are left out.
fn is_same_hint(a: Option<&str>, b: Option<&str>) -> bool
    ensures { IsTrue result ↔ (option_map (λ t. t.now) a.entry ≡ option_map (λ t. t.now) b.entry) }
{
    match (a, b) {
        (None, None) => true,
        (Some(a), Some(b)) => a == b,
        _ => false,
    }
}

impl X509Svid {
    /// Returns the SVID of a chain of concatenated certificates, leaf first, and a PKCS#8 key,
    /// without a hint.
    pub fn parse_from_der(
        alloc: Global,
        chain: &[u8],
        key: &[u8],
    ) -> Result<X509Svid, X509SvidError>
        ensures { Gives is_memory_svid (λ s. s) result (svid_of chain.now key.now None) }
    {
        X509Svid::parse(alloc, chain, key, None, None)
    }

    /// The same with a hint.
    pub fn parse_from_der_with_hint(
        alloc: Global,
        chain: &[u8],
        key: &[u8],
        hint: Option<Text>,
    ) -> Result<X509Svid, X509SvidError>
        ensures { Gives is_memory_svid (λ s. s) result (svid_of chain.now key.now hint) }
    {
        X509Svid::parse(alloc, chain, key, text_of(&hint), None)
    }

    /// The same with a hint that is copied, where an SVID may be given that most often has the same
    /// ID and key. One or two certificates take no list.
    #[tactic(auto, unfolding(crate::specs::Chain::svid_of))]
    pub fn parse(
        alloc: Global,
        chain: &[u8],
        key: &[u8],
        hint: Option<&str>,
        known: Option<&X509Svid>,
    ) -> Result<X509Svid, X509SvidError>
        ensures { Gives is_memory_svid (λ s. s) result
            (svid_of chain.now key.now (option_map (λ t. t.now) hint.entry)) }
    {
        if chain.is_empty() {
            return Err(X509SvidError::EmptyChain);
        }
        let (leaf, rest) = cut_certificate(chain)?;
        if rest.is_empty() {
            return X509Svid::of_parts(alloc, &leaf, &[], key, hint, known);
        }
        let (second, after) = cut_certificate(rest)?;
        if after.is_empty() {
            return X509Svid::of_parts(alloc, &leaf, slice::from_ref(&second), key, hint, known);
        }
        let parts = cut_others(alloc, leaf, second, after)?;
        let Some((leaf, intermediates)) = parts.split_first() else {
            unreachable!();
        };
        X509Svid::of_parts(alloc, leaf, intermediates, key, hint, known)
    }

    /// The SVID of a chain that is cut.
    #[inline(always)]
    fn of_parts(
        alloc: Global,
        leaf: &ChainPart<'_>,
        intermediates: &[ChainPart<'_>],
        key: &[u8],
        hint: Option<&str>,
        known: Option<&X509Svid>,
    ) -> Result<X509Svid, X509SvidError>
        requires { IsChain (leaf.now ∷ intermediates.now) }
        ensures { Gives is_memory_svid (λ s. s) result
            (svid_of_parts key.now (option_map (λ t. t.now) hint.entry)
            (leaf.now ∷ intermediates.now)) }
    {
        let (spiffe_id, expiry) = leaf_rule(alloc, leaf.scan(), id_of(known))?;
        intermediate_rules(alloc, intermediates)?;
        let private_key = key_from(alloc, key, known)?;
        let cert_chain = certificates_of(alloc, leaf, intermediates)?;
        Ok(X509Svid {
            spiffe_id,
            hint: owned_hint(alloc, hint)?,
            cert_chain,
            private_key,
            expiry,
        })
    }

    /// The same, shared, where SVIDs may be given that were read before: certificates after the
    /// leaf that are those of the chain of `near` are copied, and the ID and the key of `known` are
    /// shared where they are the same. They are not read again. Without `known`, `near` most often
    /// has the same trust domain.
    pub fn parse_shared(
        alloc: Global,
        chain: &[u8],
        key: &[u8],
        hint: Option<&str>,
        near: Option<&X509Svid>,
        known: Option<&X509Svid>,
    ) -> Result<Arc<X509Svid>, X509SvidError>
        ensures { Gives is_memory_svid arc_value result
            (svid_of chain.now key.now (option_map (λ t. t.now) hint.entry)) }
    {
        match near {
            None => X509Svid::parse_alone(alloc, chain, key, hint, known),
            Some(near) => near.parse_beside(alloc, chain, key, hint, known.or(Some(near))),
        }
    }

    /// The SVID of a chain all of whose certificates are read.
    #[inline(never)]
    fn parse_alone(
        alloc: Global,
        chain: &[u8],
        key: &[u8],
        hint: Option<&str>,
        known: Option<&X509Svid>,
    ) -> Result<Arc<X509Svid>, X509SvidError>
        ensures { Gives is_memory_svid arc_value result
            (svid_of chain.now key.now (option_map (λ t. t.now) hint.entry)) }
    {
        let svid = X509Svid::parse(alloc, chain, key, hint, known)?;
        Ok(Arc::new(alloc, svid)?)
    }

    /// The SVID of a chain, whose certificates after the leaf are copied from this SVID where they
    /// are the same.
    fn parse_beside(
        &self,
        alloc: Global,
        chain: &[u8],
        key: &[u8],
        hint: Option<&str>,
        known: Option<&X509Svid>,
    ) -> Result<Arc<X509Svid>, X509SvidError>
        ensures { Gives is_memory_svid arc_value result
            (svid_of chain.now key.now (option_map (λ t. t.now) hint.entry)) }
    {
        let others = self.intermediates();
        let Some(leaf) = bytes_before(chain, others) else {
            return X509Svid::parse_alone(alloc, chain, key, hint, known);
        };
        let Ok(scan) = read_whole(leaf) else {
            return X509Svid::parse_alone(alloc, chain, key, hint, known);
        };
        X509Svid::with_leaf(alloc, leaf, &scan, others, key, hint, known)
    }

    /// The SVID of a leaf, and of certificates after it that keep their rule.
    #[tactic(auto, unfolding(crate::specs::Chain::svid_with_leaf))]
    fn with_leaf(
        alloc: Global,
        leaf: &[u8],
        scan: &CertScan<'_>,
        others: &[Certificate],
        key: &[u8],
        hint: Option<&str>,
        known: Option<&X509Svid>,
    ) -> Result<Arc<X509Svid>, X509SvidError>
        requires leaf { CertText leaf.now scan.now }
        requires others { MayFollowLeaf others.now }
        ensures { Gives is_memory_svid arc_value result
            (svid_with_leaf scan.now leaf.now others.now key.now
            (option_map (λ t. t.now) hint.entry)) }
    {
        let (spiffe_id, expiry) = leaf_rule(alloc, scan, id_of(known))?;
        let kept_key = key_from(alloc, key, known)?;
        let cert_chain = chain_with_leaf(alloc, leaf, others)?;
        let svid = X509Svid {
            spiffe_id,
            hint: owned_hint(alloc, hint)?,
            cert_chain,
            private_key: kept_key,
            expiry,
        };
        Ok(Arc::new(alloc, svid)?)
    }

    /// The certificates after the leaf.
    fn intermediates(&self) -> &[Certificate]
        ensures { MayFollowLeaf result.now }
    {
        match self.cert_chain().split_first() {
            Some((_, others)) => others,
            None => &[],
        }
    }

    /// Returns a copy of the SVID.
    pub fn try_clone(&self, alloc: Global) -> Result<X509Svid, OutOfMemory>
        ensures { IfOk result (λ s. s ≡ self.now) }
    {
        let hint = match &self.hint {
            None => None,
            Some(hint) => Some(hint.try_clone(alloc)?),
        };
        Ok(X509Svid {
            spiffe_id: self.spiffe_id.try_clone()?,
            hint,
            cert_chain: self.cert_chain.try_clone(alloc)?,
            private_key: self.private_key.try_clone()?,
            expiry: self.expiry,
        })
    }

    /// Returns whether this is the SVID of exactly that chain, key and hint. It allocates nothing.
    pub fn is_parsed_from(&self, chain: &[u8], key: &[u8], hint: Option<&str>) -> bool
        ensures { IsTrue result
            ↔ (svid_of chain.now key.now (option_map (λ t. t.now) hint.entry) ≡ Ok self.now) }
    {
        if !is_concatenation(self.cert_chain.as_slice(), chain) {
            return false;
        }
        if !is_same_hint(hint, self.hint()) {
            return false;
        }
        key == self.private_key.get().as_bytes()
    }

    pub fn spiffe_id(&self) -> &SpiffeId
        ensures { result.now ≡ self.now.id }
    {
        self.spiffe_id.get()
    }

    /// Returns the certificates, leaf first. There is at least one.
    pub fn cert_chain(&self) -> &[Certificate]
        ensures chain { result.now ≡ self.now.chain }
        ensures parsed { IsSvid self.now }
    {
        self.cert_chain.as_slice()
    }

    /// Returns the first certificate of the chain.
    pub fn leaf(&self) -> &Certificate
        ensures { Some result.now ≡ slice_get self.now.chain 0 }
    {
        &self.cert_chain.as_slice()[0]
    }

    pub fn private_key(&self) -> &PrivateKey
        ensures { result.now ≡ self.now.key }
    {
        self.private_key.get()
    }

    /// Returns what the identity is meant for, as the operator says.
    pub fn hint(&self) -> Option<&str>
        ensures { option_map (λ t. t.now) result ≡ self.now.hint }
    {
        text_of(&self.hint)
    }

    /// Returns when the leaf expires, in Unix seconds.
    pub fn expiry_unix(&self) -> i64
        ensures { result ≡ self.now.expiry }
    {
        self.expiry
    }
}
