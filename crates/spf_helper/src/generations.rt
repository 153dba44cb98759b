//! The entries that steps are kept as.

ghost use Rattle.std.specs.Prelude.{◌≡◌, IfOk, map};
ghost use Rattle.std.specs.List.{flat_map};
ghost use Rattle.std.specs.Option.{option_map};
ghost use Rattle.std.specs.Arc.{arc_value};
ghost use Rattle.spf_feed.specs.Pick.{choice_of};
ghost use Rattle.spf_feed.specs.Steps.{plain};
ghost use Rattle.spf_helper.specs.Generations.{chain_of, key_of, authority_list, entry_for};
ghost use Rattle.spf_helper.specs.Generations.{generation_of};

use spf_disk::{AuthorityList, Entry, Generation};
use spf_feed::Step;
use spf_io::{Bytes, List, OutOfMemory, Text};
use spf_x509::{Certificate, X509BundleSet, X509Context, X509Svid};
use std::alloc::Global;
use std::sync::Arc;

/// The octets of the certificates, one after another.
fn joined(alloc: Global, certificates: &[Certificate]) -> Result<Bytes, OutOfMemory>
    ensures { IfOk result (λ b. b ≡ flat_map (λ c. c) certificates.now) }
{
    let mut octets = Vec::new(alloc);
    for certificate in certificates {
        octets.extend_from_slice(certificate.as_bytes())?;
    }
    Ok(Bytes::new(octets))
}

fn copied(alloc: Global, certificates: &[Certificate]) -> Result<List<Bytes>, OutOfMemory>
    ensures { IfOk result (λ l. l ≡ certificates.now) }
{
    let mut copies = Vec::with_capacity(alloc, certificates.len())?;
    for certificate in certificates {
        copies.push(Bytes::copy_of(alloc, certificate.as_bytes())?)?;
    }
    Ok(List::new(copies))
}

/// The authorities, by trust domain in order.
fn authorities(alloc: Global, bundles: &X509BundleSet) -> Result<List<AuthorityList>, OutOfMemory>
    ensures { IfOk result (λ l. l ≡ map authority_list bundles.now) }
{
    let mut lists = Vec::with_capacity(alloc, bundles.len())?;
    for (trust_domain, bundle) in bundles.iter() {
        let list = AuthorityList {
            name: Text::copy_of(alloc, trust_domain.as_str())?,
            certificates: copied(alloc, bundle.authorities())?,
        };
        lists.push(list)?;
    }
    Ok(List::new(lists))
}

fn chosen(context: &X509Context, choice: Option<usize>) -> Option<&Arc<X509Svid>>
    ensures { option_map (λ a. arc_value a.now) result ≡ choice_of context.now.svids choice }
{
    match choice {
        None => None,
        Some(index) => context.svids().get(index),
    }
}

fn chain(alloc: Global, svid: Option<&Arc<X509Svid>>) -> Result<Bytes, OutOfMemory>
    ensures { IfOk result (λ b. b ≡ chain_of (option_map (λ a. arc_value a.now) svid.entry)) }
{
    match svid {
        None => Ok(Bytes::new(Vec::new(alloc))),
        Some(svid) => joined(alloc, svid.cert_chain()),
    }
}

fn key(alloc: Global, svid: Option<&Arc<X509Svid>>) -> Result<Bytes, OutOfMemory>
    ensures { IfOk result (λ b. b ≡ key_of (option_map (λ a. arc_value a.now) svid.entry)) }
{
    match svid {
        None => Ok(Bytes::new(Vec::new(alloc))),
        Some(svid) => Bytes::copy_of(alloc, svid.private_key().as_bytes()),
    }
}

fn generation(
    alloc: Global,
    number: u64,
    context: &X509Context,
    choice: Option<usize>,
) -> Result<Generation, OutOfMemory>
    ensures { IfOk result (λ g. g
        ≡ generation_of number (record { context = context.now; choice = choice })) }
{
    let svid = chosen(context, choice);
    Ok(Generation {
        number,
        chain: chain(alloc, svid)?,
        key: key(alloc, svid)?,
        authorities: authorities(alloc, context.bundle_set())?,
    })
}

/// The entry that a step is kept as.
pub(crate) fn entry_of(alloc: Global, number: u64, step: &Step) -> Result<Entry, OutOfMemory>
    ensures { IfOk result (λ e. e ≡ entry_for number (plain step.now)) }
{
    match step {
        Step::Accept {
            context,
            choice,
            ..
        } => Ok(Entry::Accepted(generation(alloc, number, context, *choice)?)),
        Step::Deny { .. } => Ok(Entry::Withdrawn { number }),
    }
}
