//! Tests of the types, and of the Workload API's responses and endpoints, which need only public
//! calls: identifiers, DER, certificates, pauses, payloads, rules and texts.
#![tactic(auto)]

#[cfg(test)]
mod api;
#[cfg(test)]
mod der;
#[cfg(test)]
mod endpoint;
#[cfg(test)]
mod id;
#[cfg(test)]
mod io;
#[cfg(test)]
mod pace;
#[cfg(test)]
mod shown;
#[cfg(test)]
mod system;
#[cfg(test)]
mod written;
#[cfg(test)]
mod x509;
#[cfg(test)]
mod x509_texts;
