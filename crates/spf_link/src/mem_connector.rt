//! A connector in memory.

ghost use Rattle.std.specs.Prelude.{◌≡◌, Ok, Some, map};
ghost use Rattle.spf_link.specs.InMemory.{ConnectsInMemory, client_refusals_after, members_of};

use crate::connector::Connector;
use crate::mem_link::{MemLink, unavailable};
use spf_api::{ClientFault, EndpointError};
use std::alloc::Global;
use std::collections::VecDeque;
use std::marker::Model;

/// A connector that gives these links and faults in turn, and then refuses with UNAVAILABLE and an
/// empty message.
#[derive(Drop)]
pub struct MemConnector {
    alloc: Global,
    links: VecDeque<Result<MemLink, ClientFault>>,
    refusals: u64,
}

impl Model for MemConnector {
    ghost use Rattle.spf_link.specs.InMemory.{ConnectorState};

    ghost Value = { ConnectorState };

    ghost use Rattle.std.specs.Coded.{codes};
    ghost use Rattle.spf_api.specs.contracts.response.ClaimValue as claim;

    ghost coded = { Prim.hlevel (codes, claim.the_row.coded) };

    ghost view = { λ c. record { links = c.links.items; refusals = c.refusals } };
}

impl MemConnector {
    pub fn new(alloc: Global, links: Vec<Result<MemLink, ClientFault>>) -> MemConnector
        ensures { result ≡ record { links = links.items; refusals = 0 } }
    {
        MemConnector {
            alloc,
            links: VecDeque::from_vec(links),
            refusals: 0,
        }
    }
}

impl Connector for MemConnector {
    type Link = MemLink;

    ghost refusals = { λ c. c.refusals };

    ghost validates = { λ _. Ok tt };

    ghost members = { λ c. Some (members_of c.links) };

    ghost connect_gives = { ConnectsInMemory };

    fn validate(&mut self) -> Result<(), EndpointError> {
        Ok(())
    }

    fn connect(&mut self) -> Result<MemLink, ClientFault> {
        let link = match self.links.pop_front() {
            Some(link) => link,
            None => Err(ClientFault::Status(unavailable(self.alloc))),
        };
        self.refusals = counted(self.refusals, &link);
        link
    }
}

/// The count after a call.
fn counted(refusals: u64, link: &Result<MemLink, ClientFault>) -> u64
    ensures { result ≡ client_refusals_after link.now refusals }
{
    match link {
        Ok(_) | Err(ClientFault::OutOfMemory) => refusals,
        Err(_) => refusals.saturating_add(1),
    }
}
