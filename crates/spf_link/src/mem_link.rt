//! A link in memory.

ghost use Rattle.std.specs.Prelude.{◌≡◌, List, [], None, Option, Some, Result, IfOk, IfSome};
ghost use Rattle.std.specs.Option.{option_to_list};
ghost use Rattle.spf_api.specs.Payload.{kind_of};
ghost use Rattle.spf_link.specs.InMemory.{NextsInMemory, StartsInMemory, refusals_after};
ghost use Rattle.spf_link.specs.Links.{HasLinkCause, StartAppends, Takes, is_kind, next_by};
ghost use Rattle.spf_link.specs.Request.{answered_by};
ghost use Rattle.spf_link.specs.Links as spec;

use crate::answer::Answer;
use crate::headers::Headers;
use crate::link::Link;
use crate::request::{Request, Start};
use spf_api::{GrpcStatusCode, GrpcStatusError, LinkFault, Response, ResponseKind};
use spf_io::{OutOfMemory, Text};
use std::alloc::Global;
use std::collections::VecDeque;
use std::marker::Model;

/// A link that gives these answers in turn, and keeps what each `start` was given. An answer that
/// does not fit the call is taken, and the call is refused as after the last answer: with
/// UNAVAILABLE and an empty message.
#[derive(Drop)]
pub struct MemLink {
    alloc: Global,
    answers: VecDeque<Answer>,
    starts: Vec<Start>,
    kind: Option<ResponseKind>,
    refusals: u64,
}

impl Model for MemLink {
    ghost use Rattle.spf_link.specs.InMemory.{LinkState};

    ghost Value = { LinkState };

    ghost use Rattle.std.specs.Coded.{codes};
    ghost use Rattle.spf_api.specs.contracts.response.ClaimValue as claim;

    ghost coded = { Prim.hlevel (codes, claim.the_row.coded) };

    ghost view = { λ l. record {
      answers = l.answers.items;
      starts = l.starts.items;
      kind = l.kind;
      refusals = l.refusals;
    } };
}

/// UNAVAILABLE with an empty message.
pub(crate) fn unavailable(alloc: Global) -> GrpcStatusError
    ensures { result ≡ spec.unavailable }
{
    GrpcStatusError::new(GrpcStatusCode::Unavailable, Text::new(String::new(alloc)))
}

fn unfit(alloc: Global) -> LinkFault
    ensures { result ≡ LinkFault.Status spec.unavailable }
{
    LinkFault::Status(unavailable(alloc))
}

/// What a `start` returns for an answer.
fn started_by(alloc: Global, answer: Option<Answer>) -> Result<(), LinkFault>
    ensures { result ≡ spec.started_by (option_to_list answer) }
{
    match answer {
        Some(Answer::Started) => Ok(()),
        Some(Answer::Refused(fault)) => Err(fault),
        _ => Err(unfit(alloc)),
    }
}

fn is_asked(kind: Option<ResponseKind>, response: &Response) -> bool
    ensures { result ≡ is_kind kind (kind_of response.now) }
{
    match (kind, response) {
        (Some(ResponseKind::Context), Response::Context(_)) => true,
        (Some(ResponseKind::Bundles), Response::Bundles(_)) => true,
        (Some(ResponseKind::JwtSvids), Response::JwtSvids(_)) => true,
        (Some(ResponseKind::JwtBundles), Response::JwtBundles(_)) => true,
        (Some(ResponseKind::Validation), Response::Validation(_)) => true,
        _ => false,
    }
}

/// What a `next` returns for an answer, where responses of that kind were asked for.
fn given_by(
    alloc: Global,
    kind: Option<ResponseKind>,
    answer: Option<Answer>,
) -> Result<Option<Response>, LinkFault>
    ensures { result ≡ next_by kind (option_to_list answer) }
{
    match answer {
        Some(Answer::End) => Ok(None),
        Some(Answer::Refused(fault)) => Err(fault),
        Some(Answer::Item(response)) => {
            if is_asked(kind, &response) {
                Ok(Some(response))
            } else {
                Err(unfit(alloc))
            }
        }
        _ => Err(unfit(alloc)),
    }
}

/// The count after a call.
fn counted<T>(refusals: u64, answer: &Result<T, LinkFault>) -> u64
    ensures { result ≡ refusals_after answer.now refusals }
{
    match answer {
        Ok(_) | Err(LinkFault::OutOfMemory) => refusals,
        Err(_) => refusals.saturating_add(1),
    }
}

impl MemLink {
    pub fn new(alloc: Global, answers: Vec<Answer>) -> MemLink
        ensures { result ≡ record {
          answers = answers.items;
          starts = [];
          kind = None;
          refusals =
              0;
        } }
    {
        MemLink {
            alloc,
            answers: VecDeque::from_vec(answers),
            starts: Vec::new(alloc),
            kind: None,
            refusals: 0,
        }
    }

    /// Returns what each `start` was given, oldest first.
    pub fn starts(&self) -> &[Start]
        ensures { result.now ≡ self.now.starts }
    {
        self.starts.as_slice()
    }
}

impl Link for MemLink {
    ghost refusals = { λ l. l.refusals };

    ghost starts = { λ l. Some l.starts };

    ghost kind = { λ l. l.kind };

    ghost answers = { λ l. Some l.answers };

    ghost start_gives = { StartsInMemory };

    ghost next_gives = { NextsInMemory };

    fn start(&mut self, headers: &Headers, request: &Request) -> Result<(), LinkFault> {
        let Ok(start) = Start::copy_of(self.alloc, headers, request) else {
            return Err(LinkFault::OutOfMemory);
        };
        if self.starts.reserve(1).is_err() {
            return Err(LinkFault::OutOfMemory);
        }
        let kind = request.response_kind();
        match started_by(self.alloc, self.answers.pop_front()) {
            Ok(()) => {
                self.starts.push_reserved(start);
                self.kind = Some(kind);
                Ok(())
            }
            Err(LinkFault::OutOfMemory) => Err(LinkFault::OutOfMemory),
            Err(fault) => {
                self.starts.push_reserved(start);
                self.kind = None;
                self.refusals = self.refusals.saturating_add(1);
                Err(fault)
            }
        }
    }

    fn next(&mut self) -> Result<Option<Response>, LinkFault> {
        let result = given_by(self.alloc, self.kind, self.answers.pop_front());
        self.refusals = counted(self.refusals, &result);
        result
    }
}
