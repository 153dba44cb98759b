//! A link over the wire.

ghost use Rattle.std.specs.Prelude.{◌≡◌, None, Some, IfOk, IfSome, false, is_some};
ghost use Rattle.spf_api.specs.Payload.{kind_of};
ghost use Rattle.spf_link.specs.Links.{HasLinkCause};
ghost use Rattle.spf_link.specs.Links as links;
ghost use Rattle.spf_link.specs.Request.{answered_by};
ghost use Rattle.spf_link.specs.Wire.{Ports, StartAsked, IsStreamRead, NextRead, Placed};
ghost use Rattle.spf_link.specs.Wire.{asked_after};
ghost use Rattle.spf_link.specs.Wire as spec;

use crate::answers::{Started, Streamed, read_in_stream, read_start};
use crate::headers::Headers;
use crate::link::Link;
use crate::request::Request;
use crate::wire_fault::{WireFault, loses_place};
use crate::wire_request::request_frame;
use spf_api::{GrpcStatusCode, GrpcStatusError, LinkFault, Response, ResponseKind};
use spf_frame::{FrameError, Payload};
use spf_io::{Sink, Source, Text};
use std::alloc::Global;

/// A link that puts requests to a sink and reads answers from a source, one frame each.
#[derive(Drop)]
pub struct WireLink<S, K> {
    alloc: Global,
    source: S,
    sink: K,
    /// The payload of the last frame.
    payload: Payload,
    /// The kind of the responses to the last request that was put, at least in part.
    asked: Option<ResponseKind>,
    refused: u64,
    /// What comes next may be the middle of a frame, so nothing is put or read any more.
    has_lost_place: bool,
}

/// A refusal with an empty message.
fn refusal(alloc: Global, code: GrpcStatusCode) -> LinkFault
    ensures { result ≡ spec.refusal code }
{
    LinkFault::Status(GrpcStatusError::new(code, Text::new(String::new(alloc))))
}

/// The refusal by what stood in the way.
fn fault_of(alloc: Global, fault: WireFault) -> LinkFault
    ensures { result ≡ spec.fault_of fault }
{
    match fault {
        WireFault::RequestTooLong => refusal(alloc, GrpcStatusCode::ResourceExhausted),
        WireFault::PutFault | WireFault::LostPlace => {
            refusal(alloc, GrpcStatusCode::Unavailable)
        }
        WireFault::Unread(FrameError::ReadFault) => refusal(alloc, GrpcStatusCode::Unavailable),
        WireFault::Unread(FrameError::BadFrame | FrameError::TooLong) => {
            refusal(alloc, GrpcStatusCode::Internal)
        }
        WireFault::Unread(FrameError::OutOfMemory) | WireFault::OutOfMemory => {
            LinkFault::OutOfMemory
        }
    }
}

fn result_of<T: Drop>(
    alloc: Global,
    answer: Result<Result<T, GrpcStatusError>, WireFault>,
) -> Result<T, LinkFault>
    ensures { result ≡ spec.result_of answer }
{
    match answer {
        Ok(Ok(said)) => Ok(said),
        Ok(Err(status)) => Err(LinkFault::Status(status)),
        Err(fault) => Err(fault_of(alloc, fault)),
    }
}

/// The count of refusals after a call.
fn refusals_after<T>(refused: u64, outcome: &Result<T, LinkFault>) -> u64
    ensures cause { HasLinkCause refused result outcome.now }
    ensures counts { result ≡ links.refusals_after outcome.now refused }
{
    match outcome {
        Ok(_) | Err(LinkFault::OutOfMemory) => refused,
        Err(_) => refused.saturating_add(1),
    }
}

impl<S: Source, K: Sink> WireLink<S, K> {
    /// Returns a link over which nothing was asked yet.
    pub fn new(alloc: Global, source: S, sink: K) -> WireLink<S, K>
        ensures source { result.source ≡ source }
        ensures sink { result.sink ≡ sink }
        ensures asked { result.asked ≡ None }
        ensures refused { result.refused ≡ 0 }
        ensures place { result.has_lost_place ≡ false }
    {
        WireLink {
            alloc,
            source,
            sink,
            payload: Payload::new(alloc),
            asked: None,
            refused: 0,
            has_lost_place: false,
        }
    }

    pub fn sink(&self) -> &K
        ensures { result.now ≡ self.now.sink }
    {
        &self.sink
    }

    /// Puts a request and reads its answer, where the link knows its place.
    fn ask(&mut self, headers: &Headers, request: &Request) -> Result<Started, WireFault>
        ensures asked { StartAsked (is_some self.old.asked) headers.now request.now
            (record {
              left = S.left self.old.source;
              held = K.held self.old.sink;
              reads_failed = S.failures self.old.source;
              puts_failed = K.failures self.old.sink;
            }) (record {
              left = S.left self.new.source;
              held = K.held self.new.sink;
              reads_failed = S.failures self.new.source;
              puts_failed = K.failures self.new.sink;
            }) result }
        ensures kind { self.new.asked
            ≡ asked_after result self.old.asked (answered_by request.now) }
        ensures refused { self.new.refused ≡ self.old.refused }
    {
        let Some(frame) = request_frame(self.alloc, headers.entries(), request)? else {
            return Err(WireFault::RequestTooLong);
        };
        let again = self.asked.is_some();
        self.asked = Some(request.response_kind());
        match self.sink.put(frame.as_slice()) {
            Ok(()) => {}
            Err(_) => return Err(WireFault::PutFault),
        }
        match read_start(self.alloc, &mut self.source, &mut self.payload, again) {
            Ok(answer) => Ok(answer),
            Err(e) => Err(WireFault::Unread(e)),
        }
    }

    /// Asks, unless the link has lost its place.
    fn ask_in_place(&mut self, headers: &Headers, request: &Request) -> Result<Started, WireFault>
        ensures asked { Placed self.old.has_lost_place
            (record {
              left = S.left self.old.source;
              held = K.held self.old.sink;
              reads_failed = S.failures self.old.source;
              puts_failed = K.failures self.old.sink;
            }) (record {
              left = S.left self.new.source;
              held = K.held self.new.sink;
              reads_failed = S.failures self.new.source;
              puts_failed = K.failures self.new.sink;
            }) result
            (StartAsked (is_some self.old.asked) headers.now request.now
            (record {
              left = S.left self.old.source;
              held = K.held self.old.sink;
              reads_failed = S.failures self.old.source;
              puts_failed = K.failures self.old.sink;
            }) (record {
              left = S.left self.new.source;
              held = K.held self.new.sink;
              reads_failed = S.failures self.new.source;
              puts_failed = K.failures self.new.sink;
            }) result) }
        ensures kind { self.new.asked
            ≡ asked_after result self.old.asked (answered_by request.now) }
        ensures refused { self.new.refused ≡ self.old.refused }
        ensures place { self.new.has_lost_place ≡ spec.loses_place result }
    {
        if self.has_lost_place {
            return Err(WireFault::LostPlace);
        }
        let answer = self.ask(headers, request);
        self.has_lost_place = loses_place(&answer);
        answer
    }

    /// Reads the next answer in the stream. Before the first start none is allowed.
    fn read_next(&mut self) -> Result<Streamed, FrameError>
        ensures read { IsStreamRead self.old.asked
            (record {
              left = S.left self.old.source;
              held = K.held self.old.sink;
              reads_failed = S.failures self.old.source;
              puts_failed = K.failures self.old.sink;
            }) (record {
              left = S.left self.new.source;
              held = K.held self.new.sink;
              reads_failed = S.failures self.new.source;
              puts_failed = K.failures self.new.sink;
            }) result }
        ensures kind { IfOk result
            (λ a. IfOk a (λ o. IfSome o (λ r. self.old.asked ≡ Some (kind_of r)))) }
        ensures asked { self.new.asked ≡ self.old.asked }
        ensures refused { self.new.refused ≡ self.old.refused }
    {
        match self.asked {
            None => Err(FrameError::BadFrame),
            Some(asked) => {
                read_in_stream(self.alloc, &mut self.source, &mut self.payload, asked)
            }
        }
    }

    /// Reads the next answer, unless the link has lost its place.
    fn read_in_place(&mut self) -> Result<Streamed, WireFault>
        ensures read { Placed self.old.has_lost_place
            (record {
              left = S.left self.old.source;
              held = K.held self.old.sink;
              reads_failed = S.failures self.old.source;
              puts_failed = K.failures self.old.sink;
            }) (record {
              left = S.left self.new.source;
              held = K.held self.new.sink;
              reads_failed = S.failures self.new.source;
              puts_failed = K.failures self.new.sink;
            }) result
            (NextRead self.old.asked
            (record {
              left = S.left self.old.source;
              held = K.held self.old.sink;
              reads_failed = S.failures self.old.source;
              puts_failed = K.failures self.old.sink;
            }) (record {
              left = S.left self.new.source;
              held = K.held self.new.sink;
              reads_failed = S.failures self.new.source;
              puts_failed = K.failures self.new.sink;
            }) result) }
        ensures kind { IfOk result
            (λ a. IfOk a (λ o. IfSome o (λ r. self.old.asked ≡ Some (kind_of r)))) }
        ensures asked { self.new.asked ≡ self.old.asked }
        ensures refused { self.new.refused ≡ self.old.refused }
        ensures place { self.new.has_lost_place ≡ spec.loses_place result }
    {
        if self.has_lost_place {
            return Err(WireFault::LostPlace);
        }
        let answer = match self.read_next() {
            Ok(answer) => Ok(answer),
            Err(e) => Err(WireFault::Unread(e)),
        };
        self.has_lost_place = loses_place(&answer);
        answer
    }
}

impl<S: Source, K: Sink> Link for WireLink<S, K> {
    ghost use Rattle.std.specs.Prelude.{None, is_some};
    ghost use Rattle.spf_link.specs.Wire.{IsStarted, IsNextResponse};

    ghost refusals = { λ l. l.refused };

    ghost starts = { λ _. None };

    ghost kind = { λ l. l.asked };

    ghost answers = { λ _. None };

    ghost start_gives = { λ old start result new.
        IsStarted (is_some old.asked) start.headers start.request
        (record {
          ports = record {
            left = S.left old.source;
            held = K.held old.sink;
            reads_failed = S.failures old.source;
            puts_failed = K.failures old.sink;
          };
          asked = old.asked;
          refused = old.refused;
          lost = old.has_lost_place;
        }) (record {
          ports = record {
            left = S.left new.source;
            held = K.held new.sink;
            reads_failed = S.failures new.source;
            puts_failed = K.failures new.sink;
          };
          asked = new.asked;
          refused = new.refused;
          lost = new.has_lost_place;
        }) result };

    ghost next_gives = { λ old result new.
        IsNextResponse
        (record {
          ports = record {
            left = S.left old.source;
            held = K.held old.sink;
            reads_failed = S.failures old.source;
            puts_failed = K.failures old.sink;
          };
          asked = old.asked;
          refused = old.refused;
          lost = old.has_lost_place;
        }) (record {
          ports = record {
            left = S.left new.source;
            held = K.held new.sink;
            reads_failed = S.failures new.source;
            puts_failed = K.failures new.sink;
          };
          asked = new.asked;
          refused = new.refused;
          lost = new.has_lost_place;
        }) result };

    fn start(&mut self, headers: &Headers, request: &Request) -> Result<(), LinkFault> {
        let asked = self.ask_in_place(headers, request);
        let outcome = result_of(self.alloc, asked);
        self.refused = refusals_after(self.refused, &outcome);
        outcome
    }

    fn next(&mut self) -> Result<Option<Response>, LinkFault> {
        let answer = self.read_in_place();
        let outcome = result_of(self.alloc, answer);
        self.refused = refusals_after(self.refused, &outcome);
        outcome
    }
}
