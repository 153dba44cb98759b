//! A link, over which requests are answered.

ghost use Rattle.std.specs.Prelude.{◌≡◌, ℕ, List, Option, Some, IfOk, IfSome};
ghost use Rattle.spf_api.specs.declared.response.ResponseKind.{ResponseKind};
ghost use Rattle.spf_api.specs.Payload.{kind_of};
ghost use Rattle.spf_link.specs.Request.{answered_by};
ghost use Rattle.spf_link.specs.Links.{Started, Answered, HasLinkCause, StartAppends, Takes};
ghost use Rattle.spf_link.specs.Links.{started_by, next_by};
ghost use Rattle.spf_link.specs.declared.answer.Answer.{Answer};
ghost use Rattle.spf_link.specs.declared.request.Start.{Start};

use crate::headers::Headers;
use crate::request::Request;
use spf_api::{LinkFault, Response};

/// A connection that carries one request after another. It counts how often it refused a call.
pub trait Link {
    // How often the link has refused, out of memory aside.
    ghost refusals: { Self → ℕ };
    // The headers and request of each `start`, oldest first, where the link says so.
    ghost starts: { Self → Option (List Start) };
    // The kind of the responses to the request that was started last, where one was.
    ghost kind: { Self → Option ResponseKind };
    // The answers to come, where they are known.
    ghost answers: { Self → Option (List Answer) };
    // What a `start` may return, and what link it may leave.
    ghost start_gives: { Self → Start → Started → Self → Type 0 } = { λ _ _ _ _. Unit {0} };
    // What a `next` may return, and what link it may leave.
    ghost next_gives: { Self → Answered → Self → Type 0 } = { λ _ _ _. Unit {0} };

    /// Begins a request, which ends the one before.
    fn start(&mut self, headers: &Headers, request: &Request) -> Result<(), LinkFault>
        ensures gives { start_gives self.old
            (record { headers = headers.now; request = request.now }) result self.new }
        ensures cause { HasLinkCause (refusals self.old) (refusals self.new) result }
        ensures starts { StartAppends (starts self.old) (starts self.new) result
            (record { headers = headers.now; request = request.now }) }
        ensures kind { IfOk result (λ _. kind self.new ≡ Some (answered_by request.now)) }
        ensures answers { Takes (answers self.old) (answers self.new) started_by result };

    /// Returns the next response to the request, or None at the end of the stream.
    fn next(&mut self) -> Result<Option<Response>, LinkFault>
        ensures gives { next_gives self.old result self.new }
        ensures cause { HasLinkCause (refusals self.old) (refusals self.new) result }
        ensures starts { starts self.new ≡ starts self.old }
        ensures kind { IfOk result (λ o. IfSome o (λ r. kind self.old ≡ Some (kind_of r))) }
        ensures same_kind { kind self.new ≡ kind self.old }
        ensures answers { Takes (answers self.old) (answers self.new) (next_by (kind self.old))
            result };
}
