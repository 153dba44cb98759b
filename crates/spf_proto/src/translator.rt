//! A source that reads messages from another one, and gives the frames that they stand for.

ghost use Rattle.std.specs.Prelude.{◌≡◌, ◌≢◌, ◌≤◌, [], None, Some, false, true, drop, IfErr, OnErr};
ghost use Rattle.std.specs.Prelude.{OnOk};
ghost use Rattle.std.specs.Prelude.{length, take};
ghost use Rattle.std.specs.Io.KnownBytes.{IsAtEnd, Keeps};
ghost use Rattle.spf_io.specs.Outside.{HasCause};
ghost use Rattle.spf_proto.specs.Beginning.{Beginning};
ghost use Rattle.spf_proto.specs.Octets.{IsWhole};
ghost use Rattle.spf_proto.specs.Translator.{left_of, GivesReady, IsStopped, IsTranslator};
ghost use Rattle.spf_proto.specs.Ends.{IsReasonOf, IsEndedBy, IsResultOf, begun, error_of};
ghost use Rattle.spf_proto.specs.Ends.{result_of_end};
ghost use Rattle.std.specs.Prelude.{◌<◌, vec_len};
ghost use Rattle.std.specs.Option.{ForSome, option_map};
ghost use Rattle.spf_feed.specs.Items.{rules_with};

use crate::frame_end::FrameEnd;
use crate::incoming::Incoming;
use crate::latest::{Latest, translate};
use crate::lent::LentSource;
use crate::proto_error::ProtoError;
use crate::taking::{Progress, Stop, take_message};
use crate::translating::{Acceptance, Position};
use spf_feed::{FollowError, Sharing, SvidPicker};
use spf_io::{Failed, OutOfMemory, Source};
use spf_x509::X509Context;
use std::alloc::Global;
use std::marker::{Brand, Model, PhantomData};

/// What a call begins with, which only proofs see: each call picks it.
pub(crate) trait Origin {
    ghost begin: { Beginning };
}

impl Origin for Brand {
    ghost use Rattle.spf_proto.specs.Beginning.{no_beginning};

    ghost begin = { no_beginning };
}

/// The translating source. It fails where a message is bad, where there are too many messages,
/// where memory runs out and where its own source failed, and keeps the reason.
#[derive(Drop)]
pub(crate) struct Translator<'p, T: LentSource, C: SvidPicker, N: Origin> {
    source: T,
    alloc: Global,
    acceptance: Acceptance,
    picker: Option<&'p C>,
    got: Incoming,
    latest: Latest,
    at: usize,
    allowed: u32,
    position: Position,
    ended: bool,
    stop: Option<Stop>,
    failed: u64,
    of: PhantomData<N>,
}

impl<'p, T: LentSource, C: SvidPicker, N: Origin> Model for Translator<'p, T, C, N> {
    ghost use Rattle.std.specs.Prelude.{◌≡◌, ◌≤◌, ◌<◌, drop, vec_len, None};
    ghost use Rattle.std.specs.Option.{ForSome, option_map};
    ghost use Rattle.spf_feed.specs.Items.{rules_with};
    ghost use Rattle.spf_proto.specs.Translating.{IsKnown, standing};
    ghost use Rattle.spf_proto.specs.Translator.{Translating, IsTranslator};
    ghost use Rattle.spf_proto.specs.Latest.{IsLatest};

    ghost Value = { Translating T };

    ghost view = { λ s. record {
      source = s.source;
      ready = drop s.at s.latest.frames.items;
      got = s.got;
      allowed = s.allowed;
      standing = standing s.position;
      ended = s.ended;
      stop = s.stop;
      failures = s.failed;
    } };

    ghost invariant = { λ s. (s.at ≤ vec_len s.latest.frames)
        × (ForSome s.picker (λ p. C.can_pick p.now))
        × (N.begin.rules ≡ rules_with s.acceptance.limits None s.acceptance.ready
        (option_map (λ p. C.picks p.now) s.picker))
        × (N.begin.start ≡ s.acceptance.start)
        × IsTranslator T.loan T.left T.failures N.begin (record {
          source = s.source;
          ready = drop s.at s.latest.frames.items;
          got = s.got;
          allowed = s.allowed;
          standing = standing s.position;
          ended = s.ended;
          stop = s.stop;
          failures = s.failed;
        })
        × IsLatest (rules_with s.acceptance.limits None s.acceptance.ready
        (option_map (λ p. C.picks p.now) s.picker)) s.acceptance.start s.latest
        × IsKnown s.latest.read s.latest.frames.items };
}

impl<'p, T: LentSource, C: SvidPicker, N: Origin> Translator<'p, T, C, N> {
    /// A translation that has not begun: these octets are ready.
    pub(crate) fn new(
        alloc: Global,
        source: T,
        acceptance: Acceptance,
        picker: Option<&'p C>,
        allowed: u32,
        frames: Vec<u8>,
    ) -> Translator<'p, T, C, N>
        requires picker { ForSome picker (λ p. C.can_pick p.now) }
        requires begin { N.begin ≡ record {
          loan = T.loan source;
          left = T.left source;
          failures = T.failures source;
          rules = rules_with acceptance.limits None acceptance.ready
              (option_map (λ p. C.picks p.now) picker);
          start = acceptance.start;
          max = allowed;
        } }
        ensures begun { result ≡ begun source frames.items allowed }
    {
        Translator {
            source,
            alloc,
            acceptance,
            picker,
            got: Incoming::new(alloc),
            latest: Latest::none(alloc, frames),
            at: 0,
            allowed,
            position: Position {
                is_open: false,
                synced: false,
            },
            ended: false,
            stop: None,
            failed: 0,
            of: PhantomData,
        }
    }

    /// The source that was translated.
    pub(crate) fn into_source(self) -> T
        ensures source { result ≡ self.entry.source }
        ensures knows { IsTranslator T.loan T.left T.failures N.begin self.entry }
    {
        let Translator { source, .. } = self;
        source
    }

    /// Translates the message that has come.
    fn translate(&mut self) -> Result<(), Stop>
        requires whole { IsWhole self.old.got (drop 5 self.old.got) }
        requires head { 5 ≤ length self.old.got }
        requires allowed { self.old.allowed ≢ 0 }
        requires ready { self.old.ready ≡ [] }
        requires going { self.old.stop ≡ None }
        ensures left { Keeps (left_of T.left N.begin.rules N.begin.start self.old)
            (left_of T.left N.begin.rules N.begin.start self.new) }
        ensures going { self.new.stop ≡ None }
        ensures failures { self.new.failures ≡ self.old.failures }
        ensures ready { OnOk result (self.new.ready ≢ []) }
        ensures stopped { IfErr result
            (λ s. IsStopped T.left T.failures N.begin self.new (Some s)) }
    {
        let made = translate(
            self.alloc,
            self.acceptance,
            self.picker,
            self.position,
            &mut self.got,
            &mut self.latest,
        );
        self.at = self.latest.frames.len();
        match made {
            Ok(position) => {
                self.got.clear();
                self.at = 0;
                self.allowed -= 1;
                self.position = position;
                Ok(())
            }
            Err(stop) => Err(stop),
        }
    }

    /// Takes the next message and translates it, or finds that the source has ended.
    fn advance(&mut self) -> Result<(), Stop>
        requires ready { self.old.ready ≡ [] }
        requires going { self.old.stop ≡ None }
        requires unended { self.old.ended ≡ false }
        ensures left { Keeps (left_of T.left N.begin.rules N.begin.start self.old)
            (left_of T.left N.begin.rules N.begin.start self.new) }
        ensures going { self.new.stop ≡ None }
        ensures failures { self.new.failures ≡ self.old.failures }
        ensures ready { OnOk result (self.new.ready ≡ [] → self.new.ended ≡ true) }
        ensures at_end { OnOk result (self.new.ready ≡ []
            → IsAtEnd (left_of T.left N.begin.rules N.begin.start self.new)) }
        ensures stopped { IfErr result
            (λ s. IsStopped T.left T.failures N.begin self.new (Some s)) }
    {
        let taken = take_message(&mut self.source, &mut self.got, self.allowed);
        match taken {
            Ok(Progress::More) => unreachable!(),
            Ok(Progress::End) => {
                self.ended = true;
                Ok(())
            }
            Ok(Progress::Whole) => self.translate(),
            Err(stop) => Err(stop),
        }
    }

    /// Makes octets ready, unless some are or the source has ended.
    fn prepare(&mut self) -> Result<(), Failed>
        ensures left { Keeps (left_of T.left N.begin.rules N.begin.start self.old)
            (left_of T.left N.begin.rules N.begin.start self.new) }
        ensures cause { HasCause self.old.failures self.new.failures result }
        ensures ready { OnOk result (self.new.ready ≡ [] → self.new.ended ≡ true) }
        ensures at_end { OnOk result (self.new.ready ≡ []
            → IsAtEnd (left_of T.left N.begin.rules N.begin.start self.new)) }
        ensures stopped { OnErr result (self.new.stop ≢ None) }
    {
        if self.at < self.latest.frames.len() {
            return Ok(());
        }
        if self.ended {
            return Ok(());
        }
        if self.stop.is_some() {
            self.failed = self.failed.saturating_add(1);
            return Err(Failed);
        }
        match self.advance() {
            Ok(()) => Ok(()),
            Err(stop) => {
                self.stop = Some(stop);
                self.failed = self.failed.saturating_add(1);
                Err(Failed)
            }
        }
    }

    /// Copies what is ready and fits into `buf`, and returns its length.
    fn give(&mut self, buf: &mut [u8]) -> usize
        ensures room { result ≤ length buf.new }
        ensures given { GivesReady self.old self.new (take result buf.new) (length buf.new) }
    {
        let n = buf.len().min(self.latest.frames.len() - self.at);
        buf[..n].copy_from_slice(&self.latest.frames[self.at..self.at + n]);
        self.at += n;
        n
    }

    /// Why the translation stopped.
    fn reason(&self) -> Stop
        ensures { IsReasonOf T.left T.failures N.begin self.now result }
    {
        match self.stop {
            Some(stop) => stop,
            None => Stop::OutOfMemory,
        }
    }

    /// The error of a reason: a bad message has the number after those that were translated.
    fn error(&self, stop: Stop, max: u32) -> ProtoError
        requires max { max ≡ N.begin.max }
        ensures { result ≡ error_of max self.now.allowed stop }
    {
        match stop {
            Stop::BadMessage => ProtoError::BadMessage {
                message: max.saturating_sub(self.allowed) as u64 + 1,
            },
            Stop::TooManyMessages => ProtoError::TooManyMessages,
            Stop::SourceFailed => ProtoError::Follow(FollowError::ReadFault),
            Stop::OutOfMemory => ProtoError::Follow(FollowError::OutOfMemory),
        }
    }

    /// Returns `end` where the source has ended and all is handed out, and otherwise why not.
    fn ended(&mut self, end: FrameEnd, max: u32) -> Result<u64, ProtoError>
        requires max { max ≡ N.begin.max }
        ensures { IsEndedBy T.left T.failures N.begin
            (left_of T.left N.begin.rules N.begin.start self.old) self.new (result_of_end end)
            result }
    {
        match self.prepare() {
            Ok(()) => end.result(),
            Err(Failed) => Err(self.error(self.reason(), max)),
        }
    }

    /// How following the body ended, where following the frames ended like this.
    pub(crate) fn result_of(&mut self, end: FrameEnd, max: u32) -> Result<u64, ProtoError>
        requires max { max ≡ N.begin.max }
        ensures { IsResultOf T.left T.failures N.begin
            (left_of T.left N.begin.rules N.begin.start self.old) self.new end result }
    {
        match end {
            FrameEnd::Whole(count) => self.ended(FrameEnd::Whole(count), max),
            FrameEnd::NeverSynced => self.ended(FrameEnd::NeverSynced, max),
            FrameEnd::ReadFault => Err(self.error(self.reason(), max)),
            FrameEnd::WriteFault => Err(ProtoError::Follow(FollowError::WriteFault)),
            FrameEnd::OutOfMemory => Err(ProtoError::Follow(FollowError::OutOfMemory)),
        }
    }
}

impl<'p, T: LentSource, C: SvidPicker, N: Origin> Source for Translator<'p, T, C, N> {
    ghost use Rattle.spf_proto.specs.Translator.{left_of};

    ghost left = { λ t. left_of T.left N.begin.rules N.begin.start t };

    ghost failures = { λ t. t.failures };

    fn read(&mut self, buf: &mut [u8]) -> Result<usize, Failed> {
        self.prepare()?;
        Ok(self.give(buf))
    }
}

/// What a translator knows of its frames: the context of the item that it made last.
pub(crate) struct LastItem;

impl<'p, T: LentSource, C: SvidPicker, N: Origin> Sharing<Translator<'p, T, C, N>> for LastItem {
    fn context<'a>(source: &'a Translator<'p, T, C, N>, payload: &[u8]) -> Option<&'a X509Context> {
        source.latest.known(payload)
    }
}
