//! The options of a live run.

ghost use Rattle.std.specs.Prelude.{◌≡◌, ◌≤◌, map, string_bytes};
ghost use Rattle.std.specs.Option.{ForSome};
ghost use Rattle.spf_program.specs.Live.{limits_in, live_names, live_setting};
ghost use Rattle.spf_program.specs.Pairs.{are_pairs, is_one_of};

use crate::pairs::are_pairs;
use crate::value::{count_option, limit_option, ready_option, seconds_option, text_option};
use spf_feed::{Ready, ResourceLimits};
use std::marker::Model;

/// What the arguments of a live run set.
#[derive(Drop)]
pub struct LiveOptions<'a> {
    pub limits: ResourceLimits,
    /// The hint of the SVID to take.
    pub hint: Option<&'a str>,
    /// What the first update must hold.
    pub ready: Ready,
    /// The seconds that the initial synchronisation may take.
    pub timeout: Option<u64>,
    /// How many lines to print.
    pub lines: u64,
}

impl<'a> Model for LiveOptions<'a> {
    ghost use Rattle.std.specs.Option.{option_copied};
    ghost use Rattle.spf_program.specs.Live.{LiveSetting};

    ghost Value = { LiveSetting };

    ghost view = { λ o. record {
      limits = o.limits;
      hint = option_copied o.hint;
      ready = o.ready;
      timeout = o.timeout;
      lines = o.lines;
    } };
}

/// Whether the arguments are pairs of an option and its value.
#[tactic(auto, unfolding(crate::specs::Live::live_names))]
fn are_options(arguments: &[String]) -> bool
    ensures { result ≡ are_pairs (is_one_of live_names) (map string_bytes arguments.now) }
{
    are_pairs(
        arguments,
        &[
            "--hint",
            "--max-svids",
            "--max-bundles",
            "--max-bundle-bytes",
            "--max-crl-bytes",
            "--ready",
            "--timeout",
            "--lines",
        ],
    )
}

/// The limits that the arguments set.
#[tactic(auto, unfolding(crate::specs::Live::limits_in))]
fn limits_of(arguments: &[String]) -> Option<ResourceLimits>
    ensures { result ≡ limits_in (map string_bytes arguments.now) }
{
    let default = ResourceLimits::default_limits();
    Some(ResourceLimits::new(
        limit_option(arguments, "--max-svids", default.max_svids)?,
        limit_option(arguments, "--max-bundles", default.max_bundles)?,
        limit_option(
            arguments,
            "--max-bundle-bytes",
            default.max_bundle_der_bytes,
        )?,
        limit_option(arguments, "--max-crl-bytes", default.max_crl_bytes)?,
    ))
}

/// Returns what the arguments of a live run set; `None` where they are not those of one.
#[tactic(auto, unfolding(crate::specs::Live::live_setting))]
pub fn live_options(arguments: &[String]) -> Option<LiveOptions<'_>>
    ensures setting { result ≡ live_setting (map string_bytes arguments.now) }
    ensures lines { ForSome result (λ o. 1 ≤ o.lines) }
{
    if !are_options(arguments) {
        return None;
    }
    Some(LiveOptions {
        limits: limits_of(arguments)?,
        hint: text_option(arguments, "--hint")?,
        ready: ready_option(arguments, "--ready", Ready::Usable)?,
        timeout: seconds_option(arguments, "--timeout")?,
        lines: count_option(arguments, "--lines", 1)?,
    })
}
