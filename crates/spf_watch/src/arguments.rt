//! The arguments of the command line.

ghost use Rattle.std.specs.Prelude.{◌≡◌, map, string_bytes};
ghost use Rattle.spf_program.specs.Pairs.{are_pairs, is_one_of, option_in};
ghost use Rattle.spf_watch.specs.Arguments.{
  command_in,
  make_arguments_in,
  x509_setting,
  jwt_setting,
  not_there,
  option_names,
};

use spf_feed::{Ready, ResourceLimits};
use spf_jwt::JwtResourceLimits;
use spf_program::{
    are_pairs, limit_option, moment_option, number_option, number_up_to, ready_option, text_option,
    value_of,
};
use std::marker::Model;

/// The default of `--max-frames`.
pub(crate) const DEFAULT_MAX_FRAMES: u64 = 1_000_000;

/// The maximum number of operations of a generated session.
const MAX_OPERATIONS: u64 = 10_000;

/// The maximum seed of a generated session.
const MAX_SEED: u64 = 65_535;

/// What the arguments ask for.
#[derive(Drop)]
pub(crate) enum Command<'a> {
    X509(X509Arguments<'a>),
    Jwt(JwtArguments),
    Make(MakeArguments),
    Bench(MakeArguments),
}

/// The settings of a session of X.509 updates.
#[derive(Drop)]
pub(crate) struct X509Arguments<'a> {
    pub(crate) limits: ResourceLimits,
    pub(crate) deadline: Option<i64>,
    pub(crate) max_frames: u64,
    pub(crate) hint: Option<&'a str>,
    pub(crate) ready: Ready,
}

impl<'a> Model for X509Arguments<'a> {
    ghost use Rattle.spf_watch.specs.Setting.{Setting};

    ghost Value = { Setting };

    ghost use Rattle.std.specs.Option.{option_copied};

    ghost view = { λ w. record {
      limits = w.limits;
      deadline = w.deadline;
      max_frames = w.max_frames;
      hint = option_copied w.hint;
      ready = w.ready;
    } };
}

/// The settings of a session of JWT bundles.
#[derive(Clone, Copy)]
pub(crate) struct JwtArguments {
    pub(crate) limits: JwtResourceLimits,
    pub(crate) deadline: Option<i64>,
    pub(crate) max_frames: u64,
}

/// The arguments of `make` and `bench`: the size and the seed of a generated session.
#[derive(Clone, Copy)]
pub(crate) struct MakeArguments {
    pub(crate) operations: u16,
    pub(crate) seed: u16,
}

/// What the arguments ask for; `None` where they are not those of the program.
#[tactic(auto, unfolding(crate::specs::Arguments::command_in))]
pub(crate) fn parse_command(arguments: &[String]) -> Option<Command<'_>>
    ensures { result ≡ command_in (map string_bytes arguments.now) }
{
    let [first, rest @ ..] = arguments else {
        return None;
    };
    match first.as_str() {
        "x509" => Some(Command::X509(x509_arguments(rest)?)),
        "jwt" => Some(Command::Jwt(jwt_arguments(rest)?)),
        "make" => Some(Command::Make(make_arguments(rest)?)),
        "bench" => Some(Command::Bench(make_arguments(rest)?)),
        _ => None,
    }
}

/// The arguments of `make` and `bench`.
#[tactic(auto, unfolding(crate::specs::Arguments::make_arguments_in))]
fn make_arguments(arguments: &[String]) -> Option<MakeArguments>
    ensures { result ≡ make_arguments_in (map string_bytes arguments.now) }
{
    let [operations, seed] = arguments else {
        return None;
    };
    Some(MakeArguments {
        operations: number_up_to(MAX_OPERATIONS, operations.as_str())? as u16,
        seed: number_up_to(MAX_SEED, seed.as_str())? as u16,
    })
}

/// The setting of a session, each of whose options comes at most once.
#[tactic(auto, unfolding(crate::specs::Arguments::x509_setting))]
fn x509_arguments(arguments: &[String]) -> Option<X509Arguments<'_>>
    ensures { result ≡ x509_setting (map string_bytes arguments.now) }
{
    if !are_options(arguments) {
        return None;
    }
    let limits = ResourceLimits::default_limits();
    Some(X509Arguments {
        limits: ResourceLimits::new(
            limit_option(arguments, "--max-svids", limits.max_svids)?,
            limit_option(arguments, "--max-bundles", limits.max_bundles)?,
            limit_option(arguments, "--max-bundle-bytes", limits.max_bundle_der_bytes)?,
            limit_option(arguments, "--max-crl-bytes", limits.max_crl_bytes)?,
        ),
        deadline: moment_option(arguments, "--deadline")?,
        max_frames: number_option(arguments, "--max-frames", DEFAULT_MAX_FRAMES)?,
        hint: text_option(arguments, "--hint")?,
        ready: ready_option(arguments, "--ready", Ready::Usable)?,
    })
}

/// The setting of a session of JWT bundles, each of whose options comes at most once.
#[tactic(auto, unfolding(crate::specs::Arguments::jwt_setting))]
fn jwt_arguments(arguments: &[String]) -> Option<JwtArguments>
    ensures { result ≡ jwt_setting (map string_bytes arguments.now) }
{
    if !are_options(arguments) {
        return None;
    }
    no_option(arguments, "--max-svids")?;
    no_option(arguments, "--max-crl-bytes")?;
    no_option(arguments, "--hint")?;
    no_option(arguments, "--ready")?;
    let limits = JwtResourceLimits::default_limits();
    Some(JwtArguments {
        limits: JwtResourceLimits::new(
            limit_option(arguments, "--max-bundles", limits.max_bundles)?,
            limit_option(
                arguments,
                "--max-bundle-bytes",
                limits.max_bundle_jwks_bytes,
            )?,
        ),
        deadline: moment_option(arguments, "--deadline")?,
        max_frames: number_option(arguments, "--max-frames", DEFAULT_MAX_FRAMES)?,
    })
}

/// `None` where an option of `x509` alone is set.
#[tactic(auto, unfolding(spf_program::specs::Pairs::option_in))]
fn no_option(arguments: &[String], option: &str) -> Option<()>
    ensures { result ≡ option_in not_there tt option.now (map string_bytes arguments.now) }
{
    match value_of(arguments, option)? {
        None => Some(()),
        Some(_) => None,
    }
}

/// Whether the arguments are pairs of an option and its value.
#[tactic(auto, unfolding(crate::specs::Arguments::option_names))]
fn are_options(arguments: &[String]) -> bool
    ensures { result ≡ are_pairs (is_one_of option_names) (map string_bytes arguments.now) }
{
    are_pairs(
        arguments,
        &[
            "--max-svids",
            "--max-bundles",
            "--max-bundle-bytes",
            "--max-crl-bytes",
            "--deadline",
            "--max-frames",
            "--hint",
            "--ready",
        ],
    )
}
