//! What settings say (RFC 9113, sections 6.5.1 and 6.5.2).

ghost use Rattle.std.specs.Prelude.{◌≡◌, ◌<◌, IfSome, length};
ghost use Rattle.std.specs.Option.{option_map};
ghost use Rattle.spf_http2.specs.Settings as spec;
ghost use Rattle.spf_http2.specs.Settings.{setting_at, window_after};

const ENABLE_PUSH: u16 = 2;

const INITIAL_WINDOW_SIZE: u16 = 4;

const MAX_FRAME_SIZE: u16 = 5;

/// A setting: its identifier and its value.
#[derive(Clone, Copy)]
struct Setting {
    identifier: u16,
    value: u32,
}

/// Whether a setting may have its value, where an initial window of at most `most` is allowed.
fn is_allowed(setting: &Setting, most: u32) -> bool
    ensures { result ≡ spec.is_allowed most setting.now }
{
    let value = setting.value;
    match setting.identifier {
        ENABLE_PUSH => value == 0,
        INITIAL_WINDOW_SIZE => value <= most,
        MAX_FRAME_SIZE => 1 << 14 <= value && value < 1 << 24,
        _ => true,
    }
}

/// INITIAL_WINDOW_SIZE after a setting.
fn window_with(setting: &Setting, initial: u32) -> u32
    ensures { result ≡ spec.window_with setting.now initial }
{
    if setting.identifier == INITIAL_WINDOW_SIZE {
        setting.value
    } else {
        initial
    }
}

/// The first setting of a payload, and those behind it.
fn first_setting(pairs: &[u8]) -> Option<(Setting, &[u8])>
    ensures exact { option_map (λ x. (x.0, x.1.now)) result ≡ setting_at pairs.now }
    ensures shorter { IfSome result (λ x. length x.1.now < length pairs.now) }
{
    match pairs {
        [a, b, c, d, e, f, rest @ ..] => Some((
            Setting {
                identifier: u16::from_be_bytes([*a, *b]),
                value: u32::from_be_bytes([*c, *d, *e, *f]),
            },
            rest,
        )),
        _ => None,
    }
}

/// Returns INITIAL_WINDOW_SIZE after the settings of a payload, in order, where it was `initial`
/// before. None is a connection error: a value that is not allowed, or an initial window above
/// `most`.
pub fn initial_window(pairs: &[u8], initial: u32, most: u32) -> Option<u32>
    ensures { result ≡ window_after initial most pairs.now }
{
    let mut initial = initial;
    let mut pairs = pairs;
    while let Some((setting, rest)) = first_setting(pairs) {
        if !is_allowed(&setting, most) {
            return None;
        }
        initial = window_with(&setting, initial);
        pairs = rest;
    }
    Some(initial)
}
