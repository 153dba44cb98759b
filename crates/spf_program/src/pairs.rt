//! Pairs of a name and a value.

ghost use Rattle.std.specs.Prelude.{◌≡◌, map, string_bytes};
ghost use Rattle.std.specs.Option.{option_map, option_copied};
ghost use Rattle.spf_program.specs.Pairs.{at_most_one, values_of};
ghost use Rattle.spf_program.specs.Pairs as spec;

/// Returns the value that pairs give to an option, if any; `None` where they give several.
pub fn value_of<'a>(arguments: &'a [String], option: &str) -> Option<Option<&'a str>>
    ensures { option_map option_copied result
        ≡ at_most_one (values_of option.now (map string_bytes arguments.now)) }
{
    let mut found = None;
    let mut rest = arguments;
    while let [name, value, after @ ..] = rest {
        if name.as_str() == option {
            if found.is_some() {
                return None;
            }
            found = Some(value.as_str());
        }
        rest = after;
    }
    Some(found)
}

/// Whether a text is one of these names.
fn is_one_of(names: &[&str], text: &str) -> bool
    ensures { result ≡ spec.is_one_of (map (λ n. n.now) names.now) text.now }
{
    (&*names).contains(&text)
}

/// Whether the arguments are pairs of one of these names and its value.
pub fn are_pairs(arguments: &[String], names: &[&str]) -> bool
    ensures { result ≡ spec.are_pairs (spec.is_one_of (map (λ n. n.now) names.now))
        (map string_bytes arguments.now) }
{
    let mut rest = arguments;
    while let [name, _, after @ ..] = rest {
        if !is_one_of(names, name.as_str()) {
            return false;
        }
        rest = after;
    }
    rest.is_empty()
}
