//! The options at the head of some words, each with its value.

ghost use Rattle.std.specs.Prelude.{◌≡◌, length, map, string_bytes, MatchOption, true, false, bytes_eq};
ghost use Rattle.std.specs.List.{list_any};
ghost use Rattle.std.specs.Option.{option_copied};
ghost use Rattle.cl_words.specs.Settings.{Begins, SetsNothing, is_option, is_argument, is_equals, cut, settings, others, value_of, is_known, are_sound};

/// The options that a run knows.
const OPTIONS: [&str; 1] = ["--journal"];

/// Whether a word is an option: it begins with `-`.
fn is_option(word: &str) -> bool
    ensures { result ≡ is_option word.now }
{
    match word.as_bytes() {
        [first, ..] => *first == b'-',
        [] => false,
    }
}

/// Whether a word can stand for a path or a value: it isn't empty and is no option.
pub fn is_argument(word: &str) -> bool
    ensures { result ≡ is_argument word.now }
{
    !word.is_empty() && !is_option(word)
}

/// An option with its value, and the words behind them.
#[derive(Clone, Copy)]
struct Setting<'a> {
    name: &'a str,
    value: &'a str,
    rest: &'a [String],
}

/// An option and its value in one word.
fn cut(word: &str) -> Option<(&str, &str)>
    ensures { MatchOption result (list_any is_equals word.now ≡ false) (λ r. (list_any is_equals word.now ≡ true) × (cut word.now ≡ record { name = r.0.now; value = r.1.now })) }
{
    word.split_once('=')
}

/// The setting with which the words begin.
fn first_setting(words: &[String]) -> Option<Setting<'_>>
    ensures { MatchOption result (SetsNothing (map string_bytes words.now)) (λ first. Begins (map string_bytes words.now) first.name.now first.value.now (map string_bytes first.rest.now)) }
{
    let [word, rest @ ..] = words else {
        return None;
    };
    let word = word.as_str();
    if !is_option(word) {
        return None;
    }
    if let Some((name, value)) = cut(word) {
        return Some(Setting { name, value, rest });
    }
    match rest {
        [value, rest @ ..] => Some(Setting {
            name: word,
            value: value.as_str(),
            rest,
        }),
        [] => None,
    }
}

/// The words behind the settings.
pub fn others(mut words: &[String]) -> &[String]
    ensures { map string_bytes result.now ≡ others (map string_bytes words.entry.now) }
{
    while let Some(first) = first_setting(words) {
        words = first.rest;
    }
    words
}

/// The value that the words give an option, where they set it.
pub fn value_of<'a>(mut words: &'a [String], name: &str) -> Option<&'a str>
    ensures { option_copied result ≡ value_of name.now (settings (map string_bytes words.entry.now)) }
{
    while let Some(first) = first_setting(words) {
        if first.name == name {
            return Some(first.value);
        }
        words = first.rest;
    }
    None
}

/// Whether an option is known.
fn is_known(name: &str) -> bool
    ensures { result ≡ is_known name.now }
{
    OPTIONS.iter().any(|option| name == *option)
}

/// Whether each option is known and has a value, and none is set twice.
pub fn are_sound(mut words: &[String]) -> bool
    ensures { result ≡ are_sound (settings (map string_bytes words.entry.now)) }
{
    while let Some(first) = first_setting(words) {
        let is_new = value_of(first.rest, first.name).is_none();
        if !is_known(first.name) || !is_argument(first.value) || !is_new {
            return false;
        }
        words = first.rest;
    }
    true
}
