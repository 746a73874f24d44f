ghost use Rattle.std.specs.Prelude.{◌≡◌, map};
ghost use Rattle.std.specs.List.{list_all};
ghost use Rattle.std.specs.Option.{option_map};
ghost use Rattle.mig_base.specs.Names.{is_name as name_form};
ghost use Rattle.sim_run.specs.ScriptText as spec;

use mig_base::Name;
use text_lines::is;

/// Whether these are the words of the first line.
pub(crate) fn is_head(words: &[&[u8]]) -> bool
    ensures { result ≡ spec.is_head (map (λ w. w.now) words.now) }
{
    match words {
        [first, version] => is(first, b"script") && is(version, b"1"),
        _ => false,
    }
}

/// The names on a `ports` line.
pub(crate) fn names_on<'a>(words: &'a [&'a [u8]]) -> Option<&'a [&'a [u8]]>
    ensures { option_map (λ names. map (λ w. w.now) names.now) result ≡ spec.names_on (map (λ w. w.now) words.now) }
{
    match words {
        [first, names @ ..] => (is(first, b"ports") && are_names(names)).then_some(names),
        [] => None,
    }
}

/// Whether all words are names.
fn are_names(words: &[&[u8]]) -> bool
    ensures { result ≡ list_all name_form (map (λ w. w.now) words.now) }
{
    all_are_names(words)
}

fn all_are_names(words: &[&[u8]]) -> bool
    ensures { result ≡ list_all (λ w. name_form w.now) words.now }
{
    words.iter().all(|word| is_name(word))
}

fn is_name(word: &[u8]) -> bool
    ensures { result ≡ name_form word.now }
{
    Name::new(word).is_some()
}

/// The characters of the levels on a `step` line; none where it is `step` alone.
pub(crate) fn levels_on<'a>(words: &'a [&'a [u8]]) -> Option<&'a [u8]>
    ensures { option_map (λ levels. levels.now) result ≡ spec.levels_on (map (λ w. w.now) words.now) }
{
    match words {
        [first] => is(first, b"step").then_some(&[]),
        [first, levels] => is(first, b"step").then_some(levels),
        _ => None,
    }
}

/// Whether this is the last line.
pub(crate) fn is_end(words: &[&[u8]]) -> bool
    ensures { result ≡ spec.is_end (map (λ w. w.now) words.now) }
{
    match words {
        [first] => is(first, b"end"),
        _ => false,
    }
}
