//! What `clap` found under an id, and whether it found anything else.

ghost use Rattle.std.specs.Prelude.{◌≡◌, map, option_map};
ghost use Rattle.clap.specs.Words.{first_of, found_of, rows_of};
ghost use Rattle.clap.specs.Takes.{is_given};
ghost use Rattle.command_words.specs.Words.{number_at, is_among, may_stand, has_only};

use clap::ArgMatches;
use clap::parser::ValueSource;

/// The text under the id.
pub(crate) fn text_at<'a>(matches: &ArgMatches<'a>, id: &str) -> Option<&'a str>
    ensures { option_map (λ text. text.now) result ≡ first_of id.now (rows_of (found_of matches.now)) }
{
    matches.get_str(id)
}

/// The number under the id.
pub(crate) fn number_at(matches: &ArgMatches, id: &str) -> Option<u64>
    ensures { result ≡ number_at id.now (rows_of (found_of matches.now)) }
{
    matches.get_one::<u64>(id)
}

/// Whether the words give the argument. A flag that they don't give has a value too.
pub(crate) fn is_given(matches: &ArgMatches, id: &str) -> bool
    ensures { result ≡ is_given id.now (rows_of (found_of matches.now)) }
{
    if !matches.contains_id(id) {
        return false;
    }
    match matches.value_source(id) {
        Some(ValueSource::DefaultValue) => false,
        Some(ValueSource::CommandLine) => true,
        None => true,
    }
}

fn is_among(ids: &[&str], id: &str) -> bool
    ensures { result ≡ is_among (map (λ one. one.now) ids.now) id.now }
{
    ids.contains(&id)
}

fn may_stand(matches: &ArgMatches, ids: &[&str], id: &str) -> bool
    ensures { result ≡ may_stand (map (λ one. one.now) ids.now) (rows_of (found_of matches.now)) id.now }
{
    id == "command" || is_among(ids, id) || !is_given(matches, id)
}

/// Whether the words give no argument but the command's word and these.
pub(crate) fn has_only(matches: &ArgMatches, ids: &[&str]) -> bool
    ensures { result ≡ has_only (map (λ one. one.now) ids.now) (rows_of (found_of matches.now)) }
{
    for id in matches.ids() {
        if !may_stand(matches, ids, id) {
            return false;
        }
    }
    true
}
