ghost use Rattle.std.specs.Prelude.{◌≡◌, ◌++◌, true, IfOk, codes, drop, map, option_map};
ghost use Rattle.std.specs.List.{list_all, list_any};
ghost use Rattle.clap.specs.Words.{app_of, found_of, is_simple_and_free, rows_of, rule_of};
ghost use Rattle.ks_words.specs.Words.{behind, is_dashed, is_open, is_value, names_option, rows_read};

use clap::error::ErrorKind;
use clap::{Arg, ArgMatches, Command};
use ks_base::Memory;

/// What a command finds in the words, the first of which is its name; `None` where it does not take them.
pub(crate) fn parsed<'a>(
    command: Command<'a>,
    words: &'a [&'a str],
) -> Result<Option<ArgMatches<'a>>, Memory>
    requires { is_simple_and_free (app_of command) ≡ true }
    ensures { IfOk result (λ found. option_map (λ matches. rows_of (found_of matches)) found
        ≡ rows_read (app_of command.entry) (map (λ word. word.now) words.entry.now)) }
{
    if !are_open(command.get_arguments(), words) {
        return Ok(None);
    }
    match command.try_get_matches_from(words) {
        Ok(matches) => Ok(Some(matches)),
        Err(error) => match error.kind() {
            ErrorKind::OutOfMemory => Err(Memory),
            _ => Ok(None),
        },
    }
}

/// Whether each word behind the name may go to clap.
fn are_open(arguments: &[Arg<'_>], words: &[&str]) -> bool
    ensures { result ≡ list_all (λ word. is_open (map rule_of arguments.now) word.now) (drop 1 words.now) }
{
    words
        .iter()
        .skip(1)
        .all(|word| is_open(arguments, word.as_bytes()))
}

/// Whether the word does not begin with `-`, or names an option of the command.
#[tactic(auto, using(crate::proofs::FrontLemmas::rules_name_option), unfolding(crate::specs::Words::is_open))]
fn is_open(arguments: &[Arg<'_>], word: &[u8]) -> bool
    ensures { result ≡ is_open (map rule_of arguments.now) word.now }
{
    !is_dashed(word) || name_option(arguments, word)
}

fn is_dashed(word: &[u8]) -> bool
    ensures { result ≡ is_dashed word.now }
{
    matches!(word, [b'-', ..])
}

fn name_option(arguments: &[Arg<'_>], word: &[u8]) -> bool
    ensures { result ≡ list_any (λ argument. names_option word.now (rule_of argument)) arguments.now }
{
    arguments
        .iter()
        .any(|argument| names_option(word, argument))
}

/// Whether the word is `--name`, or begins with `--name=`, for the argument's long name.
#[tactic(auto, unfolding(crate::specs::Words::names_option))]
pub(crate) fn names_option(word: &[u8], argument: &Arg<'_>) -> bool
    ensures { result ≡ names_option word.now (rule_of argument.now) }
{
    match argument.get_long() {
        Some(name) => is_value(behind_name(word, name.as_bytes())),
        None => false,
    }
}

/// Whether nothing follows, or what follows begins with `=`.
fn is_value(rest: Option<&[u8]>) -> bool
    ensures { result ≡ is_value (option_map (λ text. text.now) rest.entry) }
{
    match rest {
        Some([]) => true,
        Some([first, ..]) => *first == b'=',
        None => false,
    }
}

/// What follows `--name` in a word that begins with it.
#[tactic(auto, using(crate::proofs::FrontLemmas::behind_dashes))]
fn behind_name<'a>(word: &'a [u8], name: &[u8]) -> Option<&'a [u8]>
    ensures { option_map (λ rest. rest.now) result ≡ behind (codes "--" ++ name.now) word.entry.now }
{
    let Some(rest) = behind(word, b"--") else {
        return None;
    };
    behind(rest, name)
}

/// What follows the front in a text that begins with it.
fn behind<'a>(text: &'a [u8], front: &[u8]) -> Option<&'a [u8]>
    ensures { option_map (λ rest. rest.now) result ≡ behind front.now text.entry.now }
{
    text.strip_prefix(front)
}
