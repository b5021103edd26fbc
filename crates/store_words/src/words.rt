//! Words as a command.
ghost use Rattle.std.specs.Prelude.{◌≡◌, ◌∷◌, IfOk, IfErr, List, ℕ, MatchResult, Err, true, option_map};
ghost use Rattle.std.specs.List.{list_all};
ghost use Rattle.clap.specs.Words.{kind_of, subcommand_rows_of};
ghost use Rattle.store_words.specs.ClapCommands.{fits_count, kept_of, some_words};
ghost use Rattle.store_words.specs.Grammar.{Spell, Text, is_plain, texts};
ghost use Rattle.store_words.specs.Reading.{IsTaken, words_of};
ghost use Rattle.store_words.specs.Verbs.{name_of};
ghost use Rattle.store_words.specs.declared.plan.Plan.{Plan};
ghost use Rattle.store_words.specs.declared.verb.Verb.{Verb};

use crate::command::program;
use crate::fault::WordsFault;
use crate::plan::Plan;
use crate::reading::read;
use crate::verb::Verb;
use clap::error::ErrorKind;
use clap::{ArgMatches, Error};
use std::alloc::Global;

/// Whether the word is not empty and does not begin with `-`.
fn is_plain(word: &[u8]) -> bool
    ensures { result ≡ is_plain word.now }
{
    match word {
        [] => false,
        [first, ..] => *first != b'-',
    }
}

fn are_plain(words: &[String]) -> bool
    ensures { result ≡ list_all is_plain (texts words.now) }
{
    for word in words {
        if !is_plain(word.as_bytes()) {
            return false;
        }
    }
    true
}

fn fault_of(error: &Error) -> WordsFault
    ensures { kind_of error.now ≡ ErrorKind.OutOfMemory → result ≡ WordsFault.NoMemory }
{
    match error.kind() {
        ErrorKind::OutOfMemory => WordsFault::NoMemory,
        _ => WordsFault::Words,
    }
}

/// The words taken apart into a command's name and the words behind it.
fn taken_apart<'a>(alloc: Global, words: &'a [String]) -> Result<ArgMatches<'a>, WordsFault>
    ensures kept { (verb : Verb) (rest : List Text) → texts words.entry.now ≡ name_of verb ∷ rest → list_all is_plain rest ≡ true
        → IfOk result (λ found. kept_of (subcommand_rows_of found) ≡ some_words rest) }
    ensures fails { (verb : Verb) (rest : List Text) → texts words.entry.now ≡ name_of verb ∷ rest → list_all is_plain rest ≡ true
        → fits_count verb rest ≡ true → IfErr result (λ fault. fault ≡ WordsFault.NoMemory) }
{
    match program(alloc)?.try_get_matches_from(words) {
        Ok(found) => Ok(found),
        Err(error) => Err(fault_of(&error)),
    }
}

/// The words behind the command's name, if there are any.
fn behind_name<'m, 'a>(found: &'m ArgMatches<'a>) -> Option<&'m [&'a str]>
    ensures { option_map (λ words. words_of words.now) result ≡ kept_of (subcommand_rows_of found.now) }
{
    let (_, command) = found.subcommand()?;
    command.get_strs("words")
}

/// The command of this name that the words spell.
fn planned(alloc: Global, verb: Verb, words: &[String]) -> Result<Plan, WordsFault>
    ensures { (rest : List Text) → texts words.now ≡ name_of verb ∷ rest → list_all is_plain rest ≡ true → IsTaken verb rest result }
{
    let found = taken_apart(alloc, words)?;
    match behind_name(&found) {
        Some(rest) => read(alloc, verb, rest),
        None => Err(WordsFault::Words),
    }
}

/// The command that the words behind the program's name spell. `Words` exactly where they spell none.
///
/// An empty word, a word that begins with `-` and a first word that names no command are refused first; then the words
/// are counted, and then they are read from left to right.
pub fn plan(alloc: Global, words: &[String]) -> Result<Plan, WordsFault>
    ensures spelled { IfOk result (Spell (texts words.now)) }
    ensures only { (command : Plan) → Spell (texts words.now) command
        → MatchResult result (λ given. given ≡ command) (λ fault. fault ≡ WordsFault.NoMemory) }
    ensures words { result ≡ Err WordsFault.Words → (command : Plan) → ¬ (Spell (texts words.now) command) }
{
    if !are_plain(words) {
        return Err(WordsFault::Words);
    }
    let [first, ..] = words else {
        return Err(WordsFault::Words);
    };
    match Verb::named(first.as_str()) {
        Some(verb) => planned(alloc, verb, words),
        None => Err(WordsFault::Words),
    }
}
