// The words behind a command's name.
ghost use Rattle.std.specs.Prelude.{◌≡◌, IfOk, IfSome, Some, List, ℕ, MatchResult, map};
ghost use Rattle.store_words.specs.Grammar.{AreLines, AreSizes, GiveSizes};
ghost use Rattle.store_words.specs.declared.verb.Verb.TheVariants as Verb;
ghost use Rattle.store_words.specs.declared.plan.WordSizes.{WordSizes};
ghost use Rattle.store_words.specs.Reading.{words_of, IsTaken};

use crate::fault::WordsFault;
use crate::number::{channel_count, number};
use crate::plan::{Plan, WordSizes};
use crate::verb::Verb;
use crate::word::Word;
use std::alloc::Global;

/// The most bytes that a size may say.
const LARGEST: u64 = 1 << 30;

/// The most lines that a script may have that is made up.
const MOST_LINES: u64 = 1_000_000;

/// The greatest number that a script may be made up from.
const GREATEST: u64 = (1 << 31) - 1;

/// The sizes that MIN, MAX and USE say.
fn given_sizes(minimum: &str, maximum: &str, use_rate: &str) -> Option<WordSizes>
    ensures spelled { IfSome result (AreSizes minimum.now maximum.now use_rate.now) }
    ensures only { (sizes : WordSizes) → AreSizes minimum.now maximum.now use_rate.now sizes → result ≡ Some sizes }
{
    let minimum = number(minimum, 0, LARGEST)?;
    let maximum = number(maximum, 1, LARGEST)?;
    let use_rate = number(use_rate, 0, 1000)?;
    if maximum < minimum {
        return None;
    }
    Some(WordSizes {
        minimum,
        maximum,
        use_rate,
    })
}

/// The sizes that the last words of `run` and `work` say.
fn sizes(words: &[&str]) -> Option<WordSizes>
    ensures spelled { IfSome result (GiveSizes (words_of words.now)) }
    ensures only { (sizes : WordSizes) → GiveSizes (words_of words.now) sizes → result ≡ Some sizes }
{
    match words {
        [] => Some(WordSizes::default()),
        [minimum, maximum, use_rate] => given_sizes(minimum, maximum, use_rate),
        _ => None,
    }
}

/// What LINES and NUMBER say.
fn lines(count: &str, start: &str) -> Option<(u64, u32)>
    ensures spelled { IfSome result (λ said. AreLines count.now start.now said.0 said.1) }
    ensures only { (count_said start_said : ℕ) → AreLines count.now start.now count_said start_said → result ≡ Some (count_said, start_said) }
{
    let count = number(count, 0, MOST_LINES)?;
    let start = number(start, 0, GREATEST)?;
    Some((count, start as u32))
}

fn run(alloc: Global, words: &[&str]) -> Result<Plan, WordsFault>
    ensures { IsTaken Verb.Run (words_of words.now) result }
{
    let [dir, n, more @ ..] = words else {
        return Err(WordsFault::Words);
    };
    let channels = channel_count(n).ok_or(WordsFault::Words)?;
    let sizes = sizes(more).ok_or(WordsFault::Words)?;
    Ok(Plan::Run {
        dir: Word::new(alloc, dir)?,
        channels,
        sizes,
    })
}

fn work(alloc: Global, words: &[&str]) -> Result<Plan, WordsFault>
    ensures { IsTaken Verb.Work (words_of words.now) result }
{
    let [dir, n, w, more @ ..] = words else {
        return Err(WordsFault::Words);
    };
    let channels = channel_count(n).ok_or(WordsFault::Words)?;
    let workers = number(w, 1, 16).ok_or(WordsFault::Words)?;
    let sizes = sizes(more).ok_or(WordsFault::Words)?;
    Ok(Plan::Work {
        dir: Word::new(alloc, dir)?,
        channels,
        workers: workers as u32,
        sizes,
    })
}

fn check(alloc: Global, words: &[&str]) -> Result<Plan, WordsFault>
    ensures { IsTaken Verb.Check (words_of words.now) result }
{
    let [dir, n] = words else {
        return Err(WordsFault::Words);
    };
    let channels = channel_count(n).ok_or(WordsFault::Words)?;
    Ok(Plan::Check {
        dir: Word::new(alloc, dir)?,
        channels,
    })
}

fn export(alloc: Global, words: &[&str]) -> Result<Plan, WordsFault>
    ensures { IsTaken Verb.Export (words_of words.now) result }
{
    let [dir, n] = words else {
        return Err(WordsFault::Words);
    };
    let channels = channel_count(n).ok_or(WordsFault::Words)?;
    Ok(Plan::Export {
        dir: Word::new(alloc, dir)?,
        channels,
    })
}

fn generate(words: &[&str]) -> Result<Plan, WordsFault>
    ensures { IsTaken Verb.Generate (words_of words.now) result }
{
    let [count, start] = words else {
        return Err(WordsFault::Words);
    };
    let (lines, number) = lines(count, start).ok_or(WordsFault::Words)?;
    Ok(Plan::Generate { lines, number })
}

fn trial(alloc: Global, words: &[&str]) -> Result<Plan, WordsFault>
    ensures { IsTaken Verb.Trial (words_of words.now) result }
{
    let [dir, n, count, start] = words else {
        return Err(WordsFault::Words);
    };
    let channels = channel_count(n).ok_or(WordsFault::Words)?;
    let (lines, number) = lines(count, start).ok_or(WordsFault::Words)?;
    Ok(Plan::Trial {
        dir: Word::new(alloc, dir)?,
        channels,
        lines,
        number,
    })
}

/// The command that these words behind its name say.
pub(crate) fn read(alloc: Global, verb: Verb, words: &[&str]) -> Result<Plan, WordsFault>
    ensures { IsTaken verb (words_of words.now) result }
{
    match verb {
        Verb::Run => run(alloc, words),
        Verb::Work => work(alloc, words),
        Verb::Check => check(alloc, words),
        Verb::Export => export(alloc, words),
        Verb::Generate => generate(words),
        Verb::Trial => trial(alloc, words),
    }
}
