//! The first word of a line.

ghost use Rattle.script_text.specs.Keywords.{
  cut_or_collect_at,
  ending_at,
  follow_or_forget_at,
  keyword_at,
  refactor_or_root_at,
  set_show_or_store_at,
  single_keyword_at,
  store_end_at,
  type_or_tidy_at,
};
ghost use Rattle.std.specs.Prelude.{◌≡◌};
ghost use Rattle.type_desc.specs.Gives.{Gives};

use type_desc::ReadFault;
use type_desc::fields::literal;

/// The first word of a line, which decides what may follow.
#[derive(Clone, Copy, Debug, PartialEq, Eq)]
pub enum Keyword {
    DeclareType,
    Refactor,
    New,
    SetMember,
    AddTo,
    CutFrom,
    SetRoot,
    Store,
    StoreAll,
    Show,
    Home,
    Follow,
    Pick,
    DropName,
    Forget,
    Collect,
    Tidy,
    Export,
}

/// Takes the last letters of a keyword.
fn ending<'a>(
    letters: &[u8],
    keyword: Keyword,
    bytes: &'a [u8],
) -> Result<(Keyword, &'a [u8]), ReadFault>
    ensures { Gives (λ x. (x.0, x.1.now)) result (ending_at letters.now keyword bytes.now) }
{
    Ok((keyword, literal(letters, bytes)?))
}

#[tactic(auto, unfolding(crate::specs::Keywords::type_or_tidy_at))]
fn type_or_tidy(bytes: &[u8]) -> Result<(Keyword, &[u8]), ReadFault>
    ensures { Gives (λ x. (x.0, x.1.now)) result (type_or_tidy_at bytes.now) }
{
    let rest = literal(b"t", bytes)?;
    match rest {
        [b'y', ..] => ending(b"ype", Keyword::DeclareType, rest),
        _ => ending(b"idy", Keyword::Tidy, rest),
    }
}

#[tactic(auto, unfolding(crate::specs::Keywords::refactor_or_root_at))]
fn refactor_or_root(bytes: &[u8]) -> Result<(Keyword, &[u8]), ReadFault>
    ensures { Gives (λ x. (x.0, x.1.now)) result (refactor_or_root_at bytes.now) }
{
    let rest = literal(b"r", bytes)?;
    match rest {
        [b'e', ..] => ending(b"efactor", Keyword::Refactor, rest),
        _ => ending(b"oot", Keyword::SetRoot, rest),
    }
}

#[tactic(auto, unfolding(crate::specs::Keywords::cut_or_collect_at))]
fn cut_or_collect(bytes: &[u8]) -> Result<(Keyword, &[u8]), ReadFault>
    ensures { Gives (λ x. (x.0, x.1.now)) result (cut_or_collect_at bytes.now) }
{
    let rest = literal(b"c", bytes)?;
    match rest {
        [b'u', ..] => ending(b"ut", Keyword::CutFrom, rest),
        _ => ending(b"ollect", Keyword::Collect, rest),
    }
}

#[tactic(auto, unfolding(crate::specs::Keywords::follow_or_forget_at))]
fn follow_or_forget(bytes: &[u8]) -> Result<(Keyword, &[u8]), ReadFault>
    ensures { Gives (λ x. (x.0, x.1.now)) result (follow_or_forget_at bytes.now) }
{
    let rest = literal(b"fo", bytes)?;
    match rest {
        [b'l', ..] => ending(b"llow", Keyword::Follow, rest),
        _ => ending(b"rget", Keyword::Forget, rest),
    }
}

#[tactic(auto, unfolding(crate::specs::Keywords::store_end_at))]
fn store_end(bytes: &[u8]) -> Result<(Keyword, &[u8]), ReadFault>
    ensures { Gives (λ x. (x.0, x.1.now)) result (store_end_at bytes.now) }
{
    let rest = literal(b"tore", bytes)?;
    match rest {
        [b'-', ..] => ending(b"-all", Keyword::StoreAll, rest),
        _ => Ok((Keyword::Store, rest)),
    }
}

#[tactic(auto, unfolding(crate::specs::Keywords::set_show_or_store_at))]
fn set_show_or_store(bytes: &[u8]) -> Result<(Keyword, &[u8]), ReadFault>
    ensures { Gives (λ x. (x.0, x.1.now)) result (set_show_or_store_at bytes.now) }
{
    let rest = literal(b"s", bytes)?;
    match rest {
        [b'e', ..] => ending(b"et", Keyword::SetMember, rest),
        [b'h', ..] => ending(b"how", Keyword::Show, rest),
        _ => store_end(rest),
    }
}

/// Takes one of the keywords that share no beginning.
#[tactic(auto, unfolding(crate::specs::Keywords::single_keyword_at))]
fn single_keyword(bytes: &[u8]) -> Result<(Keyword, &[u8]), ReadFault>
    ensures { Gives (λ x. (x.0, x.1.now)) result (single_keyword_at bytes.now) }
{
    match bytes {
        [b'n', ..] => ending(b"new", Keyword::New, bytes),
        [b'a', ..] => ending(b"add", Keyword::AddTo, bytes),
        [b'h', ..] => ending(b"home", Keyword::Home, bytes),
        [b'p', ..] => ending(b"pick", Keyword::Pick, bytes),
        [b'd', ..] => ending(b"drop", Keyword::DropName, bytes),
        _ => ending(b"export", Keyword::Export, bytes),
    }
}

/// Takes a keyword.
#[tactic(auto, unfolding(crate::specs::Keywords::keyword_at))]
pub fn take_keyword(bytes: &[u8]) -> Result<(Keyword, &[u8]), ReadFault>
    ensures { Gives (λ x. (x.0, x.1.now)) result (keyword_at bytes.now) }
{
    match bytes {
        [b't', ..] => type_or_tidy(bytes),
        [b'r', ..] => refactor_or_root(bytes),
        [b'c', ..] => cut_or_collect(bytes),
        [b's', ..] => set_show_or_store(bytes),
        [b'f', ..] => follow_or_forget(bytes),
        _ => single_keyword(bytes),
    }
}
