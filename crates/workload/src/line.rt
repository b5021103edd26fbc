//! The texts of the lines, each with its line feed.

ghost use Rattle.std.specs.Prelude.{◌≡◌, ◌++◌, ◌∷◌, [], ◌<◌, IfOk, codes, true, false};
ghost use Rattle.std.specs.Fmt.{decimal};
ghost use Rattle.workload.specs.Lines.{line_of_kind, on_slot as words_on_slot, opening_line, set_rank as rank_set, set_reference as reference_set, show as shown};

use crate::draw::Draw;
use graph_model::{Bytes, NoMemory};
use std::alloc::Global;

fn plain(alloc: Global, words: &str) -> Result<Bytes, NoMemory>
    ensures { IfOk result (λ line. line ≡ words.now ++ 10 ∷ []) }
{
    let line = format!(in alloc; "{words}\n")?;
    Ok(Bytes::new(line.into_bytes()))
}

fn on_slot(alloc: Global, words: &str, draw: &Draw) -> Result<Bytes, NoMemory>
    ensures { IfOk result (λ line. line ≡ words_on_slot words.now draw.now ++ 10 ∷ []) }
{
    let slot = draw.slot;
    let line = format!(in alloc; "{words}{slot}\n")?;
    Ok(Bytes::new(line.into_bytes()))
}

fn on_slot_with(alloc: Global, words: &str, draw: &Draw, rest: &str) -> Result<Bytes, NoMemory>
    ensures { IfOk result (λ line. line ≡ (words_on_slot words.now draw.now ++ rest.now) ++ 10 ∷ []) }
{
    let slot = draw.slot;
    let line = format!(in alloc; "{words}{slot}{rest}\n")?;
    Ok(Bytes::new(line.into_bytes()))
}

fn on_slot_number(
    alloc: Global,
    words: &str,
    draw: &Draw,
    rest: &str,
    number: u64,
) -> Result<Bytes, NoMemory>
    ensures { IfOk result (λ line. line ≡ ((words_on_slot words.now draw.now ++ rest.now) ++ decimal number) ++ 10 ∷ []) }
{
    let slot = draw.slot;
    let line = format!(in alloc; "{words}{slot}{rest}{number}\n")?;
    Ok(Bytes::new(line.into_bytes()))
}

/// The lines that a script begins with.
pub fn opening(alloc: Global, at: u64) -> Result<Bytes, NoMemory>
    requires { at < 4 }
    ensures { IfOk result (λ line. line ≡ opening_line at ++ 10 ∷ []) }
{
    match at {
        0 => plain(
            alloc,
            "type Item int:rank text:label ref:next lazy:far refs:all",
        ),
        1 => plain(alloc, "new n0 Item"),
        2 => plain(alloc, "root n0"),
        _ => plain(alloc, "store root"),
    }
}

fn show(alloc: Global, draw: &Draw) -> Result<Bytes, NoMemory>
    ensures { IfOk result (λ line. line ≡ shown draw.now ++ 10 ∷ []) }
{
    on_slot(alloc, "show n", draw)
}

fn set_rank(alloc: Global, draw: &Draw) -> Result<Bytes, NoMemory>
    ensures { IfOk result (λ line. line ≡ rank_set draw.now ++ 10 ∷ []) }
{
    on_slot_number(alloc, "set n", draw, " rank ", draw.value)
}

/// Gives a member the object of a slot, or nothing where that slot is free.
fn set_reference(
    alloc: Global,
    member: &str,
    draw: &Draw,
    is_target_bound: bool,
) -> Result<Bytes, NoMemory>
    ensures { IfOk result (λ line. line ≡ reference_set member.now draw.now is_target_bound ++ 10 ∷ []) }
{
    let slot = draw.slot;
    if is_target_bound {
        let target = draw.target;
        let line = format!(in alloc; "set n{slot}{member} n{target}\n")?;
        Ok(Bytes::new(line.into_bytes()))
    } else {
        let line = format!(in alloc; "set n{slot}{member} null\n")?;
        Ok(Bytes::new(line.into_bytes()))
    }
}

/// The line on a free slot, which gets an object.
pub fn new_object(alloc: Global, draw: &Draw) -> Result<Bytes, NoMemory>
    ensures { IfOk result (λ line. line ≡ (words_on_slot (codes "new n") draw.now ++ codes " Item") ++ 10 ∷ []) }
{
    on_slot_with(alloc, "new n", draw, " Item")
}

/// The line on a bound slot.
pub fn of_kind(alloc: Global, draw: &Draw, is_target_bound: bool) -> Result<Bytes, NoMemory>
    ensures { IfOk result (λ line. line ≡ line_of_kind draw.now is_target_bound ++ 10 ∷ []) }
{
    match draw.kind {
        0 | 1 => set_rank(alloc, draw),
        2 => on_slot_number(alloc, "set n", draw, " label l", draw.value),
        3 | 4 => set_reference(alloc, " next", draw, is_target_bound),
        5 => set_reference(alloc, " far", draw, is_target_bound),
        6 | 7 if is_target_bound => on_slot_number(alloc, "add n", draw, " all n", draw.target),
        6 | 7 => show(alloc, draw),
        8..=10 => on_slot(alloc, "store n", draw),
        11 => plain(alloc, "store root"),
        12 if draw.slot == 0 => show(alloc, draw),
        12 => on_slot(alloc, "drop n", draw),
        13 => plain(alloc, "forget"),
        14 if draw.value < 100 => plain(alloc, "collect"),
        14 => show(alloc, draw),
        _ if draw.value < 100 => plain(alloc, "tidy"),
        _ => set_rank(alloc, draw),
    }
}

/// The lines that a script ends with: of two, the last one or the one before.
pub fn closing(alloc: Global, is_last: bool) -> Result<Bytes, NoMemory>
    ensures last { is_last ≡ true → IfOk result (λ line. line ≡ codes "export" ++ 10 ∷ []) }
    ensures before { is_last ≡ false → IfOk result (λ line. line ≡ codes "collect" ++ 10 ∷ []) }
{
    plain(alloc, if is_last { "export" } else { "collect" })
}
