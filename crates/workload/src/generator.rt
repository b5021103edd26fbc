//! The stream of lines.

ghost use Rattle.std.specs.Prelude.{◌≡◌, ◌+◌, ◌++◌, ◌∷◌, [], ◌<◌, ◌^◌, ◌&&◌, not, set, ℕ, IfOk, OnErr, OnOk};
ghost use Rattle.workload.specs.Draws.{draw_from, drops, is_bound, state_behind};
ghost use Rattle.workload.specs.Lines.{IsNext, StandBefore, drawn_end, line_at, line_of_draw, script};

use crate::draw::next_draw;
use crate::line::{closing, new_object, of_kind, opening};
use crate::slots::Slots;
use graph_model::{Bytes, NoMemory};
use std::alloc::Global;
use std::marker::Model;

/// How many lines every script begins with.
const OPENING_LINES: u64 = 4;

/// From so many lines on a script ends with `collect` and `export`.
const LEAST_WITH_END: u64 = 6;

/// A script of so many lines that is made up from a number, line by line, which contracts see as the lines that are left. It keeps 64 flags and
/// no line.
#[derive(Debug, Drop)]
pub struct Generator {
    alloc: Global,
    lines: u64,
    number: u32,
    at: u64,
    state: u64,
    slots: Slots,
}

impl Model for Generator {
    ghost use Rattle.std.specs.Prelude.{◌≤◌, ◌<◌, ◌-◌, ◌^◌, List, ℕ};
    ghost use Rattle.workload.specs.Lines.{StandBefore, lines_from};

    ghost Value = { List (List ℕ) };

    ghost view = { λ it. lines_from it.lines it.number it.at (it.lines - it.at) };

    ghost invariant = { λ it. (it.at ≤ it.lines) × (it.state < 2 ^ 31) × StandBefore it.lines it.number it.at it.state it.slots };
}

impl Generator {
    /// The script of so many lines from a number below 2^31.
    pub fn new(alloc: Global, lines: u64, number: u32) -> Generator
        requires { number < 2 ^ 31 }
        ensures { result ≡ script lines number }
    {
        Generator {
            alloc,
            lines,
            number,
            at: 0,
            state: u64::from(number),
            slots: Slots::new(),
        }
    }

    /// The next line with its line feed, or none where the script has ended. Without memory the same line comes next.
    pub fn next(&mut self) -> Result<Option<Bytes>, NoMemory>
        ensures next { IfOk result (λ line. IsNext self.old line self.new) }
        ensures err { OnErr result (self.new ≡ self.old) }
    {
        if self.at == self.lines {
            return Ok(None);
        }
        let line = line_due(
            self.alloc,
            self.lines,
            self.at,
            &mut self.state,
            &mut self.slots,
        )?;
        self.at += 1;
        Ok(Some(line))
    }
}

/// Where the lines end that are drawn.
fn drawn_lines_end(lines: u64) -> u64
    ensures { result ≡ drawn_end lines }
{
    if lines >= LEAST_WITH_END {
        lines - 2
    } else {
        lines
    }
}

/// Line `at`, and what the lines behind it begin with.
fn line_due(
    alloc: Global,
    lines: u64,
    at: u64,
    state: &mut u64,
    slots: &mut Slots,
) -> Result<Bytes, NoMemory>
    requires within { at < lines }
    requires below { state.old < 2 ^ 31 }
    ensures line { (number : ℕ) → StandBefore lines number at state.old slots.old → IfOk result (λ line. line ≡ line_at lines number at ++ 10 ∷ []) }
    ensures stands { (number : ℕ) → StandBefore lines number at state.old slots.old → OnOk result (StandBefore lines number (at + 1) state.new slots.new) }
    ensures state { state.new < 2 ^ 31 }
    ensures err_state { OnErr result (state.new ≡ state.old) }
    ensures err_slots { OnErr result (slots.new ≡ slots.old) }
{
    if at < OPENING_LINES {
        opening(alloc, at)
    } else if at < drawn_lines_end(lines) {
        drawn_line(alloc, state, slots)
    } else {
        closing(alloc, at + 1 == lines)
    }
}

/// Draws a line, and notes what it leaves bound.
fn drawn_line(alloc: Global, state: &mut u64, slots: &mut Slots) -> Result<Bytes, NoMemory>
    requires { state.old < 2 ^ 31 }
    ensures line { IfOk result (λ line. line ≡ line_of_draw slots.old (draw_from state.old) ++ 10 ∷ []) }
    ensures state { OnOk result (state.new ≡ state_behind (state_behind (state_behind (state_behind state.old)))) }
    ensures below { state.new < 2 ^ 31 }
    ensures slots { OnOk result (slots.new ≡ set slots.old (draw_from state.old).slot (not (is_bound slots.old (draw_from state.old).slot && drops (draw_from state.old)))) }
    ensures err_state { OnErr result (state.new ≡ state.old) }
    ensures err_slots { OnErr result (slots.new ≡ slots.old) }
{
    let mut moved = *state;
    let draw = next_draw(&mut moved);
    let line = if slots.contains(draw.slot) {
        of_kind(alloc, &draw, slots.contains(draw.target))?
    } else {
        new_object(alloc, &draw)?
    };
    *state = moved;
    slots.note(&draw);
    Ok(line)
}
