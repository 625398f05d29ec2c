// A piece is read on: the bytes that are passed over, and one byte more.
#![tactic(auto)]

ghost use Rattle.std.specs.Prelude.{◌≡◌, ◌<◌, length, get_or};
ghost use Rattle.progress.specs.Memory.{ends_record};
ghost use Rattle.turn.specs.Turn.{memory};
ghost use Rattle.piece.specs.Went.{StepsAs, WentBy};

use chars::class::Classes;
use json_text::lexer::Step;
use progress::Progress;
use std::ops::ControlFlow;
use turn::rules::Rules;
use turn::{Record, top_of};

// An RS after at least one byte of a record.
#[tactic(auto, unfolding(progress::specs::Memory::ends_record))]
fn ends_record(x: Progress, b: u8) -> bool
    ensures { result ≡ ends_record x b }
{
    b == 0x1E && 0 < x.pos
}

// Reads the byte at place i, with its step: an RS that ends the record, or a byte of it.
// Stays: `record`, `key` and `work` apart, since of a struct with the three each contract would say besides that it still holds the same references.
#[tactic(auto, using(crate::proofs::PieceLaws::went_ended, crate::proofs::PieceLaws::went_turned))]
fn read_byte(
    record: &mut Record,
    key: &mut [u8; 32],
    work: &mut [u8],
    rules: Rules,
    piece: &[u8],
    i: usize,
    step: Step,
) -> ControlFlow<usize, usize>
    requires { (i < length piece.now) × StepsAs record.old.progress rules.frames work.old (get_or piece.now i 0) step }
    ensures { WentBy rules.entry.table.now rules.entry.frames (memory record.old key.old work.old) piece.now i (memory record.new key.new work.new) result }
{
    let b = piece[i];
    if ends_record(record.progress, b) {
        return ControlFlow::Break(i + 1);
    }
    record.turn(step, key, work, rules, b);
    ControlFlow::Continue(i + 1)
}

// Reads on from place i: the bytes that are passed over, and one byte more. Of a record whose bytes are only counted it counts one byte, and
// asks the lexer nothing. Breaks off behind an RS that ended the record, and else goes on at a later place.
// Stays: `record`, `key` and `work` apart, as in `read_byte`.
pub fn read_on(
    record: &mut Record,
    key: &mut [u8; 32],
    work: &mut [u8],
    rules: Rules,
    classes: &Classes,
    piece: &[u8],
    i: usize,
) -> ControlFlow<usize, usize>
    requires { i < length piece.now }
    ensures { WentBy rules.entry.table.now rules.entry.frames (memory record.old key.old work.old) piece.now i (memory record.new key.new work.new) result }
{
    if piece[i] != 0x1E && !pass::reads_on(record.progress) {
        record.progress.pos = whole::bump(record.progress.pos);
        return ControlFlow::Continue(i + 1);
    }
    let kept = pass::keep(classes, record.progress, key, piece, i);
    let top = top_of(work, kept.progress.level);
    let passed = pass::pass(classes, kept.progress, top, piece, kept.at);
    record.progress = passed.progress;
    if let Some(step) = passed.step {
        return read_byte(record, key, work, rules, piece, passed.at, step);
    }
    ControlFlow::Continue(passed.at)
}
