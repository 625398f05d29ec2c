// One byte that ends no record: what it does to the record, its key and its frames.
#![tactic(auto)]

pub mod rules; // rules.rt: what records are read by

ghost use Rattle.std.specs.Prelude.{◌≡◌};
ghost use Rattle.progress.specs.declared.Progress.{Progress};
ghost use Rattle.progress.specs.Memory.{mem, top_at, perform};
ghost use Rattle.turn.specs.Turn.{ClosedTo, memory, turned};

use json_text::lexer::{Step, Top};
use progress::{Progress, Task, act, key};
use rules::Rules;
use table::flat::Table;
use table::kind::{Finished, Form, ValueKind};

// The open record between two bytes, its key and its frames aside.
// Stays: the key apart, since an array that is read by index keeps the whole record in memory: with the key in it, a stream of numbers takes 4 in 100
// instructions more than without.
#[derive(Clone, Copy)]
pub struct Record {
    pub progress: Progress,
    // the root is closed, and fits rule 0
    pub root: bool,
}

// What the innermost open value is, if there is one.
#[tactic(auto, unfolding(progress::specs::Memory::top_at, frame::specs::Frame::form_in))]
pub fn top_of(work: &[u8], level: usize) -> Top
    ensures { result ≡ top_at work.now level }
{
    if level == 0 {
        return Top::Bare;
    }
    match frame::form_at(work, level) {
        Form::Object => Top::Object,
        Form::Array => Top::Array,
    }
}

// The value of a level is closed: it joins the level below. Gives whether the root fits rule 0, which is told where it is the root.
#[tactic(auto, unfolding(progress::specs::Memory::rules_at, progress::specs::Memory::value_at))]
fn close_value(work: &mut [u8], level: usize, root: bool, table: &Table) -> bool
    ensures { ClosedTo table.now work.old level root result work.new }
{
    let set = frame::close_level(work, level, table);
    frame::value_level(work, act::down(level), table, Finished::Rules(set));
    if level == 1 {
        return ValueKind::Rule(0).fits(Finished::Rules(set));
    }
    root
}

impl Record {
    // Does a task to the root, the key and the frames, all but the progress: up is the level after the byte.
    // Stays: `key` and `work` apart, since of a struct with both each contract would say besides that it still holds the same two references.
    #[tactic(auto, unfolding(progress::specs::Memory::value_at, progress::specs::Memory::close_at))]
    fn perform(&mut self, task: Task, up: usize, key: &mut [u8; 32], work: &mut [u8], rules: Rules)
        ensures progress { self.new.progress ≡ self.old.progress }
        ensures performed { (x : Progress) → x.level ≡ up → mem x self.new.root key.new work.new ≡ perform task rules.entry.table.now (memory self.old key.old work.old) x }
    {
        let table = rules.table;
        let level = self.progress.level;
        match task {
            Task::Idle => {}
            Task::Begin => {
                self.root = false;
                *key = [0; 32];
            }
            Task::Put(c) => key::keep_char(key, self.progress.len, c),
            Task::Named => {
                let number = table.number(key, self.progress.len);
                frame::key_level(work, level, number);
            }
            Task::Open(form) => frame::open_level(work, up, form, table),
            Task::Finish(s) => frame::value_level(work, level, table, Finished::Scalar(s)),
            Task::Close => self.root = close_value(work, level, self.root, table),
            Task::FinishClose(s) => {
                frame::value_level(work, level, table, Finished::Scalar(s));
                self.root = close_value(work, level, self.root, table);
            }
        }
    }

    // The byte b, of which the lexer makes a step: the record after it, its key and its frames.
    // Stays: `key` and `work` apart, as in `perform`.
    pub fn turn(&mut self, step: Step, key: &mut [u8; 32], work: &mut [u8], rules: Rules, b: u8)
        ensures { memory self.new key.new work.new ≡ turned rules.entry.table.now rules.entry.frames (memory self.old key.old work.old) b step }
    {
        let next = progress::advance(self.progress, rules.frames, b, step);
        self.perform(next.task, next.progress.level, key, work, rules);
        self.progress = next.progress;
    }
}
