//! The reader of problems.
ghost use Rattle.std.specs.Prelude.{◌≡◌, ◌≢◌, ◌<◌, ◌≤◌, ◌⊎◌, None, length, true};
ghost use Rattle.pop_text.specs.Bytes.{greatest_count};
ghost use Rattle.pop_text.specs.Words.{limit, window_size};
ghost use Rattle.pop_text.specs.ties.Reading.{IsEndSeen, failures_after};
ghost use Rattle.pop_text.specs.ties.Plain.{Skips};
ghost use Rattle.pop_text.specs.declared.scanner.End.{End};
ghost use Rattle.pop_input.specs.declared.reader.Next.{Next};
ghost use Rattle.pop_input.specs.ties.ReaderState.{HasFailed, NextItem, initial_state, is_item, next_after as following, work_left};
ghost use Rattle.pop_input.specs.ties.Spans.{HasSpan};
ghost use Rattle.pop_input.specs.ties.Used.{UsesItem};
ghost use Rattle.pop_input.specs.ties.Closings.{ReadsWord, cut_fault, last_of, item_of_cut};
ghost use Rattle.pop_input.specs.Names.{command_of};

use crate::block::Block;
use crate::fault_kind::FaultKind;
use crate::item::{Fault, Item, Last};
use crate::names::Command;
use crate::short_word::ShortWord;
use crate::span::Span;
use crate::token::{ReadToken, next_token};
use pop_text::{ReadFault, Scanner, Source, Text, Word};
use std::marker::Model;

/// Which block of the input is next. A block ends with NextProblem or EndProblem.
#[derive(Clone, Copy, Debug)]
pub enum Next {
    /// The first block, which must begin with BeginProblem.
    First,
    /// A later block.
    Later,
    /// No block: the last item was read.
    Nothing,
}

/// A reader of the items of one input. Pass the same source to every call.
///
/// The language is a part of Popeye's (Popeye manual). The faults are this project's own.
#[derive(Drop)]
pub struct Reader {
    scanner: Scanner,
    next_block: Next,
}

impl Model for Reader {
    ghost use Rattle.pop_input.specs.ties.ReaderState.{ReaderState};

    ghost Value = { ReaderState };

    ghost use Rattle.std.specs.Prelude.{◌≤◌, length};
    ghost use Rattle.pop_text.specs.Words.{limit, window_size};

    ghost view = { λ r. record { next = r.next_block; at = r.scanner } };

    ghost invariant = { λ r. (r.scanner.used ≤ limit) × (length r.scanner.window ≤ window_size) };
}

impl Reader {
    /// Returns a reader before the first item.
    pub fn new() -> Reader
        ensures { result ≡ initial_state }
    {
        Reader {
            scanner: Scanner::new(),
            next_block: Next::First,
        }
    }

    /// Reads and returns the next item: a problem that can be set up and solved, or the first fault in its place.
    /// Returns `End` after the last item and on every later call.
    ///
    /// # Errors
    ///
    /// `FaultKind` says when each fault occurs. `Faulty` holds the first fault of a problem, with its line, counted
    /// from 1:
    ///
    /// - the first faulty word, in that word's line;
    /// - else the fault found at the end of the problem, in the line of the word that closes it;
    /// - else, if the input ends or is cut inside the problem, that fault, in the line where this happens.
    ///
    /// After a fault of kind 1 to 18 the reader skips the rest of the problem. If the input is cut there, fault 20 or
    /// 21 is the next item.
    ///
    /// # Bytes
    ///
    /// A call uses exactly the bytes up to the end of the word that closes the item, and the next call begins there. If
    /// the input ends or is cut inside the item, a call uses all bytes up to there. After the last item it doesn't call
    /// the source, whose count of failures may then have any value.
    pub fn next_problem<S: Source>(&mut self, source: &mut S) -> Item
        requires { self.old.next ≢ Next.Nothing → self.old.at.end ≡ End.Open
            → S.failures source.old < greatest_count }
        ensures item { NextItem self.old self.new (S.remaining source.old) (S.remaining source.new)
            result }
        ensures used { UsesItem self.old self.new (S.remaining source.old) (S.remaining source.new)
            result }
        ensures within { self.new.at.used ≤ limit }
        ensures waits { length self.new.at.window ≤ window_size }
        ensures seen { IsEndSeen self.old.at.end (S.remaining source.old)
            → IsEndSeen self.new.at.end (S.remaining source.new) }
        ensures ends { self.old.at.end ≡ End.Open ⊎ self.new.at.end ≡ self.old.at.end }
        ensures counted { S.failures source.new
            ≡ failures_after self.old.at.end self.new.at.end (S.failures source.old) }
        ensures failed { HasFailed self.new.at result }
        ensures less { is_item result ≡ true → work_left self.new < work_left self.old }
    {
        self.next_with_span(source).0
    }

    /// Reads the item that `next_problem` would return, and returns it with its span: that of the first faulty word of
    /// the problem; else of the word that closes it; else the empty range where the input ends or is cut.
    pub fn next_with_span<S: Source>(&mut self, source: &mut S) -> (Item, Span)
        requires { self.old.next ≢ Next.Nothing → self.old.at.end ≡ End.Open
            → S.failures source.old < greatest_count }
        ensures item { NextItem self.old self.new (S.remaining source.old) (S.remaining source.new)
            result.0 }
        ensures span { HasSpan self.old self.new (S.remaining source.old) (S.remaining source.new)
            result.0 result.1 }
        ensures used { UsesItem self.old self.new (S.remaining source.old) (S.remaining source.new)
            result.0 }
        ensures within { self.new.at.used ≤ limit }
        ensures waits { length self.new.at.window ≤ window_size }
        ensures seen { IsEndSeen self.old.at.end (S.remaining source.old)
            → IsEndSeen self.new.at.end (S.remaining source.new) }
        ensures ends { self.old.at.end ≡ End.Open ⊎ self.new.at.end ≡ self.old.at.end }
        ensures counted { S.failures source.new
            ≡ failures_after self.old.at.end self.new.at.end (S.failures source.old) }
        ensures failed { HasFailed self.new.at result.0 }
        ensures less { is_item result.0 ≡ true → work_left self.new < work_left self.old }
    {
        let mut span = Span { start: 0, end: 0 };
        let mut block = match self.next_block {
            Next::First => Block::first(),
            Next::Later => Block::later(),
            Next::Nothing => return (Item::End, span),
        };
        let mut word = Word::new();
        let mut text = Text::empty();
        let mut here = span;
        loop {
            match next_token(&mut self.scanner, source, &mut word, &mut text, &mut here) {
                ReadToken::Line(keyword) => block.note(keyword, &text),
                ReadToken::TooLong(line) => {
                    span = span.after(block.fault, here);
                    block.read_long(line);
                }
                ReadToken::Word => {
                    span = span.after(block.fault, here);
                    match read_word(&mut block, &word) {
                        Some(last) => {
                            self.next_block = next_after(last);
                            return (block.item_at_close(word.line, last), span);
                        }
                        None => skip_on(&mut self.scanner, block.fault),
                    }
                }
                ReadToken::Ended(line) => {
                    self.next_block = Next::Nothing;
                    span = span.after(block.fault, here);
                    return (block.item_at_end(line), span);
                }
                ReadToken::Cut(cut) => {
                    let (fault, last) = item_of_cut(block.fault, cut);
                    self.next_block = next_after(last);
                    span = span.after(block.fault, here);
                    return (Item::Faulty(fault, last), span);
                }
            }
        }
    }
}

// Reads a word in the block. If the word closes the block, returns whether its item is the last.
fn read_word(block: &mut Block, word: &Word) -> Option<Last>
    ensures read { ReadsWord block.old block.new word.now.line word.now.bytes.items }
    ensures closes { result ≡ last_of (command_of word.now.bytes.items) }
{
    let said = ShortWord::of(word);
    block.read(&said, word.line);
    closing_of(said.command())
}

// After a fault, skips words that can neither close the block nor begin a text line.
#[tactic(auto, using(pop_text::proofs::Plain::skips_none))]
fn skip_on(scanner: &mut Scanner, fault: Option<Fault>)
    ensures skips { Skips scanner.old scanner.new }
    ensures sound { fault ≡ None → scanner.new ≡ scanner.old }
{
    if fault.is_some() {
        scanner.skip_plain();
    }
}

// Returns whether the item is the last, if the command closes it.
fn closing_of(command: Option<Command>) -> Option<Last>
    ensures { result ≡ last_of command }
{
    match command {
        Some(Command::Next) => Some(Last::No),
        Some(Command::Last) => Some(Last::Yes),
        _ => None,
    }
}

// Returns what the reader does after an item: nothing more after the last, or it goes on to the next problem.
fn next_after(last: Last) -> Next
    ensures { result ≡ following last }
{
    match last {
        Last::Yes => Next::Nothing,
        Last::No => Next::Later,
    }
}

// Returns the fault to report if the input is cut in a block, and whether it is the last. `fault` is the block's own
// fault, if any; the cut is then an item of its own, which the next call returns.
fn item_of_cut(fault: Option<Fault>, cut: ReadFault) -> (Fault, Last)
    ensures { result ≡ item_of_cut fault cut }
{
    match fault {
        Some(fault) => (fault, Last::No),
        None => (fault_of_cut(cut), Last::Yes),
    }
}

// Returns the fault that says why the input is cut, with its line.
fn fault_of_cut(cut: ReadFault) -> Fault
    ensures { result ≡ cut_fault cut }
{
    match cut {
        ReadFault::Device(line) => Fault::at(FaultKind::DeviceFailed, line),
        ReadFault::InputTooLong(line) | ReadFault::TooLong(line) => {
            Fault::at(FaultKind::InputTooLong, line)
        }
    }
}
