//! A block while it is read. A block is one problem's words, up to NextProblem or EndProblem.
ghost use Rattle.std.specs.Prelude.{◌≡◌, None, Some, false, true};
ghost use Rattle.pop_input.specs.Names.{or_else};
ghost use Rattle.pop_input.specs.FaultKinds.{at_line, fault_at};
ghost use Rattle.pop_input.specs.ties.Closings.{IsNew, ReadsWord, TakesLine, ended_item, entry_now, item_of, draft_of_next};
ghost use Rattle.pop_input.specs.WordFaults.{fault_of};
ghost use Rattle.pop_input.specs.declared.fault_kind.FaultKind.TheVariants.{WordTooLong};

use crate::draft::Draft;
use crate::fault_kind::FaultKind;
use crate::item::{Fault, Item, Last};
use crate::names::{Command, TextWord};
use crate::short_word::ShortWord;
use pop_text::Text;

/// The part of a block that is read so far.
#[derive(Drop)]
pub struct Block {
    /// The first fault, if any.
    pub fault: Option<Fault>,
    /// Whether the problem has begun: in the first block it begins with the word BeginProblem.
    pub begun: bool,
    /// What the words say.
    pub draft: Draft,
    /// The last title, empty if there is none.
    pub title: Text,
    /// The last author, empty if there is none.
    pub author: Text,
}

impl Block {
    /// Returns the first block of the input, before its first token.
    pub(crate) fn first() -> Block
        ensures { IsNew true result }
    {
        Block {
            begun: false,
            ..Block::later()
        }
    }

    /// Returns a later block of the input, before its first token.
    pub(crate) fn later() -> Block
        ensures { IsNew false result }
    {
        Block {
            fault: None,
            begun: true,
            draft: Draft::new(),
            title: Text::empty(),
            author: Text::empty(),
        }
    }

    /// Reads a word in this line. Does nothing if the block already has a fault.
    pub(crate) fn read(&mut self, word: &ShortWord<'_>, line: u64)
        ensures { ReadsWord self.old self.new line word.now }
    {
        if self.fault.is_none() {
            if let Some(kind) = self.begin_or_read(word) {
                self.fault = Some(Fault::at(kind, line));
            }
        }
    }

    // Begins the problem or reads a word of it, in a block without a fault, and returns the word's fault, if any.
    fn begin_or_read(&mut self, word: &ShortWord<'_>) -> Option<FaultKind>
        ensures kind { result ≡ fault_of self.old.begun self.old.draft word.now }
        ensures begun { result ≡ None → self.new.begun ≡ true }
        ensures draft { result ≡ None → self.new.draft
            ≡ draft_of_next self.old.begun self.old.draft word.now }
        ensures fault { self.new.fault ≡ self.old.fault }
        ensures title { self.new.title ≡ self.old.title }
        ensures author { self.new.author ≡ self.old.author }
    {
        let command = word.command();
        if self.begun {
            return self.draft.read(word);
        }
        match command {
            Some(Command::Begin) => {
                self.begun = true;
                None
            }
            _ => Some(FaultKind::BeginProblemMissing),
        }
    }

    /// Notes that a word in this line is too long. An earlier fault stays.
    pub(crate) fn read_long(&mut self, line: u64)
        ensures fault { self.new.fault ≡ or_else self.old.fault (Some (fault_at WordTooLong line)) }
    {
        match self.fault {
            Some(_) => {}
            None => self.fault = Some(Fault::at(FaultKind::WordTooLong, line)),
        }
    }

    /// Records the text after a text word. Has no effect before the first problem.
    pub(crate) fn note(&mut self, keyword: TextWord, text: &Text)
        ensures { TakesLine self.old self.new keyword text.now }
    {
        if self.begun {
            match keyword {
                TextWord::Title => self.title = *text,
                TextWord::Author => self.author = *text,
                TextWord::Origin | TextWord::Remark => {}
            }
        }
    }

    /// Returns the item of this block if a word in this line closes it.
    pub(crate) fn item_at_close(&self, line: u64, last: Last) -> Item
        ensures { result ≡ item_of (entry_now self.now line) last }
    {
        match self.fault {
            Some(fault) => Item::Faulty(fault, last),
            None => self.draft.posed_item(&self.title, &self.author, line, last),
        }
    }

    /// Returns the item of this block if the input ends in it, in this line.
    pub(crate) fn item_at_end(&self, line: u64) -> Item
        ensures { result ≡ ended_item self.now line }
    {
        match self.fault {
            Some(fault) => Item::Faulty(fault, Last::Yes),
            None => {
                let kind = if self.begun {
                    FaultKind::EndProblemMissing
                } else {
                    FaultKind::BeginProblemMissing
                };
                Item::Faulty(Fault::at(kind, line), Last::Yes)
            }
        }
    }
}
