ghost use Rattle.byte_words.specs.Answers.{Finds, Gives};
ghost use Rattle.report_read.specs.Reading.{added, empty_draft, finished, may_tell, may_enter, may_end};
ghost use Rattle.std.specs.Prelude.{◌≡◌, Some, None, Ok, Err, MatchResult};

use cdb_values::List;
use report_text::{EntryLine, FeedLine, Line, Report};
use std::alloc::{AllocError, Global};

/// What one line of a report says, by the part that it stands in.
#[derive(Drop)]
pub enum Item {
    Event(Line),
    Base(u64),
    Entry(EntryLine),
    Feed(FeedLine),
    End(u64),
}

/// What was read of a report so far.
#[derive(Drop)]
pub struct Draft {
    pub lines: List<Line>,
    pub base: Option<u64>,
    pub entries: List<EntryLine>,
    pub feeds: List<FeedLine>,
    pub end: Option<u64>,
}

/// A draft, where what was to be added was pushed. It is let go here where it was not, so that the
/// steps of its destructor are no part of who adds.
fn kept<T: Drop>(draft: T, pushed: Result<(), AllocError>) -> Result<Option<T>, AllocError>
    ensures { MatchResult pushed (λ _. result ≡ Ok (Some draft)) (λ e. result ≡ Err e) }
{
    match pushed {
        Ok(()) => Ok(Some(draft)),
        Err(stop) => Err(stop),
    }
}

/// No draft, where the part of an item has passed: both are let go.
fn refused<T: Drop, U: Drop>(_draft: T, _item: U) -> Result<Option<T>, AllocError>
    ensures { result ≡ Ok None }
{
    Ok(None)
}

impl Draft {
    /// The draft before the first line.
    pub fn new(alloc: Global) -> Draft
        ensures { result ≡ empty_draft }
    {
        Draft {
            lines: List::new(alloc),
            base: None,
            entries: List::new(alloc),
            feeds: List::new(alloc),
            end: None,
        }
    }

    /// Whether an event may come: no base, no entry, no feed and no end has.
    fn may_tell(&self) -> bool
        ensures { result ≡ may_tell self.now }
    {
        self.base.is_none() && self.entries.is_empty() && self.may_enter()
    }

    /// Whether an entry may come: no feed and no end has.
    fn may_enter(&self) -> bool
        ensures { result ≡ may_enter self.now }
    {
        self.feeds.is_empty() && self.may_end()
    }

    /// Whether a feed or the end may come: no end has.
    fn may_end(&self) -> bool
        ensures { result ≡ may_end self.now }
    {
        self.end.is_none()
    }

    /// The draft with one more item; `None` where the item's part has passed. The error is want of memory.
    #[tactic(auto, unfolding(crate::specs::Reading::added))]
    pub fn add(self, item: Item) -> Result<Option<Draft>, AllocError>
        ensures { Gives (λ d. d) result (added self item) }
    {
        match item {
            Item::Event(line) => self.add_event(line),
            Item::Base(position) => Ok(self.add_base(position)),
            Item::Entry(entry) => self.add_entry(entry),
            Item::Feed(feed) => self.add_feed(feed),
            Item::End(position) => Ok(self.add_end(position)),
        }
    }

    /// The draft with a line of a session, where such a line may come.
    #[tactic(auto, unfolding(crate::specs::Reading::added))]
    fn add_event(mut self, line: Line) -> Result<Option<Draft>, AllocError>
        ensures { Gives (λ d. d) result (added self (Item.Event line)) }
    {
        if self.may_tell() {
            let pushed = self.lines.push(line);
            kept(self, pushed)
        } else {
            refused(self, line)
        }
    }

    /// The draft with its base, where it may come.
    #[tactic(auto, unfolding(crate::specs::Reading::added))]
    fn add_base(mut self, position: u64) -> Option<Draft>
        ensures { Finds (λ d. d) result (added self (Item.Base position)) }
    {
        if self.may_tell() {
            self.base = Some(position);
            Some(self)
        } else {
            None
        }
    }

    /// The draft with an entry, where one may come.
    #[tactic(auto, unfolding(crate::specs::Reading::added))]
    fn add_entry(mut self, entry: EntryLine) -> Result<Option<Draft>, AllocError>
        ensures { Gives (λ d. d) result (added self (Item.Entry entry)) }
    {
        if self.may_enter() {
            let pushed = self.entries.push(entry);
            kept(self, pushed)
        } else {
            refused(self, entry)
        }
    }

    /// The draft with a line of a feed, where one may come.
    #[tactic(auto, unfolding(crate::specs::Reading::added))]
    fn add_feed(mut self, feed: FeedLine) -> Result<Option<Draft>, AllocError>
        ensures { Gives (λ d. d) result (added self (Item.Feed feed)) }
    {
        if self.may_end() {
            let pushed = self.feeds.push(feed);
            kept(self, pushed)
        } else {
            refused(self, feed)
        }
    }

    /// The draft with its end, where it may come.
    #[tactic(auto, unfolding(crate::specs::Reading::added))]
    fn add_end(mut self, position: u64) -> Option<Draft>
        ensures { Finds (λ d. d) result (added self (Item.End position)) }
    {
        if self.may_end() {
            self.end = Some(position);
            Some(self)
        } else {
            None
        }
    }

    /// The report that was read; `None` where its end was not.
    #[tactic(auto, unfolding(crate::specs::Reading::finished))]
    pub fn finish(self) -> Option<Report>
        ensures { Finds (λ r. r) result (finished self) }
    {
        let end = self.end?;
        Some(Report {
            lines: self.lines,
            base: self.base,
            entries: self.entries,
            feeds: self.feeds,
            end,
        })
    }
}
