//! Made lists of events, of which a book and the model make the same.

use crate::model::Model;
use crate::searches::{End, is_accepted, plain_least, refusal_number, search};
use crate::texts::{agrees, begun, columns, scenario};
use lf_book::{Book, Deepened, Event, Job, Reply, Taken};
use lf_outcome::Scenario;
use lf_tree::{read_tree, to_text};
use std::alloc::Global;
use std::process::Abort;
use std::sync::Arc;

/// Numbers that look as if drawn, of which each follows from the last.
#[derive(Drop)]
struct Numbers {
    last: u64,
}

impl Numbers {
    /// A number below a bound, which isn't 0.
    fn below(&mut self, bound: u64) -> u64 {
        self.last = self
            .last
            .wrapping_mul(6_364_136_223_846_793_005)
            .wrapping_add(1_442_695_040_888_963_407);
        (self.last >> 33) % bound.max(1)
    }

    /// An event of a book whose user holds so many jobs.
    fn event(&mut self, held: usize) -> Event {
        let place = self.below((held as u64).saturating_add(1)) as usize;
        match self.below(32) {
            0..12 => Event::Take,
            12..22 => Event::File(place),
            22..25 => Event::GiveBack(place),
            25..31 => Event::Deepen,
            _ => Event::Reclaim,
        }
    }
}

/// A scenario with a greatest number of sets.
fn bounded(alloc: Global, numbers: &str, lines: &str, most: &str) -> Option<Arc<Scenario>> {
    match format!(in alloc; "{lines};max_sets = {most}") {
        Ok(lines) => scenario(alloc, numbers, lines.as_str()),
        Err(_) => None,
    }
}

/// The scenario of a book, one that equals it, and another.
#[derive(Drop)]
struct Scenarios {
    own: Arc<Scenario>,
    equal: Arc<Scenario>,
    other: Arc<Scenario>,
}

impl Scenarios {
    /// Those of a row: the other has another greatest number of sets.
    fn of(alloc: Global, row: &str) -> Option<Scenarios> {
        let (numbers, rest) = columns(row);
        let (lines, most) = columns(rest);
        match (
            bounded(alloc, numbers, lines, most),
            bounded(alloc, numbers, lines, most),
            bounded(alloc, numbers, lines, "99999"),
        ) {
            (Some(own), Some(equal), Some(other)) => Some(Scenarios { own, equal, other }),
            _ => None,
        }
    }

    /// One of them, by a number.
    fn one(&self, number: u64) -> &Arc<Scenario> {
        match number {
            0 => &self.other,
            1 => &self.equal,
            _ => &self.own,
        }
    }
}

/// A book with the model beside it, the jobs that are held, and the events so far with the replies to them.
#[derive(Drop)]
struct Play<'a> {
    alloc: Global,
    scenarios: &'a Scenarios,
    book: Book,
    model: Model,
    jobs: Vec<Job>,
    events: Vec<Event>,
    replies: Vec<Reply>,
}

impl<'a> Play<'a> {
    /// A new book.
    fn begin(alloc: Global, scenarios: &'a Scenarios) -> Option<Play<'a>> {
        match (begun(alloc, &scenarios.own), Model::begin(alloc)) {
            (Some(book), Ok(model)) => Some(Play {
                alloc,
                scenarios,
                book,
                model,
                jobs: Vec::new(alloc),
                events: Vec::new(alloc),
                replies: Vec::new(alloc),
            }),
            _ => None,
        }
    }

    /// What a take is replied. None where the book and the model differ, and so below.
    fn take(&mut self) -> Option<Reply> {
        let Ok(taken) = self.book.take() else {
            return None;
        };
        let reply = self.model.take(&taken)?;
        if let Taken::Job(job) = taken {
            self.jobs.push(job).ok()?;
        }
        Some(reply)
    }

    /// What the finding of a job is replied.
    fn file(&mut self, job: &Job) -> Option<Reply> {
        let own = &self.scenarios.own;
        let is_same = job.scenario().same(own);
        let wanted = self.model.file(self.alloc, own, job, is_same);
        match (refusal_number(&mut self.book, job), wanted) {
            (Some(0), Ok(0)) => Some(Reply::Filed),
            (Some(found), Ok(wanted)) if found == wanted => Some(Reply::Refused(found)),
            _ => None,
        }
    }

    /// What is replied where a job is given back.
    fn give_back(&mut self, job: Job) -> Option<Reply> {
        let is_same = job.scenario().same(&self.scenarios.own);
        let is_given = self.model.give_back(&job, is_same);
        match self.book.give_back(job) {
            Ok(()) if is_given => Some(Reply::GaveBack),
            Err(_job) if !is_given => Some(Reply::NotGiven),
            _ => None,
        }
    }

    /// What `deepen` is replied.
    fn deepen(&mut self) -> Option<Reply> {
        let own = &self.scenarios.own;
        let wanted = self.model.deepen(&own.setting().spec, own.max_sets());
        let found = self.book.deepen();
        if found == wanted {
            Some(Reply::Deepened(found))
        } else {
            None
        }
    }

    /// What an event is replied.
    fn reply(&mut self, event: Event) -> Option<Reply> {
        match event {
            Event::Take => self.take(),
            Event::File(place) if place < self.jobs.len() => {
                let job = self.jobs.remove(place);
                self.file(&job)
            }
            Event::GiveBack(place) if place < self.jobs.len() => {
                let job = self.jobs.remove(place);
                self.give_back(job)
            }
            Event::File(_) | Event::GiveBack(_) => Some(Reply::NoJob),
            Event::Deepen => self.deepen(),
            Event::Reclaim => {
                self.book.reclaim();
                self.model.reclaim();
                Some(Reply::Reclaimed)
            }
        }
    }

    /// What a made event is replied.
    fn reply_to_made(&mut self, numbers: &mut Numbers) -> Option<Reply> {
        let event = numbers.event(self.jobs.len());
        match self.events.push(event) {
            Ok(()) => self.reply(event),
            Err(_) => None,
        }
    }

    /// A job as another book might have it.
    fn another(&self, numbers: &mut Numbers) -> Option<Job> {
        let ticket = numbers.below(self.model.next).saturating_add(1);
        let known = numbers.below(self.model.sets.len() as u64) as usize;
        let place = match self.model.claimed_by(ticket) {
            Some(place) if numbers.below(4) > 0 => place,
            _ => known,
        };
        let scenario = self.scenarios.one(numbers.below(5));
        let change = numbers.below(10);
        self.model.job(self.alloc, scenario, place, ticket, change)
    }

    /// What is replied to a job or its finding as another book might bring it.
    fn reply_to_another(&mut self, numbers: &mut Numbers) -> Option<Reply> {
        let job = self.another(numbers)?;
        if numbers.below(3) == 0 {
            self.give_back(job)
        } else {
            self.file(&job)
        }
    }

    /// Whether the book and the model reply the same to one event more, or to a job or its finding of another book where there may be any.
    fn goes_on(&mut self, numbers: &mut Numbers, has_others: bool) -> bool {
        let reply = if has_others && numbers.below(3) == 0 {
            self.reply_to_another(numbers)
        } else {
            self.reply_to_made(numbers)
        };
        match reply {
            Some(reply) => {
                self.book.counts() == self.model.counts() && self.replies.push(reply).is_ok()
            }
            None => false,
        }
    }

    /// What a made list comes to. None where the book and the model differ in it.
    fn through(alloc: Global, scenarios: &'a Scenarios, list: u64) -> Option<Play<'a>> {
        let mut play = Play::begin(alloc, scenarios)?;
        if play.goes_through(list) {
            Some(play)
        } else {
            None
        }
    }

    /// Whether the book and the model reply the same to a made list of events, in every other list with jobs and findings of other books
    /// among them.
    fn goes_through(&mut self, list: u64) -> bool {
        let mut numbers = Numbers { last: list };
        for _ in 0..60 {
            if !self.goes_on(&mut numbers, list % 2 == 0) {
                return false;
            }
        }
        list % 2 == 0 || self.is_driven()
    }

    /// Whether a new book is driven through the events with the same replies.
    fn is_driven(&self) -> bool {
        let Some(mut driven) = begun(self.alloc, &self.scenarios.equal) else {
            return false;
        };
        match driven.drive(self.events.as_slice()) {
            Ok(replies) => replies == self.replies && driven.counts() == self.book.counts(),
            Err(_) => false,
        }
    }
}

/// The bit of a reply among those that are met.
fn bit(reply: &Reply) -> u32 {
    let place = match reply {
        Reply::Took(_) => 0,
        Reply::Busy => 1,
        Reply::LevelDone => 2,
        Reply::Finished => 3,
        Reply::Filed => 4,
        Reply::Refused(1) => 5,
        Reply::Refused(2) => 6,
        Reply::Refused(_) => 7,
        Reply::GaveBack => 9,
        Reply::NotGiven => 10,
        Reply::Deepened(Deepened::NotDone) => 11,
        Reply::Deepened(Deepened::Answer) => 12,
        Reply::Deepened(Deepened::NoneWithin) => 13,
        Reply::Deepened(Deepened::Full { .. }) => 14,
        Reply::Deepened(Deepened::Down) => 15,
        Reply::Reclaimed => 16,
        Reply::NoJob => 17,
        Reply::Spent => 18,
    };
    1u32.wrapping_shl(place)
}

/// The bits of replies.
fn bits(replies: &[Reply]) -> u32 {
    let mut met = 0;
    for reply in replies {
        met |= bit(reply);
    }
    met
}

/// The text of a book's tree, which is empty where the search hasn't ended.
fn tree_text(alloc: Global, book: Book) -> Option<Vec<u8>> {
    match book.into_tree() {
        Ok(tree) => to_text(alloc, &tree).ok(),
        Err(_) => Some(Vec::new(alloc)),
    }
}

/// Whether the tree of a text is accepted.
fn is_read(alloc: Global, scenario: &Scenario, text: &[u8]) -> bool {
    match read_tree(alloc, text) {
        Ok(tree) => is_accepted(alloc, scenario, &tree),
        Err(_) => false,
    }
}

/// Whether a search may come to this end, with this text of its tree: the answer is the first least set by plain runs, and the tree is
/// accepted; or the search hasn't ended.
fn is_right(alloc: Global, scenario: &Scenario, end: &End, text: &[u8]) -> bool {
    let Some(least) = plain_least(alloc, scenario) else {
        return false;
    };
    match end {
        Ok(answer) => {
            answer.as_ref() == least.as_slice().first() && is_read(alloc, scenario, text)
        }
        Err(_) => text.is_empty(),
    }
}

/// The end of a search that is made straight on, and the text of its tree.
fn straight(alloc: Global, scenario: &Arc<Scenario>) -> Option<(End, Vec<u8>)> {
    let mut book = begun(alloc, scenario)?;
    let end = search(&mut book)?;
    let text = tree_text(alloc, book)?;
    if is_right(alloc, scenario, &end, text.as_slice()) {
        Some((end, text))
    } else {
        None
    }
}

/// The scenarios of a row, the end of a search that is made straight on, and the text of its tree.
#[derive(Drop)]
struct Case {
    scenarios: Scenarios,
    end: End,
    tree: Vec<u8>,
}

impl Case {
    /// That of a row.
    fn of(alloc: Global, row: &str) -> Option<Case> {
        let scenarios = Scenarios::of(alloc, row)?;
        let (end, tree) = straight(alloc, &scenarios.own)?;
        Some(Case {
            scenarios,
            end,
            tree,
        })
    }

    /// Whether the search of a book comes to the same end, with the same tree, once its claims are opened.
    fn ends(&self, alloc: Global, book: Book) -> bool {
        let mut book = book;
        book.reclaim();
        if search(&mut book) != Some(self.end) {
            return false;
        }
        match tree_text(alloc, book) {
            Some(text) => text == self.tree,
            None => false,
        }
    }
}

/// The bits of the replies to a made list. None where there is no case, where the book and the model differ, or where the search comes to
/// another end after the list.
fn met(alloc: Global, case: &Option<Case>, list: u64) -> Option<u32> {
    let case = case.as_ref()?;
    let play = Play::through(alloc, &case.scenarios, list)?;
    let met = bits(play.replies.as_slice());
    let Play { book, .. } = play;
    if case.ends(alloc, book) {
        Some(met)
    } else {
        None
    }
}

/// The made lists of a scenario: whatever they did, the search comes to the same end, with the same tree.
fn lists_agree(rt: &impl Abort, alloc: Global, lists: u64, row: &str) -> u32 {
    let case = Case::of(alloc, row);
    let mut bits = 0;
    for list in 0..lists {
        let met = met(alloc, &case, list);
        assert!(rt; met.is_some(), "list {list} of {row}");
        bits |= met.unwrap_or(0);
    }
    bits
}

/// The made lists of all scenarios of a table. Each row has the bounds, the further lines, and the greatest number of sets.
fn tables_agree(rt: &impl Abort, alloc: Global, lists: u64, table: &str) -> u32 {
    let mut met = 0;
    for row in table.lines() {
        met |= lists_agree(rt, alloc, lists, row);
    }
    met
}

/// With an answer and without one, and with too many sets on the first level: all replies but that tickets are spent.
const ENDS: &str = concat!(
    "3 4 3 0 2|protocol = \"retry\";tries = 1;outcome = \"delivered\"|99\n",
    "2 3 0 2 2|protocol = \"retry\";tries = 2;spread = 3;outcome = [\"shows\", 1, 2, \"lacks\"]|99\n",
    "3 4 3 0 3|protocol = \"retry\";tries = 3;outcome = \"delivered\"|5\n",
    "2 2 0 0 0|protocol = \"retry\";tries = 1;outcome = \"delivered\"|1\n",
);

#[test]
fn made_lists_to_each_end(rt: HostRuntime) {
    let met = tables_agree(&rt, rt.alloc(), 250, ENDS);
    agrees(&rt, met == 0b11_1111_1110_1111_1111, "the replies met");
}

#[test]
fn made_lists_over_deliveries(rt: HostRuntime) {
    let table = concat!(
        "2 3 2 1 2|protocol = \"retry\";tries = 2;outcome = \"delivered\"|99\n",
        "2 3 1 2 3|protocol = \"retry\";tries = 1;outcome = \"delivered\"|99\n",
        "3 4 3 0 3|protocol = \"retry\";tries = 3;outcome = \"delivered\"|14\n",
        "2 1 0 0 0|protocol = \"retry\";tries = 1;outcome = \"delivered\"|1\n",
    );
    let _met = tables_agree(&rt, rt.alloc(), 250, table);
}

#[test]
fn made_lists_over_repeated_sendings(rt: HostRuntime) {
    let table = concat!(
        "3 3 2 0 2|protocol = \"redundant\";tries = 3;outcome = \"delivered\"|99\n",
        "2 4 2 1 2|protocol = \"redundant\";tries = 3;outcome = \"delivered\";pauses = 2;pause_length = 2|30\n",
    );
    let _met = tables_agree(&rt, rt.alloc(), 60, table);
}

#[test]
fn made_lists_over_commits(rt: HostRuntime) {
    let table = concat!(
        "2 4 1 1 2|protocol = \"two_phase\";patience = 2;outcome = \"unblocked\";pauses = 1;pause_length = 2|99\n",
        "2 4 1 1 2|protocol = \"two_phase\";patience = 2;outcome = \"agreement\"|99\n",
        "3 4 1 1 1|protocol = \"three_phase\";patience = 2;outcome = \"agreement\";pauses = 1|99\n",
    );
    let _met = tables_agree(&rt, rt.alloc(), 60, table);
}

#[test]
fn made_lists_over_primaries(rt: HostRuntime) {
    let table = concat!(
        "3 3 1 1 2|protocol = \"primary_backup\";patience = 2;outcome = \"one_primary\"|99\n",
        "3 4 1 1 1|protocol = \"primary_backup\";patience = 2;outcome = \"durable\";pauses = 3|99\n",
    );
    let _met = tables_agree(&rt, rt.alloc(), 60, table);
}
