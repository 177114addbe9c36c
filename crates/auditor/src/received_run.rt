//! What a judge has received, which contracts alone know.

ghost use Rattle.std.specs.Prelude.{◌≡◌, ◌<◌, ◌+◌, ◌∷◌, [], ◌++◌, List, length};
ghost use Rattle.auditor.specs.{ReceivedRun.{nothing, log_begun, event_received, log_ended, transcript_begun, entry_received, transcript_ended, run_of}, Terms.terms_at};
ghost use Rattle.event_log.specs.declared.entry.Entry.{Entry as Shown};

use crate::{OpenedObject, StepJudge};
use event_log::{Entry, Event, Past, SeqObject, Series, Step};
use std::marker::Model;

/// Lists that contracts alone know, and how far the last of them have come.
#[derive(Drop)]
pub struct ReceivedRun<O: SeqObject, J: StepJudge<O>> {
    cpus: usize,
    objects: usize,
    count: usize,
    event: usize,
    cpu: usize,
    entry: usize,
    opened: Past<OpenedObject<O>>,
    judges: Past<J>,
    logs: Past<Series<Event<O>>>,
    events: Past<Event<O>>,
    transcripts: Past<Series<Entry<O>>>,
    entries: Past<Entry<O>>,
}

impl<O: SeqObject, J: StepJudge<O>> Model for ReceivedRun<O, J> {
    ghost use Rattle.std.specs.Prelude.{◌≡◌, length};
    ghost use Rattle.auditor.specs.{ReceivedRun.ReceivedRun, Terms.terms_with};

    ghost Value = { ReceivedRun J.State O O.Params O.Call O.Reply };

    ghost view = { λ t. record { cpus = t.cpus; objects = t.objects; count = t.count; opened = terms_with J.shows t.opened.items t.judges.items; logs = t.logs.items; events = t.events.items; transcripts = t.transcripts.items; entries = t.entries.items } };

    ghost invariant = { λ t. (t.event ≡ length t.events.items) × (t.cpu ≡ length t.transcripts.items) × (t.entry ≡ length t.entries.items) × (length t.judges.items ≡ length t.opened.items) };
}

/// One value more.
fn with_one<T>(past: &Past<T>, one: &T) -> Past<T>
    ensures { result.items ≡ past.now.items ++ one.now ∷ [] }
{
    Past::named(past, one)
}

/// One value alone.
pub fn of_one<T>(one: &T) -> Past<T>
    ensures { result.items ≡ one.now ∷ [] }
{
    Past::named(&Past::new(), one)
}

/// One behind the other.
fn joined<T>(past: &Past<T>, more: &Past<T>) -> Past<T>
    ensures { result.items ≡ past.now.items ++ more.now.items }
{
    Past::named(past, more)
}

/// One list more.
fn with_list<T>(past: &Past<Series<T>>, list: &Past<T>) -> Past<Series<T>>
    ensures { result.items ≡ past.now.items ++ list.now.items ∷ [] }
{
    Past::named(past, list)
}

/// Values that the caller names.
pub fn named<T>(past: &Past<T>) -> Past<T>
    ghost next: { List T }
    ensures { result.items ≡ next }
{
    Past::named(past, past)
}

impl<O: SeqObject, J: StepJudge<O>> ReceivedRun<O, J> {
    pub fn new(cpus: usize, objects: usize) -> ReceivedRun<O, J>
        ensures { result ≡ nothing cpus objects }
    {
        ReceivedRun {
            cpus,
            objects,
            count: 0,
            event: 0,
            cpu: 0,
            entry: 0,
            opened: Past::new(),
            judges: Past::new(),
            logs: Past::new(),
            events: Past::new(),
            transcripts: Past::new(),
            entries: Past::new(),
        }
    }

    /// How many CPUs the run has.
    pub fn cpus(&self) -> usize
        ensures { result ≡ self.now.cpus }
    {
        self.cpus
    }

    /// The place of the log's next event.
    pub fn event(&self) -> usize
        ensures { result ≡ length self.now.events }
    {
        self.event
    }

    /// The CPU whose entries come.
    pub fn cpu(&self) -> usize
        ensures { result ≡ length self.now.transcripts }
    {
        self.cpu
    }

    /// The CPU after it.
    pub fn next_cpu(&self) -> usize
        requires { length self.now.transcripts < self.now.cpus }
        ensures { result ≡ length self.now.transcripts + 1 }
    {
        // This number fits, so the one below it can be counted up.
        let _cpus = self.cpus;
        self.cpu + 1
    }

    /// The place of its next entry.
    pub fn entry(&self) -> usize
        ensures { result ≡ length self.now.entries }
    {
        self.entry
    }

    /// A log of that object, whose steps that one judge judges.
    pub fn receive_log(&mut self, opened: &OpenedObject<O>, judge: &Past<J>, count: usize)
        requires { length judge.now.items ≡ 1 }
        ensures { (j : J) → judge.now.items ≡ j ∷ [] → self.new ≡ log_begun self.old (terms_at opened.now (J.shows j)) count }
    {
        self.opened = with_one(&self.opened, opened);
        self.judges = joined(&self.judges, judge);
        self.count = count;
    }

    pub fn receive_event(&mut self, event: &Event<O>)
        requires { length self.old.events < self.old.count }
        ensures { self.new ≡ event_received self.old event.now }
    {
        self.events = with_one(&self.events, event);
        self.event += 1;
    }

    pub fn receive_log_end(&mut self)
        ensures { self.new ≡ log_ended self.old }
    {
        self.logs = with_list(&self.logs, &self.events);
        self.events = Past::new();
        self.event = 0;
        self.count = 0;
    }

    pub fn receive_transcript(&mut self, count: usize)
        ensures { self.new ≡ transcript_begun self.old count }
    {
        self.count = count;
    }

    pub fn receive_entry(&mut self, entry: &Entry<O>)
        requires { length self.old.entries < self.old.count }
        ensures { self.new ≡ entry_received self.old entry.now }
    {
        self.entries = with_one(&self.entries, entry);
        self.entry += 1;
    }

    /// An entry that the caller names by its object, its looks, the text behind them and the steps that were done.
    #[inline(always)]
    pub fn receive_recognised(&mut self, object: u8, looks: u64, tail: &[u8], steps: &Past<Step<O>>)
        ghost entry: { Shown O O.Params O.Call O.Reply }
        requires { length self.old.entries < self.old.count }
        ensures { self.new ≡ entry_received self.old entry }
    {
        let _ = object;
        let _ = looks;
        let _ = tail;
        let _ = steps;
        self.entries = named(&self.entries);
        self.entry += 1;
    }

    pub fn receive_transcript_end(&mut self)
        requires { length self.old.transcripts < self.old.cpus }
        ensures { self.new ≡ transcript_ended self.old }
    {
        self.transcripts = with_list(&self.transcripts, &self.entries);
        self.entries = Past::new();
        self.cpu += 1;
        self.entry = 0;
        self.count = 0;
    }

    /// The run, once all is whole.
    pub fn into_run(self) -> WholeRun<O>
        ensures { result ≡ run_of self }
    {
        let ReceivedRun {
            logs,
            transcripts,
            ..
        } = self;
        WholeRun { logs, transcripts }
    }
}

/// The lists of a whole run, which contracts alone know.
#[derive(Drop)]
pub struct WholeRun<O: SeqObject> {
    logs: Past<Series<Event<O>>>,
    transcripts: Past<Series<Entry<O>>>,
}

impl<O: SeqObject> Model for WholeRun<O> {
    ghost use Rattle.event_log.specs.declared.entry.Run.{Run};

    ghost Value = { Run O O.Params O.Call O.Reply };

    ghost view = { λ t. record { logs = t.logs.items; transcripts = t.transcripts.items } };
}
