//! A list of events that a store runs.
use crate::support::new_store;
use doc_store::{Command, CopyState, Event, Pump, Refusal, Reply, Transaction};
use doc_tree::Tree;
use std::alloc::Global;
use std::process::Abort;

/// The creation of the document d.
fn creation(rt: &impl Abort, alloc: Global) -> Event {
    Event::Run(Transaction::Single(Command::Create {
        name: String::from_str(alloc, "d").expect(rt, "memory"),
        schema: Tree::Bool(true),
        doc: Tree::Null,
    }))
}

/// Adds an event to others.
fn add(rt: &impl Abort, events: &mut Vec<Event>, event: Event) {
    events.push(event).expect(rt, "memory");
}

/// Creations of d, twice, and a step of a copy.
fn three(rt: &impl Abort, alloc: Global) -> Vec<Event> {
    let mut events = Vec::new(alloc);
    add(rt, &mut events, creation(rt, alloc));
    add(rt, &mut events, creation(rt, alloc));
    add(rt, &mut events, Event::Pump(1));
    events
}

/// What a new store says to the events.
fn replies(rt: &impl Abort, alloc: Global, events: Vec<Event>) -> Vec<Reply> {
    new_store(rt, alloc).run(events).expect(rt, "memory")
}

/// That the first creation is made, the second refused, and the copy done at its first step.
fn assert_copied(rt: &impl Abort, said: &[Reply]) {
    let pump = Pump {
        written: 1,
        copy: CopyState::Switched,
    };
    let wanted = [
        Reply::Done(1),
        Reply::Refused(Refusal::plain(20)),
        Reply::Pumped(pump),
    ];
    assert_eq!(rt; said, wanted.as_slice());
}

#[test]
fn each_event_has_its_reply(rt: HostRuntime) {
    let events = three(&rt, rt.alloc());
    assert_copied(&rt, &replies(&rt, rt.alloc(), events));
}
