// Sequences of calls on bags of events.
use bag::Bag;
use bag::record::{Ranked, Tagged};
use bag_history::{Call, Entry, run};
use model::event::Event;

// The calls with their answers.
fn log_of(
    slots: &mut [Event],
    count: &mut usize,
    calls: &[Call<Event, Event>; 8],
) -> [Entry<Event, Event>; 8] {
    let mut log = [Entry::TakeFirst(None); 8];
    let mut bag = Bag::over(slots, count);
    let _ = run(&mut bag, calls, &mut log);
    log
}

#[cfg(test)]
mod tests {
    use super::*;
    use bag::refusal::Refusal;

    const FIRST: [Call<Event, Event>; 8] = [
        Call::TakeFirst,
        Call::Put(Event::Named(7)),
        Call::Put(Event::Named(8)),
        Call::Put(Event::Completion(1)),
        Call::Put(Event::Completion(2)),
        Call::TakeTag(Event::Completion(2)),
        Call::TakeFirst,
        Call::TakeFirst,
    ];

    const THEN: [Call<Event, Event>; 8] = [
        Call::Put(Event::Termination(5)),
        Call::Put(Event::Named(8)),
        Call::Put(Event::Named(9)),
        Call::TakeTag(Event::Named(8)),
        Call::TakeFirst,
        Call::TakeTag(Event::Named(8)),
        Call::TakeFirst,
        Call::TakeTag(Event::Named(8)),
    ];

    #[test]
    fn lowest_and_earliest_first(rt: HostRuntime) {
        let mut slots = [Event::Named(0); 3];
        let mut count = 0;
        assert_eq!(rt;
            log_of(&mut slots, &mut count, &FIRST),
            [
                Entry::TakeFirst(None),
                Entry::Put(Event::Named(7), Ok(())),
                Entry::Put(Event::Named(8), Ok(())),
                Entry::Put(Event::Completion(1), Ok(())),
                Entry::Put(Event::Completion(2), Err(Refusal::Full)),
                Entry::TakeTag(Event::Completion(2), None),
                Entry::TakeFirst(Some(Event::Completion(1))),
                Entry::TakeFirst(Some(Event::Named(7))),
            ]
        );
        assert_eq!(rt;
            log_of(&mut slots, &mut count, &THEN),
            [
                Entry::Put(Event::Termination(5), Ok(())),
                Entry::Put(Event::Named(8), Ok(())),
                Entry::Put(Event::Named(9), Err(Refusal::Full)),
                Entry::TakeTag(Event::Named(8), Some(Event::Named(8))),
                Entry::TakeFirst(Some(Event::Termination(5))),
                Entry::TakeTag(Event::Named(8), Some(Event::Named(8))),
                Entry::TakeFirst(None),
                Entry::TakeTag(Event::Named(8), None),
            ]
        );
        assert!(rt; count == 0);
    }

    const CALLS: [Call<Event, Event>; 8] = [
        Call::Put(Event::Completion(1)),
        Call::TakeFirst,
        Call::Put(Event::Completion(2)),
        Call::Put(Event::Completion(3)),
        Call::TakeTag(Event::Named(6)),
        Call::TakeFirst,
        Call::TakeFirst,
        Call::TakeFirst,
    ];

    // A count past the end: all slots hold records.
    #[test]
    fn count_past_the_end(rt: HostRuntime) {
        let mut slots = [Event::Named(5), Event::Named(6)];
        let mut count = 9;
        assert_eq!(rt;
            log_of(&mut slots, &mut count, &CALLS),
            [
                Entry::Put(Event::Completion(1), Err(Refusal::Full)),
                Entry::TakeFirst(Some(Event::Named(5))),
                Entry::Put(Event::Completion(2), Ok(())),
                Entry::Put(Event::Completion(3), Err(Refusal::Full)),
                Entry::TakeTag(Event::Named(6), Some(Event::Named(6))),
                Entry::TakeFirst(Some(Event::Completion(2))),
                Entry::TakeFirst(None),
                Entry::TakeFirst(None),
            ]
        );
        assert!(rt; count == 0);
    }

    // A count past the end where there are no slots.
    #[test]
    fn count_past_no_slots(rt: HostRuntime) {
        let mut slots = [Event::Named(5), Event::Named(6)];
        let mut count = 9;
        assert_eq!(rt;
            log_of(&mut slots[0..0], &mut count, &CALLS),
            [
                Entry::Put(Event::Completion(1), Err(Refusal::Full)),
                Entry::TakeFirst(None),
                Entry::Put(Event::Completion(2), Err(Refusal::Full)),
                Entry::Put(Event::Completion(3), Err(Refusal::Full)),
                Entry::TakeTag(Event::Named(6), None),
                Entry::TakeFirst(None),
                Entry::TakeFirst(None),
                Entry::TakeFirst(None),
            ]
        );
        assert!(rt; count == 9, "nothing changed");
    }
}
