use crate::entry::{Coming, Waiting};
use crate::sort::sort_by_place;
use queue::queue::Queue;

fn time_of(taken: Option<Coming>) -> Option<u64> {
    taken.map(|coming| coming.time)
}

#[test]
fn comes_out_by_time(rt: HostRuntime) {
    let mut slots = [Coming { time: 9, index: 9 }; 5];
    let mut queue = Queue::new(&mut slots, Coming::default());
    for time in [30, 10, 50, 20, 40] {
        assert!(rt; queue.insert(Coming { time, index: 1 }));
    }
    assert_eq!(rt; queue.len(), 5);
    for time in [10, 20, 30, 40, 50] {
        assert_eq!(rt; time_of(queue.first()), Some(time));
        assert_eq!(rt; time_of(queue.take_first()), Some(time));
    }
    assert!(rt; queue.is_empty());
    assert!(rt; queue.take_first().is_none());
}

#[test]
fn full_queue_refuses(rt: HostRuntime) {
    let mut slots = [Coming::default(); 2];
    let mut queue = Queue::new(&mut slots, Coming::default());
    assert!(rt; queue.insert(Coming { time: 7, index: 1 }));
    assert!(rt; queue.insert(Coming { time: 5, index: 2 }));
    assert!(rt; !queue.insert(Coming { time: 3, index: 3 }));
    assert_eq!(rt; queue.len(), 2);
    assert_eq!(rt; time_of(queue.take_first()), Some(5));
    assert_eq!(rt; time_of(queue.take_first()), Some(7));
}

#[test]
fn sorts_by_place_and_clears(rt: HostRuntime) {
    let at = Waiting {
        place: 3,
        since: 1,
        index: 0,
    };
    let mut list = [
        at,
        Waiting { since: 0, ..at },
        Waiting {
            place: 1,
            since: 8,
            index: 2,
        },
    ];
    let mut space = [at; 4];
    assert!(rt; sort_by_place(&mut list, &mut space));
    assert!(rt; list[0].place == 1 && list[1].since == 0 && list[2].since == 1);
    for slot in space {
        assert!(rt; slot.place == 0 && slot.since == 0 && slot.index == 0);
    }
}
