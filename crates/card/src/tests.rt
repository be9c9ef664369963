use crate::{Card, Refusal};
use model::Booking;

// 0 where a call is done.
fn number(answer: Result<(), Refusal>) -> u8 {
    match answer {
        Ok(()) => 0,
        Err(e) => e.number(),
    }
}

#[test]
fn refuses_past_each_edge(rt: HostRuntime) {
    let mut card = Card::new();
    assert_eq!(rt; number(card.stretch(33)), 17);
    assert_eq!(rt; number(card.stretch(32)), 0);
    assert_eq!(rt; number(card.book(64, 0)), 12);
    assert_eq!(rt; number(card.book(63, 32)), 13);
    assert_eq!(rt; number(card.book(63, 31)), 0);
    assert_eq!(rt; number(card.book(63, 31)), 14);
    assert_eq!(rt; number(card.stretch(31)), 18);
    assert_eq!(rt; number(card.release(63, 99999)), 16);
}

#[test]
fn takes_sixteen_bookings(rt: HostRuntime) {
    let mut card = Card::new();
    assert_eq!(rt; number(card.stretch(1)), 0);
    for action in 0..16 {
        assert_eq!(rt; number(card.book(action, 0)), 0);
    }
    assert_eq!(rt; number(card.book(15, 0)), 14);
    assert_eq!(rt; number(card.book(16, 0)), 15);
    assert_eq!(rt; card.booked_for(0), 0xffff);
}

fn in_round_one(action: u8) -> Option<Booking> {
    Some(Booking { action, round: 1 })
}

#[test]
fn keeps_the_order(rt: HostRuntime) {
    let mut card = Card::new();
    assert_eq!(rt; number(card.stretch(2)), 0);
    for action in 0..4 {
        assert_eq!(rt; number(card.book(action, 1)), 0);
    }
    assert_eq!(rt; number(card.release(1, 1)), 0);
    assert!(rt; card.booking(0) == in_round_one(0));
    assert!(rt; card.booking(1) == in_round_one(2));
    assert!(rt; card.booking(2) == in_round_one(3));
    assert!(rt; card.booking(3).is_none());
}
