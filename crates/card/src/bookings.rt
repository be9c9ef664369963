// The table of a card's bookings, in the order of booking.
ghost use Rattle.std.specs.Prelude.{◌≡◌, ◌+◌, ◌<◌, ◌≤◌, [], ◌∷◌, ◌++◌, length, Decides, MatchBool, slice_set};
ghost use Rattle.std.specs.List.{remove};
ghost use Rattle.model.specs.Ledgers.{slot};
ghost use Rattle.model.specs.Bookings.{BookedFor, AllOf};
ghost use Rattle.card.specs.Tables.{listed, Fit, Clear, Small, Place, Late};

use model::Booking;

pub const ROOM: usize = 16;

const EMPTY: Booking = Booking {
    action: 0,
    round: 0,
};

// The first `len` slots are in use, the others are empty. A plain struct in place, as the rules ask: it takes no memory, and
// the card that holds it has the invariant.
#[derive(Clone, Copy)]
pub struct Bookings {
    pub slots: [Booking; ROOM],
    pub len: usize,
}

impl Bookings {
    pub fn none() -> Bookings
        ensures fit { Fit result }
        ensures clear { Clear result }
        ensures listed { listed result ≡ [] }
    {
        Bookings {
            slots: [EMPTY; ROOM],
            len: 0,
        }
    }

    pub fn is_full(&self) -> bool
        ensures { MatchBool result (16 ≤ self.now.len) (self.now.len < 16) }
    {
        self.len >= ROOM
    }

    // The slot is lent, as the rules ask of the table's own methods.
    fn put(&mut self, i: usize, b: Booking)
        requires { i < 16 }
        ensures slots { self.new.slots ≡ slice_set self.old.slots i b }
        ensures len { self.new.len ≡ self.old.len }
    {
        let slot = &mut self.slots[i];
        *slot = b;
    }

    pub fn push(&mut self, b: Booking)
        requires fit { Fit self.old }
        requires clear { Clear self.old }
        requires room { self.old.len < 16 }
        ensures fit { Fit self.new }
        ensures clear { Clear self.new }
        ensures listed { listed self.new ≡ listed self.old ++ (b ∷ []) }
    {
        let at = self.len;
        self.put(at, b);
        self.len = at + 1;
    }

    // The bookings behind place `i` move down by one. A loop by place, since the rules ask that one slot is lent at a time.
    pub fn remove(&mut self, i: usize)
        requires fit { Fit self.old }
        requires clear { Clear self.old }
        requires within { i < self.old.len }
        ensures fit { Fit self.new }
        ensures clear { Clear self.new }
        ensures listed { listed self.new ≡ remove (listed self.old) i }
    {
        let last = self.len - 1;
        for j in i..last {
            let next = self.slots[j + 1];
            let slot = &mut self.slots[j];
            *slot = next;
        }
        self.put(last, EMPTY);
        self.len = last;
    }

    // The bookings that stand, in order.
    pub fn as_slice(&self) -> &[Booking]
        requires { Fit self.now }
        ensures listed { result.now ≡ listed self.now }
        ensures few { length result.now ≤ 16 }
    {
        &self.slots[..self.len]
    }

    // Where the action is booked for the round.
    pub fn find(&self, action: u32, round: u32) -> Option<usize>
        requires { Fit self.now }
        ensures { Place (listed self.now) (slot action round) result }
    {
        self.as_slice()
            .iter()
            .position(|b| b.action as u32 == action && b.round as u32 == round)
    }

    // Whether a booking stands in round `k` or later.
    pub fn reaches(&self, k: u32) -> bool
        requires { Fit self.now }
        ensures { Decides result (Late k (listed self.now)) }
    {
        self.as_slice().iter().any(|b| b.round as u32 >= k)
    }

    // The actions booked for the round, as a set.
    pub fn actions_in(&self, round: u8) -> u64
        requires fit { Fit self.now }
        requires small { Small (listed self.now) }
        ensures { BookedFor (listed self.now) round result }
    {
        let mut actions = 0;
        for b in self.as_slice() {
            if b.round == round {
                actions |= 1 << b.action;
            }
        }
        actions
    }

    // Whether every booking of `other` stands here too.
    pub fn has_all_of(&self, other: &Bookings) -> bool
        requires fit { Fit self.now }
        requires other_fit { Fit other.now }
        ensures { Decides result (AllOf (listed other.now) (listed self.now)) }
    {
        other
            .as_slice()
            .iter()
            .all(|b| self.find(b.action as u32, b.round as u32).is_some())
    }
}
