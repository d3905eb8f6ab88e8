// The running tally of a bulk: messages and cents, accepted and rejected. Cents may pass 64 bits, and never meet a number of messages.
#![tactic(auto)]

ghost use Rattle.std.specs.Prelude.{◌≡◌, ◌+◌, ◌^◌, ◌<◌, ◌≤◌};
ghost use Rattle.tally.specs.Tally.{nothing, cents_of, totals_of, with_accepted, with_rejected};
ghost use Rattle.tally.specs.Room.{Room, SideTold, most_counted};

// Cents, as the high and the low half: the sum of a bulk can need more than one word.
#[derive(Clone, Copy)]
pub struct Cents(pub u64, pub u64);

// A number of messages.
#[derive(Clone, Copy)]
pub struct Count(pub u32);

// Messages and what they come to.
#[derive(Clone, Copy)]
pub struct Side {
    pub number: Count,
    pub cents: Cents,
}

// What a bulk has come to so far.
#[derive(Clone, Copy)]
pub struct Tally {
    pub accepted: Side,
    pub rejected: Side,
}

impl Cents {
    // With an amount more.
    #[tactic(auto, using(crate::proofs::Laws::carry_fits))]
    pub fn plus(self, amount: u64) -> Cents
        requires { cents_of self + 2 ^ 64 ≤ 2 ^ 127 }
        ensures { cents_of result ≡ cents_of self + amount }
    {
        let (low, carried) = self.1.overflowing_add(amount);
        if carried {
            Cents(self.0 + 1, low)
        } else {
            Cents(self.0, low)
        }
    }
}

impl Count {
    // One more.
    pub fn next(self) -> Count
        requires { self.0 < most_counted }
        ensures { result.0 ≡ self.0 + 1 }
    {
        Count(self.0 + 1)
    }
}

impl Side {
    // No message yet.
    fn new() -> Side
        ensures { SideTold result 0 0 }
    {
        Side {
            number: Count(0),
            cents: Cents(0, 0),
        }
    }

    // With a message of this amount more.
    pub fn plus(self, amount: u64) -> Side
        requires { Room self.number.0 (cents_of self.cents) }
        ensures { SideTold result (self.number.0 + 1) (cents_of self.cents + amount) }
    {
        Side {
            number: self.number.next(),
            cents: self.cents.plus(amount),
        }
    }
}

impl Tally {
    // Before the first message.
    pub fn new() -> Tally
        ensures { totals_of result ≡ nothing }
    {
        Tally {
            accepted: Side::new(),
            rejected: Side::new(),
        }
    }

    // With a message more that was accepted.
    pub fn accept(self, amount: u64) -> Tally
        requires { Room (totals_of self).accepted_number (totals_of self).accepted_cents }
        ensures { totals_of result ≡ with_accepted (totals_of self) amount }
    {
        Tally {
            accepted: self.accepted.plus(amount),
            rejected: self.rejected,
        }
    }

    // With a message more that was rejected or fell. One function for both would take the side and match on it: no plainer.
    pub fn reject(self, amount: u64) -> Tally
        requires { Room (totals_of self).rejected_number (totals_of self).rejected_cents }
        ensures { totals_of result ≡ with_rejected (totals_of self) amount }
    {
        Tally {
            accepted: self.accepted,
            rejected: self.rejected.plus(amount),
        }
    }
}
