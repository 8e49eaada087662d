// A set of held counts, a flag for each of 0 to 1,024, and how a traced call moves it. The set is an
// array, since there is no heap.
ghost use Rattle.std.specs.Prelude.{◌≡◌, ◌↔◌, ℕ, ◌≤◌, ◌<◌, true, MatchOption};
ghost use Rattle.judge.specs.Flags.{Has, Highest, Stored, landing, stores, directs, syncs, empties, halts, stops, Turned};

use card::limits;
use trace::{Claim, TracedCall};

// How many held counts there are: none, and each up to the largest capacity.
const COUNTS: usize = limits::CAPACITY_MOST + 1;

// Which counts of bytes a buffer of this capacity can hold.
#[derive(Drop)]
pub(crate) struct Counts {
    capacity: usize,
    flags: [bool; COUNTS],
    ghost small: { capacity ≤ 1024 },
}

impl Counts {
    // Nothing held.
    pub(crate) fn new(capacity: usize) -> Counts
        requires { capacity ≤ 1024 }
        ensures capacity { result.capacity ≡ capacity }
        ensures flags { (k : ℕ) → Has result.flags k ↔ (k ≡ 0) }
    {
        let mut flags = [false; COUNTS];
        flags[0] = true;
        Counts { capacity, flags }
    }

    // Whether so many bytes can be held.
    pub(crate) fn has(&self, count: usize) -> bool
        ensures { (result ≡ true) ↔ Has self.now.flags count }
    {
        count < COUNTS && self.flags[count]
    }

    // The most that can be held, if anything of this set can.
    fn highest(&self) -> Option<usize>
        ensures { MatchOption result ((k : ℕ) → Has self.now.flags k → ⊥) (Highest self.now.flags) }
    {
        self.flags.iter().rposition(|held| *held)
    }

    // Where a stored slice of n bytes leaves h held bytes.
    fn landing(&self, n: usize, h: usize) -> usize
        requires { (n < self.now.capacity) × (h ≤ 1024) }
        ensures { result ≡ landing self.now.capacity n h }
    {
        if h + n <= self.capacity { h + n } else { n }
    }

    // Whether a call says that its slice was stored.
    fn stores(&self, call: &TracedCall) -> bool
        ensures { result ≡ stores self.now.capacity call.now }
    {
        !call.flush
            && call.length < self.capacity
            && matches!(call.claim, Claim::Ok(m) if m == call.length)
    }

    // The flags at which these land, if the call's slice was stored. None if it was not.
    fn stored(&self, call: &TracedCall) -> [bool; COUNTS]
        ensures { Stored self.now.capacity call.now self.now.flags result }
    {
        let mut new = [false; COUNTS];
        if self.stores(call) {
            for (h, held) in self.flags.iter().enumerate() {
                if *held {
                    new[self.landing(call.length, h)] = true;
                }
            }
        }
        new
    }

    // Whether the call can leave nothing held.
    fn empties(&self, call: &TracedCall) -> bool
        ensures { result ≡ empties self.now.capacity call.now }
    {
        if call.flush {
            syncs(call.claim)
        } else {
            self.capacity <= call.length && directs(call.length, call.claim)
        }
    }

    // Whether a stopped flush can leave any count from 1 to `most`, the highest that was held.
    fn stops(&self, call: &TracedCall, most: usize) -> bool
        requires { (most ≤ 1024) × (call.now.length ≤ 16384) }
        ensures { result ≡ stops self.now.capacity call.now most }
    {
        halts(call.claim) && (call.flush || self.capacity < most + call.length)
    }

    // The counts after a call.
    pub(crate) fn turn(&mut self, call: &TracedCall)
        requires { call.now.length ≤ 16384 }
        ensures capacity { self.new.capacity ≡ self.old.capacity }
        ensures flags { Turned self.old.capacity call.now self.old.flags self.new.flags }
    {
        // An empty set stays empty.
        let Some(most) = self.highest() else {
            return;
        };
        self.flags = self.stored(call);
        self.flags[0] |= self.empties(call);
        if self.stops(call, most) {
            self.flags[1..=most].fill(true);
        }
    }
}

// Whether a device write of n bytes can say this.
fn directs(n: usize, claim: Claim) -> bool
    ensures { result ≡ directs n claim }
{
    match claim {
        Claim::Ok(m) => m <= n,
        Claim::Interrupted | Claim::Error(_) => true,
        Claim::Done | Claim::Zero => false,
    }
}

// Whether a device flush can say this.
fn syncs(claim: Claim) -> bool
    ensures { result ≡ syncs claim }
{
    matches!(claim, Claim::Done | Claim::Interrupted | Claim::Error(_))
}

// Whether a flush of the buffer that is stopped can say this.
fn halts(claim: Claim) -> bool
    ensures { result ≡ halts claim }
{
    matches!(claim, Claim::Zero | Claim::Error(_))
}
