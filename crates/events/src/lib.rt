// The run's decisions over a prepared list of events, each an assembly's or a solve's, with no graph behind them.
#![tactic(auto)]

ghost use Rattle.std.specs.Prelude.{◌≡◌};
ghost use Rattle.decisions.specs.Run.{begun};
ghost use Rattle.events.specs.Driven.{event_of, events_of, settled, after_event, driven};

use decisions::{Assembly, Next, Numerical, Raw, Why};
use numbers::Refusal;

// What a prepared list tells: how an assembly ended, or what a solve came to.
#[derive(Clone, Copy)]
pub enum Event {
    Assembled(Assembly),
    Solved(Raw),
}

// Events by number, as C hands them over (`pgo_decide`); any other number is a trial whose cost could not be had, so none is left to refuse.
const REFUSED: u32 = 0;

const FLAT: u32 = 1;

const FAILED: u32 = 2;

const SMALL: u32 = 3;

const PRICED: u32 = 4;

const RETRACTION: u32 = 5;

pub fn event_of(number: u32, price: f32) -> Event
    ensures { result ≡ event_of number price }
{
    if number == REFUSED {
        return Event::Assembled(Assembly::Refused(Refusal {
            number: 21,
            place: 0,
        }));
    }
    if number == FLAT {
        return Event::Assembled(Assembly::Flat);
    }
    if number == FAILED {
        return Event::Solved(Raw::Failed);
    }
    if number == SMALL {
        return Event::Solved(Raw::Small);
    }
    if number == PRICED {
        return Event::Solved(Raw::Priced(price));
    }
    if number == RETRACTION {
        return Event::Solved(Raw::Numerical(Numerical::Retraction));
    }
    Event::Solved(Raw::Numerical(Numerical::Unpriced))
}

// Budget at the top needs no event.
pub fn settle(limit: u32, n: Next) -> Next
    ensures { result ≡ settled limit n }
{
    let Next::On(s) = n else {
        return n;
    };
    let fresh = s.fresh;
    if fresh & decisions::at_limit(s, limit) {
        Next::Over(s, Ok(Why::Budget))
    } else {
        n
    }
}

// An assembly's event is passed over where none is due; before a solve's, an assembly that goes well is implied.
pub fn after_event(limit: u32, tolerance: f32, n: Next, v: Event) -> Next
    ensures { result ≡ after_event limit tolerance n v }
{
    let Next::On(s) = n else {
        return n;
    };
    match v {
        Event::Assembled(a) => {
            let fresh = s.fresh;
            if fresh {
                decisions::turn(s, limit, tolerance, a, Raw::Failed)
            } else {
                n
            }
        }
        Event::Solved(e) => decisions::turn(s, limit, tolerance, Assembly::Steep, e),
    }
}

// The run over event numbers, each with the price at its place.
pub fn drive(
    limit: u32,
    tolerance: f32,
    cost: f32,
    damping: f32,
    events: &[u32],
    prices: &[f32],
) -> Next
    ensures { result ≡ driven limit tolerance (Next.On (begun cost damping)) (events_of events.now prices.now) }
{
    let mut n = Next::On(decisions::begin(cost, damping));
    for i in 0..events.len() {
        let v = event_of(events[i], numbers::at(prices, i));
        n = after_event(limit, tolerance, settle(limit, n), v);
    }
    settle(limit, n)
}
