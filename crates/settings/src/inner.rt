// The search for a rate by halving, and the setting of a node.
ghost use Rattle.std.specs.Prelude.{◌≡◌, ◌+◌, ◌≤◌, ◌<◌, min, leb};
ghost use Rattle.tables.specs.Halving.{halving};
ghost use Rattle.road.specs.Step.{passed};
ghost use Rattle.road.specs.Values.{junction_of, flows_of};
ghost use Rattle.settings.specs.Rate.{full_flows, gives, candidate, search};
ghost use Rattle.settings.specs.Tested.{tested, Offered};
ghost use Rattle.settings.specs.Setting.{held_limit, setting_for};

use crate::{Search, Setting};
use road::{Flows, Junction, Speed, Units};
use tables::Halved;

// The flows at full speed.
#[tactic(auto, unfolding(crate::specs::Rate::full_flows))]
fn full_flows(junction: Junction, rate: Units) -> Flows
    requires { junction.split.0 ≤ 65536 }
    ensures { flows_of result ≡ full_flows (junction_of junction) rate.0 }
{
    road::inner::flows_with(junction, rate, junction.link.full_speed)
}

// What the tries of one node and step share: D, T(D), S, min(l, C), f and r.
#[derive(Clone, Copy)]
struct Shared {
    sent: u32,
    beside: u32,
    supply: u32,
    most: u32,
    main: u32,
    ramp: u32,
}

impl Shared {
    // Whether no more of D than f passes, where D is more than f: D × S / R ≤ f exactly where D × S < (f + 1) × R, and (f + 1) × R may have
    // more than 64 bits.
    #[tactic(auto, using(crate::proofs::Products::products))]
    fn main_down(self, offered: u32) -> bool
        requires { self.main < self.sent }
        ensures { result ≡ leb (passed self.sent (self.beside + offered) self.supply) self.main }
    {
        let all = road::inner::product(self.sent, self.supply);
        let part = road::inner::product(self.main + 1, self.beside);
        all < part || all - part < road::inner::product(self.main + 1, offered)
    }

    // Whether no less of the offer than r passes: r ≤ d × S / R exactly where r × R ≤ d × S.
    fn ramp_up(self, offered: u32) -> bool
        requires { Offered self.beside self.supply self.ramp offered }
        ensures { result ≡ leb self.ramp (passed offered (self.beside + offered) self.supply) }
    {
        self.ramp <= self.supply
            && road::inner::product(self.ramp, self.beside)
                <= road::inner::product(offered, self.supply - self.ramp)
    }

    // One try: whether the rate is high enough.
    #[tactic(auto, using(crate::proofs::Products::products), unfolding(crate::specs::Tested::tested))]
    fn tested(self, rate: u32) -> bool
        ensures { result ≡ tested self.sent self.beside self.supply self.most self.main self.ramp rate }
    {
        let offered = self.most.min(rate);
        if self.sent <= self.main {
            return self.ramp <= offered && self.ramp_up(offered);
        }
        self.main_down(offered) && self.ramp_up(offered)
    }

    // The rates 0 to `top`, halved, with the tries counted: `low` and `more` above it are left. How many are left does not wait for the middle,
    // so that one try begins while the one before it ends.
    fn halved(self, top: u32) -> Halved
        ensures { result ≡ halving (tested self.sent self.beside self.supply self.most self.main self.ramp) top }
    {
        let mut low: u32 = 0;
        let mut more = top;
        let mut tries: u32 = 0;
        while 0 < more {
            let middle = low + more / 2;
            tries += 1;
            if self.tested(middle) {
                more = more / 2;
            } else {
                low = middle + 1;
                more = (more - 1) / 2;
            }
        }
        Halved {
            rate: low,
            tries: tries + 1,
        }
    }
}

// Whether the rate gives just the flows wanted.
#[tactic(auto, unfolding(crate::specs::Rate::gives))]
pub fn gives(junction: Junction, wanted: Flows, rate: Units) -> bool
    requires { junction.split.0 ≤ 65536 }
    ensures { result ≡ gives (junction_of junction) (flows_of wanted) rate.0 }
{
    full_flows(junction, rate) == wanted
}

// The rates 0 to C, halved.
#[tactic(auto, using(crate::proofs::Products::candidate_tested))]
pub fn candidate(junction: Junction, wanted: Flows) -> Halved
    requires { junction.split.0 ≤ 65536 }
    ensures { result ≡ candidate (junction_of junction) (flows_of wanted) }
{
    let sent = road::inner::sending(
        junction.link,
        junction.state.vehicles,
        junction.link.full_speed,
    );
    let shared = Shared {
        sent: sent.0,
        beside: road::inner::through(sent, junction.split).0,
        supply: junction.supply.0,
        most: junction.state.queue.0.min(junction.ramp.capacity.0),
        main: wanted.main.0,
        ramp: wanted.ramp.0,
    };
    shared.halved(junction.ramp.capacity.0)
}

// The search for a rate of 0 to C that gives the flows wanted at full speed.
#[tactic(auto, unfolding(crate::specs::Rate::search))]
pub fn search(junction: Junction, wanted: Flows) -> Search
    requires { junction.split.0 ≤ 65536 }
    ensures { result ≡ search (junction_of junction) (flows_of wanted) }
{
    let last = candidate(junction, wanted);
    let rate = Units(last.rate);
    Search {
        found: gives(junction, wanted, rate).then_some(rate),
        tries: last.tries,
    }
}

// The smallest limit at which the vehicles send the flow.
#[tactic(auto, using(crate::proofs::Settings::held_quotient))]
pub fn held_limit(vehicles: Units, flow: Units) -> Speed
    requires vehicles_bound { vehicles.0 ≤ 65536 }
    requires flow_le_vehicles { flow.0 ≤ vehicles.0 }
    ensures { result.0 ≡ held_limit vehicles.0 flow.0 }
{
    let n = vehicles.0 as u64;
    if n == 0 {
        return Speed(0);
    }
    Speed(((flow.0 as u64) * 65536).div_ceil(n) as u32)
}

// The setting that gives the flows wanted.
#[tactic(auto, using(crate::proofs::Rates::found_told), unfolding(crate::specs::Setting::setting_for))]
pub fn setting_for(junction: Junction, wanted: Flows) -> Setting
    requires split_bound { junction.split.0 ≤ 65536 }
    requires vehicles_bound { (junction.state.vehicles.0 ≤ 65536) × (wanted.main.0 ≤ junction.state.vehicles.0) }
    ensures { result ≡ setting_for (junction_of junction) (flows_of wanted) }
{
    let done = search(junction, wanted);
    let Some(rate) = done.found else {
        return Setting::Held(
            wanted.ramp,
            held_limit(junction.state.vehicles, wanted.main),
        );
    };
    Setting::Full(rate)
}
