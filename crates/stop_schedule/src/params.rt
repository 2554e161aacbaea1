ghost use Rattle.std.specs.Prelude.{◌≡◌, ℕ, ◌+◌, ◌*◌, ◌/◌, ◌<◌, ◌≤◌, ◌^◌, OnSome, IfSome, IfNone};
ghost use Rattle.road_graph.specs.Limits.{far};
ghost use Rattle.stop_schedule.specs.Rates.{AreInRange, AreOfNumbers, AreOutOfRange, trip_limit, usual};
ghost use Rattle.stop_schedule.specs.Times.{halt_time};

use road_graph::NodeNo;
use std::marker::Model;

/// What times, limits and costs are reckoned with, each in its range. Times are in the units of the roads' weights.
#[derive(Clone, Copy, Debug, PartialEq, Eq)]
pub struct Params {
    stop: u64,
    wait: u64,
    trip_num: u64,
    trip_den: u64,
    trip_add: u64,
    wait_weight: u64,
    trip_weight: u64,
}

impl Model for Params {
    ghost use Rattle.stop_schedule.specs.Rates.{Rates, AreInRange, rates_of};

    ghost Value = { Rates };

    ghost view = { λ p. record {
      stop = p.stop;
      wait = p.wait;
      trip_num = p.trip_num;
      trip_den = p.trip_den;
      trip_add = p.trip_add;
      wait_weight = p.wait_weight;
      trip_weight = p.trip_weight;
    } };

    ghost inverse = { λ r. record {
      stop = r.stop;
      wait = r.wait;
      trip_num = r.trip_num;
      trip_den = r.trip_den;
      trip_add = r.trip_add;
      wait_weight = r.wait_weight;
      trip_weight = r.trip_weight;
    } };

    ghost invariant = { λ p. AreInRange (rates_of p.stop p.wait p.trip_num p.trip_den p.trip_add
        p.wait_weight p.trip_weight) };
}

impl Params {
    /// The parameters of these numbers, or none where one is out of its range: each at most 65,536, the trip's lower factor at least
    /// 1, and its upper factor at most 16 times the lower one.
    pub fn new(
        stop: u64,
        wait: u64,
        trip_num: u64,
        trip_den: u64,
        trip_add: u64,
        wait_weight: u64,
        trip_weight: u64,
    ) -> Option<Params>
        ensures value { IfSome result
            (AreOfNumbers stop wait trip_num trip_den trip_add wait_weight trip_weight) }
        ensures in_range { IfSome result AreInRange }
        ensures none { IfNone result
            (AreOutOfRange stop wait trip_num trip_den trip_add wait_weight trip_weight) }
    {
        let factors = trip_num.max(trip_den).max(trip_add);
        let largest = stop
            .max(wait)
            .max(factors)
            .max(wait_weight)
            .max(trip_weight);
        if largest > 65536 || trip_den == 0 || trip_num > 16 * trip_den {
            return None;
        }
        Some(Params {
            stop,
            wait,
            trip_num,
            trip_den,
            trip_add,
            wait_weight,
            trip_weight,
        })
    }

    /// Stops of 2, a wait limit of 20, a trip of twice the direct one and 10, and weights of 1.
    pub fn usual() -> Params
        ensures { result ≡ usual }
    {
        Params {
            stop: 2,
            wait: 20,
            trip_num: 2,
            trip_den: 1,
            trip_add: 10,
            wait_weight: 1,
            trip_weight: 1,
        }
    }

    /// How long a stop takes at a node where the vehicle doesn't halt already, in the units of the roads' weights, at most 65,536.
    pub fn stop(&self) -> u64
        ensures value { result ≡ self.now.stop }
        ensures in_range { AreInRange self.now }
    {
        self.stop
    }

    /// How long a stop at a node takes a vehicle that halts there, or elsewhere, or nowhere, in the units of the roads' weights: 0 where
    /// it halts there.
    pub fn stop_at(&self, halt: Option<NodeNo>, node: NodeNo) -> u64
        ensures value { result ≡ halt_time self.now.stop halt node }
        ensures bound { result ≤ 65536 }
    {
        match halt {
            Some(place) if place == node => 0,
            _ => self.stop,
        }
    }

    /// How long a rider waits at no cost, in the units of the roads' weights, at most 65,536.
    pub fn wait(&self) -> u64
        ensures value { result ≡ self.now.wait }
        ensures in_range { AreInRange self.now }
    {
        self.wait
    }

    /// What a unit of waiting past the limit costs, at most 65,536.
    pub fn wait_weight(&self) -> u64
        ensures value { result ≡ self.now.wait_weight }
        ensures in_range { AreInRange self.now }
    {
        self.wait_weight
    }

    /// What a unit of a trip past its limit costs, at most 65,536.
    pub fn trip_weight(&self) -> u64
        ensures value { result ≡ self.now.trip_weight }
        ensures in_range { AreInRange self.now }
    {
        self.trip_weight
    }

    /// The longest trip that costs nothing, for a direct distance below 2^53. It is below 2^58.
    pub fn trip_limit(&self, direct: u64) -> u64
        requires { direct < far }
        ensures value { result ≡ trip_limit self.now direct }
        ensures bound { result < 2 ^ 58 }
    {
        let trip = u128::from(self.trip_num) * u128::from(direct) / u128::from(self.trip_den);
        trip as u64 + self.trip_add
    }
}
