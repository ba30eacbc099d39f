ghost use Rattle.std.specs.Prelude.{◌≡◌, ◌<◌};

/// Picks one of the replicas of a slot. What it picks is a function of its state, the number of replicas and a draw.
pub trait ReadRoutingStrategy {
    ghost use Rattle.std.specs.Prelude.{ℕ};

    ghost pick_of: { Self → ℕ → ℕ → ℕ };

    ghost picked: { Self → ℕ → ℕ → Self };

    /// The place of the replica, counted from 0.
    fn pick(&mut self, replicas: u32, draw: u64) -> u32
        requires { 0 < replicas }
        ensures value { result ≡ pick_of self.old replicas draw }
        ensures after { self.new ≡ picked self.old replicas draw }
        ensures bound { result < replicas };
}

/// The strategies that are given here.
#[derive(Clone, Copy, Debug, PartialEq, Eq)]
pub enum ReadStrategy {
    /// The replica of a draw.
    Random,
    /// The next replica in turn.
    RoundRobin { next: u32 },
}

impl ReadRoutingStrategy for ReadStrategy {
    ghost use Rattle.mux_routing.specs.Strategies.{after_pick, place_picked};

    ghost pick_of = { place_picked };

    ghost picked = { after_pick };

    fn pick(&mut self, replicas: u32, draw: u64) -> u32 {
        match self {
            ReadStrategy::Random => (draw % u64::from(replicas)) as u32,
            ReadStrategy::RoundRobin { next } => {
                let turn = *next % replicas;
                *next = next.saturating_add(1);
                turn
            }
        }
    }
}
