/// An option's number, from `least` to `most`, and how help names its value.
#[derive(Clone, Copy)]
pub(crate) struct Bounds {
    pub(crate) name: &'static str,
    pub(crate) value: &'static str,
    pub(crate) least: u64,
    pub(crate) most: u64,
}

pub(crate) const SESSIONS: Bounds = Bounds {
    name: "sessions",
    value: "N",
    least: 1,
    most: 1_000_000,
};

pub(crate) const AT_ONCE: Bounds = Bounds {
    name: "at-once",
    value: "M",
    least: 1,
    most: 64,
};

pub(crate) const IDLE: Bounds = Bounds {
    name: "idle",
    value: "SECONDS",
    least: 0,
    most: 1_000_000,
};

pub(crate) const SEED: Bounds = Bounds {
    name: "seed",
    value: "S",
    least: 0,
    most: u64::MAX,
};

pub(crate) const CLIENTS: Bounds = Bounds {
    name: "clients",
    value: "M",
    least: 1,
    most: 64,
};

pub(crate) const REQUESTS: Bounds = Bounds {
    name: "requests",
    value: "R",
    least: 0,
    most: 100_000,
};
