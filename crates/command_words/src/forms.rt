use stop_schedule::Params;

/// What a command line asks for. Names are as they were written.
#[derive(Clone, Copy, Debug, PartialEq, Eq)]
pub enum Form<'a> {
    /// A stream of requests is answered. Up to `window` neighbouring requests, 1 to 4,096, are priced together; with `proof` each answer
    /// has its certificate.
    Run {
        graph: &'a str,
        fleet: &'a str,
        stream: &'a str,
        params: Params,
        window: Option<u32>,
        proof: bool,
    },
    /// A journal is checked.
    Audit {
        graph: &'a str,
        fleet: &'a str,
        journal: &'a str,
        params: Params,
    },
    /// The least walk between two nodes is asked for.
    Walk {
        graph: &'a str,
        from: u32,
        to: u32,
    },
    /// A city is made from a number, and run.
    Gen {
        number: u64,
    },
    /// A stream is answered by so many workers, 1 to 64.
    Live {
        graph: &'a str,
        fleet: &'a str,
        stream: &'a str,
        params: Params,
        workers: u32,
    },
}
