//! How long requests took, by their paths.
ghost use Rattle.std.specs.Prelude.{◌≡◌, ◌<◌};
ghost use Rattle.metrics.specs.Measured.{latency_at, latencies_after, no_latencies, place_at};

use crate::histogram::Histogram;
use answers::Endpoint;

/// So many paths are told apart: those of the endpoints, and all others.
const PATHS: usize = 10;

/// The place of all other paths.
const NOWHERE: usize = PATHS - 1;

/// How long requests took, by their paths.
#[derive(Clone, Copy)]
pub struct Latencies {
    histograms: [Histogram; PATHS],
}

// The place of the path of an endpoint, or of all others.
fn place_of(path: Option<Endpoint>) -> usize
    ensures place { result ≡ place_at path }
    ensures inside { result < 10 }
{
    match path {
        Some(endpoint) => endpoint.place(),
        None => NOWHERE,
    }
}

impl Latencies {
    /// There was none yet.
    pub fn new() -> Latencies
        ensures { result ≡ no_latencies }
    {
        Latencies {
            histograms: [Histogram::new(); PATHS],
        }
    }

    /// How long those took whose path is that of the endpoint, or of none.
    pub fn at(&self, path: Option<Endpoint>) -> Histogram
        ensures { result ≡ latency_at self.now path }
    {
        match self.histograms.get(place_of(path)) {
            Some(histogram) => *histogram,
            None => Histogram::new(),
        }
    }

    /// One more at the path took so long.
    pub fn note(&mut self, path: Option<Endpoint>, nanos: u64)
        ensures { self.new ≡ latencies_after self.old path nanos }
    {
        let place = place_of(path);
        self.histograms[place].note(nanos);
    }
}
