// Where text goes outside of calls: the output, or one of streams 1 to 9, or nowhere.
ghost use Rattle.std.specs.Prelude.{◌≡◌, ◌+◌, ◌-◌, ◌≤◌, [], ◌∷◌, ◌++◌, length, take, drop};
ghost use Rattle.rules.specs.Streams.{Streams, placed};
ghost use Rattle.expander.specs.Source.{bytes_of};
ghost use Rattle.expander.specs.Sinks.{SinksIn, Fits, full_buffer};

use crate::source::Ahead;
use crate::streams;

// The current stream's number, how many bytes wait in streams 1 to 9, and how many are written.
#[derive(Clone, Copy)]
pub(crate) struct Sinks {
    pub(crate) current: i32,
    pub(crate) waiting: usize,
    pub(crate) output: usize,
}

// The number of the buffer that n bytes more to the current stream would overfill, of the lengths of the buffers 4 and 7; none if they fit.
pub(crate) fn full(sinks: Sinks, n: usize, streams: usize, output: usize) -> Option<u32>
    requires { (sinks.waiting ≤ streams) × (sinks.output ≤ output) }
    ensures { result ≡ full_buffer sinks.current n (streams - sinks.waiting) (output - sinks.output) }
{
    match sinks.current {
        0 => (output - sinks.output < n).then_some(7),
        1..=9 => (streams - sinks.waiting < n).then_some(4),
        _ => None,
    }
}

impl Sinks {
    // Another current stream.
    pub(crate) fn diverted(self, current: i32) -> Sinks
        ensures { result ≡ record { current = current; waiting = self.waiting; output = self.output } }
    {
        Sinks { current, ..self }
    }

    // No byte waits in streams 1 to 9, and `output` bytes are written.
    pub(crate) fn emptied(self, output: usize) -> Sinks
        ensures { result ≡ record { current = self.current; waiting = 0; output = output } }
    {
        Sinks {
            waiting: 0,
            output,
            ..self
        }
    }

    // One byte to the current stream.
    pub(crate) fn emit_byte(
        mut self,
        streams: &mut [u8],
        owners: &mut [u8],
        output: &mut [u8],
        b: u8,
    ) -> Sinks
        requires { Fits streams.old owners.old output.old self 1 }
        ensures { (x : Streams) → SinksIn streams.old owners.old output.old self x → SinksIn streams.new owners.new output.new result (placed x.current (b ∷ []) x) }
    {
        match self.current {
            0 => {
                output[self.output] = b;
                self.output += 1;
            }
            1..=9 => {
                streams[self.waiting] = b;
                owners[self.waiting] = self.current as u8;
                self.waiting += 1;
            }
            _ => {}
        }
        self
    }

    // n bytes ahead, from `start` on, to the current stream.
    pub(crate) fn emit_ahead(
        mut self,
        ahead: Ahead<'_>,
        start: usize,
        n: usize,
        streams: &mut [u8],
        owners: &mut [u8],
        output: &mut [u8],
    ) -> Sinks
        requires fits { Fits streams.old owners.old output.old self n }
        requires n_in_bounds { start + n ≤ length (bytes_of ahead) }
        ensures { (x : Streams) → SinksIn streams.old owners.old output.old self x → SinksIn streams.new owners.new output.new result (placed x.current (take n (drop start (bytes_of ahead.entry))) x) }
    {
        match self.current {
            0 => {
                ahead.fill(start, n, output, self.output);
                self.output += n;
            }
            1..=9 => {
                ahead.fill(start, n, streams, self.waiting);
                streams::own(owners, self.waiting, n, self.current as u8);
                self.waiting += n;
            }
            _ => {}
        }
        self
    }
}
