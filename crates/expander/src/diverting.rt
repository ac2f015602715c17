// The macros that change the streams, m4exit among them, which drops what waits; and what the end of the run does with them.
ghost use Rattle.std.specs.Prelude.{◌≡◌, ℕ, ◌+◌, ◌<◌, ◌≤◌, List, pos, length, take, replicate, nat_le, slice_index, slice_set, true};
ghost use Rattle.rules.specs.Bytes.{Bytes};
ghost use Rattle.rules.specs.Arguments.{arg};
ghost use Rattle.rules.specs.State.{State, stop, with_streams};
ghost use Rattle.rules.specs.Run.{Setting};
ghost use Rattle.expander.specs.Limits.{most_lent, call_ends_length};
ghost use Rattle.expander.specs.Arguments.{args_of};
ghost use Rattle.expander.specs.Machine.{Memory, Represents, Refines, Valid, sinks_at};
ghost use Rattle.rules.specs.Macros.{call_divert, call_undivert, call_m4exit};
ghost use Rattle.rules.specs.Answers.{done};
ghost use Rattle.rules.specs.Streams.{Streams, moved, moved_in_turn, finished_streams};
ghost use Rattle.expander.specs.Streams.{IsStream, owned_count};
ghost use Rattle.expander.specs.Sinks.{SinksIn};
ghost use Rattle.expander.specs.Diverting.{stream_of, all_named, turns, SomeSinks, Seen, Leaving};

use crate::argument_strings::Arguments;
use crate::machine::{Machine, Stepped};
use crate::sinks::Sinks;
use crate::streams;
use rules::Answer;

// The stream that the n-th argument names; 0: none.
fn stream_argument(x: Arguments, n: usize) -> u32
    requires { (1 ≤ n) × (n ≤ most_lent) }
    ensures { result ≡ stream_of (arg n (args_of x.entry)) }
{
    x.natural(n, 1, 9).unwrap_or(0)
}

// Whether each argument names a stream.
fn names_streams(x: Arguments) -> bool
    ensures { result ≡ all_named (args_of x.entry) }
{
    for k in 0..x.count() {
        if stream_argument(x, k + 1) == 0 {
            return false;
        }
    }
    true
}

// How many streams are moved.
fn turn_count(x: Arguments) -> usize
    ensures { result ≡ length (turns (args_of x.entry)) }
{
    let n = x.count();
    if n == 0 { 9 } else { n }
}

// The stream that is moved in turn k, from 0.
fn turn_stream(x: Arguments, k: usize) -> u32
    requires { k ≤ call_ends_length }
    ensures { k < length (turns (args_of x.entry)) → result ≡ slice_index (turns (args_of x.entry)) k }
{
    if x.count() == 0 {
        return k as u32 + 1;
    }
    stream_argument(x, k + 1)
}

// How many bytes stream i has, by the counts; then it counts for none.
fn count_out(counts: &mut [usize; 10], i: u32) -> usize
    requires { IsStream i }
    ensures { (result ≡ slice_index counts.old i) × (counts.new ≡ slice_set counts.old i 0) }
{
    let at = i as usize;
    let n = counts[at];
    counts[at] = 0;
    n
}

// How many bytes the streams have that the arguments name, or all nine, by the counts of all; each counts once.
fn count_streams(counts: &mut [usize; 10], x: Arguments) -> usize
    requires by_index { (i : ℕ) → i < 10 → slice_index counts.old i ≤ most_lent }
    requires all_named { all_named (args_of x) ≡ true }
    ensures { (u : Streams) → Leaving counts.old u → length (moved_in_turn (turns (args_of x.entry)) u).output ≡ length u.output + result }
{
    let mut sum = 0;
    for j in 0..turn_count(x) {
        sum += count_out(counts, turn_stream(x, j));
    }
    sum
}

// Whether the output has room for the streams that go there: those that the arguments name, or all nine, if it is the current one.
// Nothing is counted where there is room for all that waits.
fn fits(owners: &[u8], output: &[u8], sinks: Sinks, x: Arguments) -> bool
    requires waiting_in_bounds { (sinks.waiting ≤ length owners.now) × (sinks.waiting ≤ most_lent) × (sinks.output ≤ length output.now) × ((j : ℕ) → j < sinks.waiting → slice_index owners.now j < 10) }
    requires all_named { all_named (args_of x) ≡ true }
    ensures { (streams : Bytes) (u : Streams) → SinksIn streams owners.now output.now sinks u → result ≡ nat_le (length (moved_in_turn (turns (args_of x.entry)) u).output) (length output.now) }
{
    let free = output.len() - sinks.output;
    if sinks.waiting <= free {
        return true;
    }
    if sinks.current != 0 {
        return true;
    }
    let mut counts = [0usize; 10];
    streams::tally(owners, sinks.waiting, &mut counts);
    count_streams(&mut counts, x) <= free
}

impl Sinks {
    // Stream i goes behind the output, which has room for it.
    fn move_out(mut self, streams: &mut [u8], owners: &mut [u8], output: &mut [u8], i: u8) -> Sinks
        requires { (self.waiting ≤ length streams.old) × (self.waiting ≤ length owners.old) × (self.output + owned_count i (take self.waiting owners.old) ≤ length output.old) }
        ensures { (u : Streams) → SinksIn streams.old owners.old output.old self u → self.current ≡ pos 0 → IsStream i → SinksIn streams.new owners.new output.new result (moved i u) }
    {
        let used = self.waiting;
        let at = self.output;
        let end = at + streams::count(owners, used, i);
        streams::extract(streams, owners, used, i, &mut output[at..end]);
        self.waiting = streams::compact(streams, owners, used, i);
        self.output = end;
        self
    }

    // Stream i is moved to the current one.
    fn move_one(
        mut self,
        streams: &mut [u8],
        owners: &mut [u8],
        output: &mut [u8],
        scratch: &mut [u8],
        i: u8,
    ) -> Sinks
        requires { SomeSinks streams.old owners.old output.old scratch.old self (moved i) × IsStream i }
        ensures { (u : Streams) → SinksIn streams.old owners.old output.old self u → SinksIn streams.new owners.new output.new result (moved i u) }
    {
        match self.current {
            0 => return self.move_out(streams, owners, output, i),
            1..=9 => {
                let to = self.current as u8;
                if to != i {
                    streams::move_stream(streams, owners, self.waiting, i, to, scratch);
                }
            }
            _ => self.waiting = streams::compact(streams, owners, self.waiting, i),
        }
        self
    }

    // The same; a stream that was moved before costs no pass.
    fn move_new(
        self,
        streams: &mut [u8],
        owners: &mut [u8],
        output: &mut [u8],
        scratch: &mut [u8],
        seen: &mut [u8; 10],
        i: u32,
    ) -> Sinks
        requires { SomeSinks streams.old owners.old output.old scratch.old self (moved i) × IsStream i }
        ensures { (u : Streams) → SinksIn streams.old owners.old output.old self u → Seen seen.old u → SinksIn streams.new owners.new output.new result (moved i u) × Seen seen.new (moved i u) }
    {
        let at = i as usize;
        if seen[at] != 0 {
            return self;
        }
        seen[at] = 1;
        self.move_one(streams, owners, output, scratch, i as u8)
    }

    // The streams that the arguments name, or all nine, in turn.
    fn move_streams(
        self,
        streams: &mut [u8],
        owners: &mut [u8],
        output: &mut [u8],
        scratch: &mut [u8],
        seen: &mut [u8; 10],
        x: Arguments,
    ) -> Sinks
        requires all_named { all_named (args_of x) ≡ true }
        requires some_sinks { SomeSinks streams.old owners.old output.old scratch.old self (moved_in_turn (turns (args_of x))) }
        requires seen_value { seen.old ≡ replicate 10 0 }
        ensures { (u : Streams) → SinksIn streams.old owners.old output.old self u → SinksIn streams.new owners.new output.new result (moved_in_turn (turns (args_of x.entry)) u) }
    {
        let mut k = self;
        for j in 0..turn_count(x) {
            let i = turn_stream(x, j);
            k = k.move_new(streams, owners, output, scratch, seen, i);
        }
        k
    }
}

// divert: another current stream.
pub(crate) fn divert(m: Machine, x: Arguments) -> Stepped
    requires valid { Valid (λ b. b) m }
    ensures { (a : Setting) (s : State) (b : Memory) → Represents a b m s → Refines a b (call_divert (args_of x.entry) s) b result }
{
    match x.number_or(1, 0) {
        Some(current) => m.with_sinks(m.sinks.diverted(current)).on(),
        None => m.refused(Answer::Number),
    }
}

// undivert: the streams that the arguments name, or all nine, are moved to the current one.
pub(crate) fn undivert(
    streams: &mut [u8],
    owners: &mut [u8],
    output: &mut [u8],
    scratch: &mut [u8],
    m: Machine,
    x: Arguments,
) -> Stepped
    requires valid { Valid (λ b. sinks_at streams.old owners.old output.old b) m }
    requires scratch_len { length scratch.old ≡ most_lent }
    ensures { (a : Setting) (s : State) (b : Memory) → Represents a (sinks_at streams.old owners.old output.old b) m s → Refines a (sinks_at streams.old owners.old output.old b) (call_undivert (args_of x.entry) s) (sinks_at streams.new owners.new output.new b) result }
{
    if !names_streams(x) {
        return m.refused(Answer::Number);
    }
    if !fits(owners, output, m.sinks, x) {
        return m.refused(Answer::Room(7));
    }
    let mut seen = [0u8; 10];
    let k = m
        .sinks
        .move_streams(streams, owners, output, scratch, &mut seen, x);
    m.with_sinks(k).on()
}

// The text is used up: streams 1 to 9 go to the output in order.
pub(crate) fn finish(streams: &[u8], owners: &[u8], output: &mut [u8], m: Machine) -> Stepped
    requires { Valid (λ b. sinks_at streams.now owners.now output.old b) m }
    ensures { (a : Setting) (s : State) (b : Memory) → Represents a (sinks_at streams.now owners.now output.old b) m s → Refines a (sinks_at streams.now owners.now output.old b) (stop done (with_streams (finished_streams s.streams) s)) (sinks_at streams.now owners.now output.new b) result }
{
    let n = m.sinks.waiting;
    let at = m.sinks.output;
    if output.len() - at < n {
        return m.refused(Answer::Room(7));
    }
    let end = at + n;
    streams::finish(streams, owners, n, &mut output[at..end]);
    m.with_sinks(m.sinks.emptied(end)).ended(Answer::Done)
}

// m4exit: the run ends, and what waits in the streams and as wrap text is dropped.
pub(crate) fn m4exit(m: Machine, x: Arguments) -> Stepped
    requires valid { Valid (λ b. b) m }
    ensures { (a : Setting) (s : State) (b : Memory) → Represents a b m s → Refines a b (call_m4exit (args_of x.entry) s) b result }
{
    match x.natural_or(1, 0, 0, 255) {
        Some(code) => {
            let k = m.sinks.emptied(m.sinks.output);
            m.with_sinks(k).with_wrap(0).ended(Answer::Exit(code))
        }
        None => m.refused(Answer::Number),
    }
}
