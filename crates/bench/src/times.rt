use std::rt::Clock;
use std::time::{Duration, Instant};
use std::{fmt, io};

// How often a call is measured: the least of so many is hardly touched by what else the machine does.
const RUNS: u32 = 20;

// What RUNS calls of one kind took. No time is kept, since the least and the mean need only these two.
#[derive(Clone, Copy)]
pub(crate) struct Times {
    least: Duration,
    total: Duration,
}

impl Times {
    // Makes the call RUNS times. The clock is read close around it, so that nothing else counts.
    pub(crate) fn of<F: FnMut() -> io::Result<()>>(
        clock: &impl Clock,
        mut call: F,
    ) -> io::Result<Times>
        requires { F.IsAlwaysCallable call }
    {
        let mut least = Duration::MAX;
        let mut total = Duration::ZERO;
        for _ in 0..RUNS {
            let start = Instant::now(clock)?;
            let answer = call();
            let time = start.elapsed(clock)?;
            answer?;
            least = least.min(time);
            total = total.saturating_add(time);
        }
        Ok(Times { least, total })
    }
}

// A time that is shown in milliseconds.
#[derive(Drop)]
struct Millis(Duration);

impl fmt::Display for Millis {
    // Two decimals, cut from whole microseconds: finer ones would differ from run to run.
    fn fmt<W: fmt::Write>(&self, f: &mut fmt::Formatter<W>) -> fmt::Result {
        let micros = self.0.as_micros();
        let whole = micros / 1000;
        let hundredths = micros % 1000 / 10;
        write!(f, "{whole}.{hundredths:02}")
    }
}

impl fmt::Display for Times {
    // The least says what the call costs, and the mean how much the machine added.
    fn fmt<W: fmt::Write>(&self, f: &mut fmt::Formatter<W>) -> fmt::Result {
        let least = Millis(self.least);
        let mean = Millis(self.total / RUNS);
        write!(f, "least {least} ms, mean {mean} ms of {RUNS}")
    }
}
