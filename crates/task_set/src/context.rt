//! What a task has run so far.

ghost use Rattle.std.specs.Prelude.{◌≡◌, ◌<◌};

/// The factor of the trail: the multiplier of Knuth's MMIX generator, modulo 2^64.
const TRAIL_FACTOR: u64 = 6364136223846793005;

/// What a task has run so far. It travels with the task from processor to processor.
#[derive(Clone, Copy, Debug, PartialEq, Eq)]
pub struct Context {
    /// The number of the task.
    pub task: u32,

    /// How many units it ran, modulo 2^64.
    pub units: u64,

    /// How often it was taken, modulo 2^64.
    pub stints: u64,

    /// How often it was taken on another processor than the time before, modulo 2^64.
    pub moves: u64,

    /// The processor on which it was taken last.
    pub last: Option<u8>,

    /// A mix of all runs in their order. Two lists of runs may have one trail.
    pub trail: u64,
}

impl Context {
    ghost use Rattle.task_set.specs.Context.{fresh_context, context_after_take, context_after_run};

    /// The context of a task of which nothing ran.
    pub fn fresh(task: u32) -> Context
        ensures { result ≡ fresh_context task }
    {
        Context {
            task,
            units: 0,
            stints: 0,
            moves: 0,
            last: None,
            trail: task as u64,
        }
    }

    /// The task is taken on a processor.
    pub fn took(&mut self, p: u8)
        requires { p < 64 }
        ensures { self.new ≡ context_after_take self.old p }
    {
        self.stints = self.stints.wrapping_add(1);
        self.moves = match self.last {
            Some(q) if q != p => self.moves.wrapping_add(1),
            _ => self.moves,
        };
        self.last = Some(p);
    }

    /// The task runs this many units on a processor.
    pub fn ran(&mut self, p: u8, units: u32)
        requires { p < 64 }
        ensures { self.new ≡ context_after_run self.old p units }
    {
        self.units = self.units.wrapping_add(units as u64);
        self.trail = self
            .trail
            .wrapping_mul(TRAIL_FACTOR)
            .wrapping_add(64 * units as u64)
            .wrapping_add(p as u64);
    }
}
