// Refusals of document 01, "Refusal numbers", and of document 02. Each number stands here once and once in specs/Refusals; `in_force` shows that the two agree.
ghost use Rattle.std.specs.Prelude.{◌≡◌};
ghost use Rattle.units.specs.Refusals.{refusal, number as number_of, told, the_numbers};

// Why something is refused.
#[derive(Clone, Copy, PartialEq, Eq)]
pub enum Reason {
    // Core count 0 or above 16.
    Cores,
    // Table empty, over 64 tasks, or ending inside a task.
    Table,
    // A task has cost 0, period 0 or period above its limit.
    Range,
    // A task's cost exceeds its period.
    Cost,
    // The common period exceeds its limit.
    Period,
    // The weights sum to more than M × L.
    Weights,
    // Task number 0 or above N.
    Task,
    // The call's time is below the stored clock.
    Past,
    // 9 stood for a release less than T after the task's last one: it is held now, and no call gives 9.
    // A release while 8 runs of the task are unfinished.
    Backlog,
    // Finish of a task with no unfinished run, or whose oldest one is held.
    NoRun,
    // The call's time, or a release's held time, is above the clock's limit.
    Clock,
    // Core number 0 or above M.
    Core,
    // The listing is longer than the lent buffer.
    Buffer,
    // A record handed in is unsound.
    Unsound,
    // The program's text can't be read.
    Text,
    // A line of an office sheet after its first can't be read, or the sheet is too long.
    Sheet,
    // An office sheet has the same name twice.
    Name,
    // An office sheet's first line can't be read, or its tick length is out of range.
    Tick,
    // An arrival can't be read, is beyond 4,096 or is for a task not in the table.
    Arrival,
    // An arrival's length is outside 1 to its task's cost.
    Length,
    // An arrival's time is below the one before.
    Order,
}

impl Reason {
    // The number of the documents.
    pub fn number(self) -> u32
        ensures { result ≡ number_of self }
    {
        match self {
            Self::Cores => 1,
            Self::Table => 2,
            Self::Range => 3,
            Self::Cost => 4,
            Self::Period => 5,
            Self::Weights => 6,
            Self::Task => 7,
            Self::Past => 8,
            Self::Backlog => 10,
            Self::NoRun => 11,
            Self::Clock => 12,
            Self::Core => 13,
            Self::Buffer => 14,
            Self::Unsound => 15,
            Self::Text => 16,
            Self::Sheet => 17,
            Self::Name => 18,
            Self::Tick => 19,
            Self::Arrival => 25,
            Self::Length => 26,
            Self::Order => 27,
        }
    }
}

// A refusal, and what it names: a task, a line of a text, or an arrival; 0 for none.
#[derive(Clone, Copy)]
pub struct Refusal {
    pub reason: Reason,
    pub named: usize,
}

// A refusal that names nothing.
impl From<Reason> for Refusal {
    fn from(reason: Reason) -> Self
        ensures { told result ≡ refusal (number_of reason) 0 }
    {
        Self { reason, named: 0 }
    }
}

#[derive(Clone, Copy)]
pub struct Numbers {
    pub cores: u32,
    pub table: u32,
    pub range: u32,
    pub cost: u32,
    pub period: u32,
    pub weights: u32,
    pub task: u32,
    pub past: u32,
    pub backlog: u32,
    pub norun: u32,
    pub clock: u32,
    pub core: u32,
    pub buffer: u32,
    pub unsound: u32,
    pub text: u32,
    pub sheet: u32,
    pub name: u32,
    pub tick: u32,
    pub arrival: u32,
    pub length: u32,
    pub order: u32,
}

// The numbers that the code goes by are those that the definitions go by.
pub fn in_force() -> Numbers
    ensures { result ≡ the_numbers }
{
    Numbers {
        cores: Reason::Cores.number(),
        table: Reason::Table.number(),
        range: Reason::Range.number(),
        cost: Reason::Cost.number(),
        period: Reason::Period.number(),
        weights: Reason::Weights.number(),
        task: Reason::Task.number(),
        past: Reason::Past.number(),
        backlog: Reason::Backlog.number(),
        norun: Reason::NoRun.number(),
        clock: Reason::Clock.number(),
        core: Reason::Core.number(),
        buffer: Reason::Buffer.number(),
        unsound: Reason::Unsound.number(),
        text: Reason::Text.number(),
        sheet: Reason::Sheet.number(),
        name: Reason::Name.number(),
        tick: Reason::Tick.number(),
        arrival: Reason::Arrival.number(),
        length: Reason::Length.number(),
        order: Reason::Order.number(),
    }
}
