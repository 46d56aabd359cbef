// The two passes of assignment: which core has how much of which task.
#![tactic(auto)]

ghost use Rattle.std.specs.Prelude.{◌≡◌};
ghost use Rattle.lists.specs.Lists.{at_most};
ghost use Rattle.units.specs.Units.{nums};
ghost use Rattle.assignment.specs.Passes.{shares_of, rows_of};
ghost use Rattle.assignment.specs.Inner.{assign_two, assign, from, Among};

use ordering::{Order, order_of};
use units::limits::{CORES, TASKS};
use units::share::Share;

// A number for each core: one task's shares, or the cores' room.
#[derive(Clone, Copy)]
pub struct Row {
    pub shares: [Share; CORES],
}

// The core with the most room, the lowest at a tie.
fn roomiest(room: Row) -> usize
    ensures { result ≡ at_most (nums room.shares) }
{
    let mut best: usize = 0;
    let mut most = room.shares[0];
    for p in 1..CORES {
        let here = room.shares[p];
        if most.0 < here.0 {
            best = p;
            most = here;
        }
    }
    best
}

// Pass two, from the k-th task of the order on: a full core is left for the next one and never looked at again.
fn pass_two(
    order: Order,
    k: usize,
    weights: [Share; TASKS],
    room: Row,
    rows: [Row; TASKS],
) -> [Row; TASKS]
    requires { Among order }
    ensures { rows_of result ≡ assign_two 0 (nums weights) (from order k) (nums room.shares) (rows_of rows) }
{
    let mut table = rows;
    let mut left = room.shares;
    let mut p: usize = 0;
    for i in k..order.count {
        let t = order.tasks[i];
        let mut need = weights[t];
        let mut row = [Share::EMPTY; CORES];
        // No `for`: p lives on over the tasks, and goes on only where one needs more.
        while (0 < need.0) & (p < CORES) {
            let have = left[p];
            row[p] = need.smaller(have);
            left[p] = have.rest(need);
            need = need.rest(have);
            if 0 < need.0 {
                p += 1;
            }
        }
        table[t] = Row { shares: row };
    }
    table
}

// Pass one over the tasks in order, and pass two from the first misfit on.
fn pass_one(order: Order, weights: [Share; TASKS], room: Row, rows: [Row; TASKS]) -> [Row; TASKS]
    requires { Among order }
    ensures { rows_of result ≡ assign (nums weights) (from order 0) (nums room.shares) (rows_of rows) }
{
    let mut table = rows;
    let mut left = room;
    for i in 0..order.count {
        let t = order.tasks[i];
        let w = weights[t];
        let p = roomiest(left);
        let have = left.shares[p];
        if have.0 < w.0 {
            return pass_two(order, i, weights, left, table);
        }
        let mut row = [Share::EMPTY; CORES];
        row[p] = w;
        table[t] = Row { shares: row };
        left.shares[p] = have.rest(w);
    }
    table
}

// The shares of each task on each core, for the tasks' weights and the cores' room.
pub fn shares_of(weights: [Share; TASKS], room: Row) -> [Row; TASKS]
    ensures { rows_of result ≡ shares_of (nums weights) (nums room.shares) }
{
    let order = order_of(weights);
    let blank = [Row {
        shares: [Share::EMPTY; CORES],
    }; TASKS];
    pass_one(order, weights, room, blank)
}
