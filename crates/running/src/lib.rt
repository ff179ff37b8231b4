// The run that fills the log: the inner steps one after another, until the run is over or the budget is spent.
#![tactic(auto)]

ghost use Rattle.tokens.specs.Rules.{Plan, start};
ghost use Rattle.tokens.specs.Run.{run_from};
ghost use Rattle.message_log.specs.Bytes.{RoomFor};
ghost use Rattle.machine.specs.declared.Task.{Task};
ghost use Rattle.machine.specs.View.{state_of, with_left};
ghost use Rattle.machine.specs.Step.{Ready};
ghost use Rattle.running.specs.Progress.{Onward};
ghost use Rattle.running.specs.Run.{Asks, Leaves, Fresh, Runs};

use machine::{Board, Machine, Stage, Task};
use radios::Radios;
use tokens::{Answer, Kind, Message};

// What a run came to: the rounds started, the paths found, and the messages sent.
#[derive(Clone, Copy)]
pub struct Ran {
    pub rounds: usize,
    pub found: usize,
    pub messages: usize,
}

// What the half on top has left once it has asked in vain, and the messages sent.
#[derive(Clone, Copy)]
struct Vain {
    left: Radios,
    sent: usize,
}

// ---- PDTs in vain

// An out half on top asks those next in its order that were entered before: each PDT gets its PDT_B at once. These are inner
// steps of the rules, two at a time, sent without going through the stages. Room for all of them is asked for once, before.
fn asks_in_vain(m: &Machine, budget: usize, sent: usize, board: &Board, log: &mut [u8]) -> Vain
    requires { Asks m.now budget sent log.old }
    ensures { (task : Task) → Onward task budget board.now log.old m.now sent log.new (with_left m.now result.left) result.sent }
{
    let none = Vain { left: m.left, sent };
    let Stage::Searching = m.stage else {
        return none;
    };
    let h = m.half;
    if h % 2 == 0 || sent + site::MOST_HALVES >= budget {
        return none;
    }
    let mut others = m.left.without(h / 2);
    let own = m.left.and_not(others);
    let mut at = sent;
    while let Some(v) = others.first() {
        if !board.entered.is_entered(2 * v) {
            break;
        }
        message_log::put(log, at, Message::new(Kind::Pdt, h, 2 * v), m.round);
        message_log::put(log, at + 1, Message::new(Kind::PdtB, 2 * v, h), m.round);
        others = others.without_first(v);
        at += 2;
    }
    Vain {
        left: others.both(own),
        sent: at,
    }
}

// ---- the run

// The run from where the machine stands: each message goes into the log with the round that it leaves the machine in.
fn run_on(
    task: &Task,
    begin: Machine,
    budget: usize,
    links: &[Radios; 64],
    board: &mut Board,
    log: &mut [u8],
) -> Ran
    requires ready { (plan : Plan) × Ready plan 0 task.now begin links.now board.old }
    requires room_for { RoomFor budget log.old }
    ensures { (plan : Plan) → Ready plan 0 task.now begin links.now board.old → Leaves (run_from plan budget (state_of plan.site 0 begin board.old)) result board.new.entered log.old log.new }
{
    let mut machine = begin;
    let mut sent = 0;
    // It counts messages, of which a turn may send many.
    while sent < budget {
        let vain = asks_in_vain(&machine, budget, sent, board, log);
        machine.left = vain.left;
        sent = vain.sent;
        let stepped = machine::step(task, &machine, links, board);
        let Answer::Sent(message) = stepped.answer else {
            break;
        };
        machine = stepped.machine;
        message_log::put(log, sent, message, machine.round);
        sent += 1;
    }
    Ran {
        rounds: machine.round,
        found: machine.found,
        messages: sent,
    }
}

// The whole run of the token rules, its messages at the front of the log and the rest of the log as it was. The halves
// entered in its last round are left on the board lent for it, whatever this held. It stays a function of its own: within a
// larger one the log's address has no register left, and is fetched anew for each message.
#[inline(never)]
pub fn run(
    task: &Task,
    budget: usize,
    links: &[Radios; 64],
    board: &mut Board,
    log: &mut [u8],
) -> Ran
    requires { Runs task.now budget links.now log.old }
    ensures { (plan : Plan) → Fresh plan task.now links.now → Leaves (run_from plan budget (start plan)) result board.new.entered log.old log.new }
{
    openings::fill(task.n, task.s, task.t, task.passing, links, &mut board.rows);
    let source = 2 * task.s + 1;
    board.entered.enter_only(source);
    let begin = machine::beginning(source, &board.rows, 1, 0);
    run_on(task, begin, budget, links, board, log)
}
