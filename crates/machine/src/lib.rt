// One inner step of the token rules, on a board that the caller lends.
#![tactic(auto)]

ghost use Rattle.std.specs.Prelude.{◌≡◌, false, List, ℕ, ◌+◌, ◌*◌, ◌≤◌, ◌<◌, replicate};
ghost use Rattle.site.specs.Limits.{most_radios};
ghost use Rattle.site.specs.Map.{Site};
ghost use Rattle.tokens.specs.Rules.{Plan, message, waits, release};
ghost use Rattle.openings.specs.Rows.{Open, Untried};
ghost use Rattle.machine.specs.View.{is_won, marks_of, entered_of, tried, waiting_of, notes_in, moved_to, beginning_at};
ghost use Rattle.machine.specs.Step.{Fits, Made, TopUntried, Agrees, IsReady, Steps, Received, Rounds};

use halves::Entered;
use radios::Radios;
use tokens::{Answer, Kind, Message};

// The numbers of a survey: radios, the two ends, the paths wanted, and the set of the radios that may stand inside a path.
#[derive(Clone, Copy)]
pub struct Task {
    pub n: usize,
    pub s: usize,
    pub t: usize,
    pub k: usize,
    pub passing: Radios,
}

// What happens next, as the definition's states have it.
#[derive(Clone, Copy)]
pub enum Stage {
    Searching,
    Declining,
    Granting,
    Won,
    Carrying,
}

// Where the machine stands: the half on top, the half that owes it a reply, the radios that it has not tried, how many halves
// wait below it, the rounds started and the paths found. Carrying: the half that DONE has come to, and the radio that S sent
// it to. All of it stays in registers while the run goes on, the depth too: so the halves that wait are an array with a depth
// beside it and no ArrayVec, whose length would lie in memory; and what only some stages need is in no enum, which would be copied
// through the stack.
#[derive(Clone, Copy)]
pub struct Machine {
    pub stage: Stage,
    pub half: usize,
    pub other: usize,
    pub left: Radios,
    pub depth: usize,
    pub round: usize,
    pub found: usize,
}

// What the halves keep: what each can walk to now, which were entered in the round, and those that wait, the first `depth`. Task and
// links go beside it: tried, a struct that holds the links and is
// changed is not covered by the borrow checker.
#[derive(Drop)]
pub struct Board {
    pub rows: [Radios; 128],
    pub entered: Entered,
    pub halves: [u8; 128],
}

impl Board {
    // Nothing is on the board.
    pub fn blank() -> Board
        ensures { result ≡ record { rows = replicate 128 0; entered = replicate 128 0; halves = replicate 128 0 } }
    {
        Board {
            rows: [Radios::none(); 128],
            entered: Entered::none(),
            halves: [0; 128],
        }
    }
}

// What one inner step answers, a message or the end, and where the machine stands after it.
#[derive(Clone, Copy)]
pub struct Stepped {
    pub answer: Answer,
    pub machine: Machine,
}

// A round begins: S's out half searches.
pub fn beginning(source: usize, rows: &[Radios; 128], round: usize, found: usize) -> Machine
    requires { source < 2 * most_radios }
    ensures { result ≡ beginning_at source rows.now round found }
{
    Machine {
        stage: Stage::Searching,
        half: source,
        other: source,
        left: rows[source],
        depth: 0,
        round,
        found,
    }
}

// A message is sent, and the machine stands there once it is delivered.
fn sent(kind: Kind, from: usize, to: usize, machine: Machine) -> Stepped
    ensures { result ≡ record { answer = Answer.Sent (message kind from to); machine = machine } }
{
    Stepped {
        answer: Answer::Sent(Message::new(kind, from, to)),
        machine,
    }
}

// The run is over.
fn over(machine: Machine) -> Stepped
    ensures { result ≡ record { answer = Answer.End; machine = machine } }
{
    Stepped {
        answer: Answer::End,
        machine,
    }
}

// Half h waits above the first so many.
fn push(halves: &mut [u8; 128], depth: usize, h: usize)
    requires { (depth < 2 * most_radios) × (h < 2 * most_radios) }
    ensures { (site : Site) (y : ℕ) → waiting_of site halves.new (depth + 1) y ≡ waits h (tried site h y) (waiting_of site halves.old depth h) }
{
    halves[depth] = h as u8;
}

// ---- rule 7: DONE

// Half h passes DONE over its marked step to radio w. S sent it to radio v.
fn pass_on(machine: Machine, h: usize, v: usize, w: usize) -> Stepped
    requires { w < most_radios }
    ensures { result ≡ record { answer = Answer.Sent (message Kind.Done h (2 * w)); machine = moved_to machine Stage.Carrying (2 * w) v machine.left 0 } }
{
    let there = Machine {
        stage: Stage::Carrying,
        half: 2 * w,
        other: v,
        depth: 0,
        ..machine
    };
    sent(Kind::Done, h, 2 * w, there)
}

// S sends DONE to the first radio from v on that has a marked step from S; where there is none, all is done.
fn releases(task: &Task, machine: Machine, links: &[Radios; 64], board: &Board, v: usize) -> Stepped
    requires { Fits task.now × (v ≤ task.now.n) }
    ensures { (plan : Plan) (place : ℕ) → Made plan task.now links.now → Open plan.site (marks_of plan.site board.now.rows) board.now.rows → TopUntried plan.site place machine board.now.rows → Agrees plan.site (release plan.site v (notes_in plan.site machine board.now)) result board.now }
{
    match openings::next_marked(task.s, links, &board.rows, task.s, v) {
        Some(w) => pass_on(machine, 2 * task.s + 1, w, w),
        None => over(machine),
    }
}

// No one function with `releases`: a half passes DONE on under the radio that S sent it to, and S sends it under a new one.
// DONE has come to a half: T's in half is the end of a path, an in half passes it on within its radio, an out half over its
// marked step.
fn carries(task: &Task, machine: Machine, links: &[Radios; 64], board: &Board) -> Stepped
    requires { (machine.stage ≡ Stage.Carrying) × IsReady task.now machine links.now board.now }
    ensures { Steps task.now machine links.now board.now result board.now }
{
    let h = machine.half;
    let v = machine.other;
    if h == 2 * task.t {
        return releases(task, machine, links, board, v + 1);
    }
    if h % 2 == 1 {
        return match openings::next_marked(task.s, links, &board.rows, h / 2, 0) {
            Some(w) => pass_on(machine, h, v, w),
            None => over(machine),
        };
    }
    let there = Machine {
        half: h + 1,
        ..machine
    };
    sent(Kind::Done, h, h + 1, there)
}

// ---- rules 3 to 6, one function to a stage

// Half y gets a PDT from the half on top: T's in half owes PMT, one that was entered before owes PDT_B, any other searches.
fn receives(task: &Task, machine: Machine, y: usize, board: &mut Board) -> Machine
    requires { (task.now.t < most_radios) × (y < 2 * most_radios) × (machine.half < 2 * most_radios) × (machine.depth < 2 * most_radios) × (machine.stage ≡ Stage.Searching) }
    ensures { (site : Site) → site.T ≡ task.now.t → Open site (marks_of site board.old.rows) board.old.rows → Untried site (marks_of site board.old.rows) machine.half (tried site machine.half y) machine.left → Received site machine y board.old result board.new }
{
    if y == 2 * task.t {
        board.entered.enter(y);
        return Machine {
            stage: Stage::Granting,
            other: y,
            ..machine
        };
    }
    if board.entered.is_entered(y) {
        return Machine {
            stage: Stage::Declining,
            other: y,
            ..machine
        };
    }
    board.entered.enter(y);
    push(&mut board.halves, machine.depth, machine.half);
    Machine {
        half: y,
        left: board.rows[y],
        depth: machine.depth + 1,
        ..machine
    }
}

// The half on top has nothing left to try, and replies PDT_B to the half that asked it.
fn gives_up(machine: Machine, board: &Board) -> Stepped
    requires { (machine.stage ≡ Stage.Searching) × (machine.left ≡ 0) × (0 < machine.depth) × ((task : Task) × (links : List ℕ) × IsReady task machine links board.now) }
    ensures { (task : Task) (links : List ℕ) → Steps task machine links board.now result board.now }
{
    let h = machine.half;
    let below = machine.depth - 1;
    let asker = board.halves[below] as usize;
    let there = Machine {
        half: asker,
        left: openings::after(board.rows[asker], asker, h / 2),
        depth: below,
        ..machine
    };
    sent(Kind::PdtB, h, asker, there)
}

// The half on top asks the next that it can. Where it has nothing left to try it gives up, or is S, whose round has failed.
fn searches(task: &Task, machine: Machine, links: &[Radios; 64], board: &mut Board) -> Stepped
    requires { (machine.stage ≡ Stage.Searching) × IsReady task.now machine links.now board.old }
    ensures steps { Steps task.now machine links.now board.old result board.new }
    ensures entered_unchanged { result.answer ≡ Answer.End → entered_of board.new.entered ≡ entered_of board.old.entered }
{
    if machine.left.is_empty() {
        if machine.depth == 0 {
            return releases(task, machine, links, board, 0);
        }
        return gives_up(machine, board);
    }
    let h = machine.half;
    let y = openings::next(machine.left, h);
    let asking = Machine {
        left: machine.left.without(y / 2),
        ..machine
    };
    let there = receives(task, asking, y, board);
    sent(Kind::Pdt, h, y, there)
}

// The half that was asked, and entered before, replies PDT_B to the half on top.
fn declines(machine: Machine) -> Stepped
    requires { machine.stage ≡ Stage.Declining }
    ensures { (task : Task) (links : List ℕ) (board : Board) → Steps task machine links board result board }
{
    let on_top = Machine {
        stage: Stage::Searching,
        ..machine
    };
    sent(Kind::PdtB, machine.other, machine.half, on_top)
}

// The half that was asked replies PMT to the half on top, which reverses their step's mark and owes PMT in its turn, or is S,
// whose round is won.
fn grants(machine: Machine, board: &mut Board) -> Stepped
    requires { (machine.stage ≡ Stage.Granting) × ((task : Task) × (links : List ℕ) × IsReady task machine links board.old) }
    ensures steps { (task : Task) (links : List ℕ) → Steps task machine links board.old result board.new }
    ensures entered_unchanged { board.new.entered ≡ board.old.entered }
{
    let h = machine.half;
    let y = machine.other;
    openings::turn(&mut board.rows, h, y);
    if machine.depth == 0 {
        let won = Machine {
            stage: Stage::Won,
            found: machine.found + 1,
            ..machine
        };
        return sent(Kind::Pmt, y, h, won);
    }
    let below = machine.depth - 1;
    let there = Machine {
        half: board.halves[below] as usize,
        other: h,
        depth: below,
        ..machine
    };
    sent(Kind::Pmt, y, h, there)
}

// ---- rule 1

// Where a round is won and fewer than k paths are found, the next one begins. At every other stage nothing happens.
fn next_round(task: &Task, machine: &Machine, board: &mut Board) -> Machine
    requires { (task.now.s < most_radios) × (machine.now.stage ≡ Stage.Won → machine.now.round ≤ machine.now.found) }
    ensures { (links : List ℕ) → Rounds task.now machine.now links board.old result board.new }
{
    let Stage::Won = machine.stage else {
        return *machine;
    };
    if machine.found >= task.k {
        return *machine;
    }
    let source = 2 * task.s + 1;
    board.entered.enter_only(source);
    beginning(source, &board.rows, machine.round + 1, machine.found)
}

// One inner step: the message that the rules send next, or the end of the run, and where the machine stands after it.
// What the lent board holds then is the definition's state once the message is delivered. The end of the run leaves the
// halves entered as they were, but for a round that was won, after which the next may have begun. It goes by the stage, since
// the token rules give an inner step for each of their states.
pub fn step(task: &Task, machine: &Machine, links: &[Radios; 64], board: &mut Board) -> Stepped
    requires { IsReady task.now machine.now links.now board.old }
    ensures steps { Steps task.now machine.now links.now board.old result board.new }
    ensures entered_unchanged { result.answer ≡ Answer.End → is_won machine.now.stage ≡ false → entered_of board.new.entered ≡ entered_of board.old.entered }
{
    let current = next_round(task, machine, board);
    match current.stage {
        Stage::Searching => searches(task, current, links, board),
        Stage::Declining => declines(current),
        Stage::Granting => grants(current, board),
        Stage::Won => releases(task, current, links, board, 0),
        Stage::Carrying => carries(task, current, links, board),
    }
}
