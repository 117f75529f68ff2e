//! A program over the register as a library. It adds rows, lets two holdings work in threads of their own, and makes a
//! register again of what comes home. It costs what its calls cost, and two threads. A contract of your own has to say
//! what a thread does to a holding, because otherwise nothing proves that `gather` may have it back.
#![tactic(auto)]

ghost use Rattle.std.specs.Prelude.{◌≡◌, IfOk};
ghost use Rattle.hlr_owners.specs.Owners.{AllHome};

use hlr_core::{
    Action, Board, CELLS, Event, FIRST_AREA, Frame, Holding, Number, Refusal, Register, Scattered,
    Subscriber,
};
use std::alloc::Global;
use std::process::ExitCode;
use std::thread::{self, Threads};

/// The subscriber in the first part, and the one in the second part, whose range begins at 65.
const LOW: u32 = 7;

const HIGH: u32 = 70;

/// A location in area 1.
const LOCATION: u32 = 268_435_456;

/// Makes a subscriber in area 0, whose number is its s_id.
fn subscriber(s_id: u32) -> Result<Subscriber, Refusal> {
    let s_id = u64::from(s_id);
    Subscriber::try_new(
        s_id,
        Number::try_new(s_id)?,
        [0; 10],
        [0; 10],
        [0; 10],
        1,
        1,
    )
}

/// Opens a register of two parts over zones of four subscribers, with one subscriber in each part.
fn opened(alloc: Global) -> Result<Register, Refusal>
    ensures { IfOk result (λ register. AllHome register.owners) }
{
    let mut register = Register::open(alloc, 2, 4)?;
    register.add_subscriber(subscriber(LOW)?)?;
    register.add_subscriber(subscriber(HIGH)?)?;
    Ok(register)
}

/// A holding on which a thread has worked, and how many cells it posted.
type Worked = (Box<Holding>, Result<u8, Refusal>);

/// Does the work of a thread: it moves a subscriber of the holding to area 1, and posts what is pending.
fn work(board: &Board, mut holding: Box<Holding>, s_id: u32) -> Worked
    requires { holding.value.desk.board ≡ board.now }
    ensures board { result.0.value.desk.board ≡ holding.value.desk.board }
    ensures slots { result.0.value.desk.view.owned ≡ holding.value.desk.view.owned }
{
    if holding.lo() <= s_id && s_id < holding.hi() {
        let _reply = holding.act(Action::UpdateLocation {
            s_id,
            vlr_location: LOCATION,
        });
    }
    let posted = holding.post(board, u64::from(CELLS));
    (holding, posted)
}

/// Has both holdings worked on at the same time, the first one in a thread of its own. The clauses of the closures come
/// home with them.
fn work_side_by_side<R: Threads + Sync>(
    rt: &R,
    board: &Board,
    low: Box<Holding>,
    high: Box<Holding>,
) -> (Worked, Worked)
    requires { (low.value.desk.board ≡ board.now) × (high.value.desk.board ≡ board.now) }
    ensures low { (result.0.0.value.desk.board ≡ low.value.desk.board) × (result.0.0.value.desk.view.owned ≡ low.value.desk.view.owned) }
    ensures high { (result.1.0.value.desk.board ≡ high.value.desk.board) × (result.1.0.value.desk.view.owned ≡ high.value.desk.view.owned) }
{
    thread::join(
        rt,
        || -> Worked
            requires { low.value.desk.board ≡ board.now }
            ensures { (result.0.value.desk.board ≡ low.value.desk.board) × (result.0.value.desk.view.owned ≡ low.value.desk.view.owned) }
        { work(board, low, LOW) },
        || -> Worked
            requires { high.value.desk.board ≡ board.now }
            ensures { (result.0.value.desk.board ≡ high.value.desk.board) × (result.0.value.desk.view.owned ≡ high.value.desk.view.owned) }
        { work(board, high, HIGH) },
    )
}

/// Takes a register of two parts apart, has its holdings worked on, and makes a register of what comes home.
fn owners_work<R: AllocGlobal + Threads + Sync>(
    rt: &R,
    register: Register,
) -> Result<Register, Refusal>
    requires { AllHome register.owners }
    ensures { IfOk result (λ register. AllHome register.owners) }
{
    let Scattered {
        frame,
        mut holdings,
        pieces,
    } = register.scatter();
    let Frame {
        board,
        spare,
        width,
    } = frame;
    let Some(high) = holdings.pop() else {
        return Err(Refusal::NoPart);
    };
    let Some(low) = holdings.pop() else {
        return Err(Refusal::NoPart);
    };
    let ((low, _), (high, _)) = work_side_by_side(rt, &board, low, high);
    holdings.push_reserved(low);
    holdings.push_reserved(high);
    let scattered = Scattered {
        frame: Frame {
            board,
            spare,
            width,
        },
        holdings,
        pieces,
    };
    Ok(Register::gather(rt.alloc(), scattered)?)
}

/// Prints how many subscribers of areas 0 and 1 are published, and how many are unposted.
fn show<R: Print>(rt: &R, register: &Register)
    requires { AllHome register.now.owners }
{
    let published = register.published();
    let unposted = register.unposted();
    let first = usize::from(FIRST_AREA);
    for cell in first..first + 2 {
        let _ = println!(rt;
            "cell {cell}: {} published, {} not posted",
            published[cell], unposted[cell]
        );
    }
}

/// Adds the rows, posts the first part, and lets threads move the subscribers and post.
fn run<R: AllocGlobal + Print + Threads + Sync>(rt: &R) -> Result<(), Refusal> {
    let mut register = opened(rt.alloc())?;
    show(rt, &register);
    let _reply = register.apply(Event::Post {
        part: 0,
        limit: u64::from(CELLS),
    });
    show(rt, &register);
    let register = owners_work(rt, register)?;
    show(rt, &register);
    Ok(())
}

fn main(rt: HostRuntime) -> ExitCode {
    match run(&rt) {
        Ok(()) => ExitCode::SUCCESS,
        Err(why) => {
            let _ = eprintln!(rt; "refused: {}", why.name());
            ExitCode::FAILURE
        }
    }
}
