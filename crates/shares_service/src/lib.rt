// The planner of a run (S59): how many jobs of each of four groups go into a run of frames.
//
//   Plan             the four counts, and a status
//   first_waiting    the group that gets the next frame
//   give_frame       one frame given out
//   shares           the service
#![tactic(auto)]

ghost use Rattle.std.specs.Prelude.{◌≡◌, [], ◌∷◌, ℕ, ◌+◌, ◌<◌, get_or};
ghost use Rattle.shares_service.specs.GivingOut.{first_waiting_of, give_frame_of, giving};
ghost use Rattle.shares_service.specs.SharesService.{SharesAnswer};

use refusals::Refusal;

// The groups.
pub const GROUPS: usize = 4;

// The most frames of a run.
const MAX_FRAMES: u32 = 1024;

#[repr(C)]
#[derive(Clone, Copy)]
pub struct Plan {
    pub share: [u32; GROUPS],
    pub status: u32,
}

// Whose turn it is, what waits of each group, and what each was given.
#[derive(Clone, Copy)]
struct Giving {
    turn: usize,
    waiting: [u32; GROUPS],
    given: [u32; GROUPS],
}

// The first group from `turn` on, round the order, that has one waiting, or 4 where none has. The groups 1 to 4 have the places 0 to 3.
#[tactic(auto, using(crate::proofs::Asking::asking))]
fn first_waiting(waiting: [u32; GROUPS], turn: usize) -> usize
    requires { turn < 4 }
    ensures { result ≡ first_waiting_of waiting 4 turn }
{
    let mut i = turn;
    for k in 0..GROUPS {
        if 0 < waiting[i] {
            return i;
        }
        i = (i + 1) % GROUPS;
    }
    GROUPS
}

// One frame goes to that group, and the turn is that of the next. Where nothing waits, nothing changes.
fn give_frame(s: Giving) -> Giving
    requires turn_bound { s.turn < 4 }
    requires by_index { (i : ℕ) → get_or s.waiting i 0 + get_or s.given i 0 < 4294967296 }
    ensures { giving result.turn result.waiting result.given ≡ give_frame_of (giving s.turn s.waiting s.given) }
{
    let mut waiting = s.waiting;
    let mut given = s.given;
    let i = first_waiting(waiting, s.turn);
    if i < GROUPS {
        waiting[i] -= 1;
        given[i] += 1;
        return Giving {
            turn: (i + 1) % GROUPS,
            waiting,
            given,
        };
    }
    s
}

// The shares of four groups in a run of so many frames.
pub fn shares(frames: u32, waiting1: u32, waiting2: u32, waiting3: u32, waiting4: u32) -> Plan
    ensures { SharesAnswer frames (waiting1 ∷ waiting2 ∷ waiting3 ∷ waiting4 ∷ []) result.share result.status }
{
    if frames < 1 || MAX_FRAMES < frames {
        return Plan {
            share: [0; GROUPS],
            status: Refusal::BadFrames.number(),
        };
    }
    let mut s = Giving {
        turn: 0,
        waiting: [waiting1, waiting2, waiting3, waiting4],
        given: [0; GROUPS],
    };
    for i in 0..frames {
        s = give_frame(s);
    }
    let share = s.given;
    Plan { share, status: 0 }
}
