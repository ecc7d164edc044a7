// The one pass over the lent slots, which are read in place; and the slots that a call changed, put back. For the public calls only: what
// is required is theirs to meet.
#![tactic(auto)]

ghost use Rattle.std.specs.Prelude.{◌≡◌, ◌≤◌, ◌<◌, ◌+◌, length};
ghost use Rattle.slots.specs.Blocks.{set_block};
ghost use Rattle.scan.specs.Scan.{frames_key, scanned};
ghost use Rattle.outcome.specs.Outcome.{answer_of};

use bus_state::State;
use outcome::{Answer, Change};
use scan::Run;
use slots::Slot;

// The key with n frames of node j.
fn frames_key(slots: &[Slot; 32], key: u64, n: usize, j: usize, round: u32) -> u64
    requires { (n ≤ 4) × (j < 8) }
    ensures { result ≡ frames_key n j round slots.now key }
{
    let mut run = Run::begin(key);
    let first = 4 * j;
    for p in first..first + n {
        run = run.step(slots[p], j, p);
    }
    run.end(round)
}

// The key of a state with its slots: 0 where they are not valid (01: not sound), else the winner's.
pub fn scan(slots: &[Slot; 32], s: State) -> u64
    ensures { result ≡ scanned s slots.now }
{
    let nodes = s.nodes;
    let mut key = scan::first_key(s);
    for j in 0..scan::attached(s) {
        let d = nodes[j];
        key = frames_key(
            slots,
            scan::entry_key(d, key),
            scan::frame_count(d),
            j,
            s.round,
        );
    }
    key
}

// The same of any number of slots: 0 where they are not 32.
pub fn key(slots: &[Slot], s: State) -> u64
    ensures { length slots.now ≡ 32 → result ≡ scanned s slots.now }
{
    let Ok(slots) = <&[Slot; 32]>::try_from(slots) else {
        return scan::INVALID;
    };
    scan(slots, s)
}

// The end of a call that may change slots: it puts back the four that changed, and answers.
pub fn finish(slots: &mut [Slot], c: Change) -> Answer
    requires { c.at + 4 ≤ length slots.old }
    ensures answer { result ≡ answer_of c.outcome c.state }
    ensures slots { slots.new ≡ set_block slots.old c.at c.block }
{
    lent_slots::put_block(slots, c.at, c.block);
    outcome::answer_of(c.outcome, c.state)
}
