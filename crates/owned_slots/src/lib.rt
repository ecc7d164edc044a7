// The bus with slots of its own, for a program: the calls of the bus as methods, each of which keeps the state of its answer.
#![tactic(auto)]

ghost use Rattle.std.specs.Prelude.{◌≡◌, length, replicate};
ghost use Rattle.slots.specs.Slots.{free_slot};
ghost use Rattle.bus_state.specs.Memory.{held};
ghost use Rattle.bus_model.specs.Primitives.{new_state};
ghost use Rattle.bus_model.specs.Calls.{start_in, submit_in, round_in, collect_in, buffer_after};
ghost use Rattle.plain_bus.specs.Round.{injection_from};
ghost use Rattle.bus.specs.Left.{left, leaves};

use bus_state::State;
use outcome::Answer;
use slots::Slot;

// A bus but for its lent bytes.
#[derive(Drop)]
pub struct Bus {
    pub state: State,
    pub slots: [Slot; 32],
}

impl Bus {
    // A bus that is not started: no node is attached.
    pub fn new() -> Bus
        ensures { result ≡ record { state = new_state 0; slots = replicate 32 free_slot } }
    {
        Bus {
            state: bus::new_state(0),
            slots: [slots::free(); 32],
        }
    }

    pub fn start(&mut self, payload: &[u8], queues: &[u8], count: u32) -> Answer
        ensures answer { left result self.new.slots payload.now queues.now ≡ leaves (start_in (held (new_state 0) self.old.slots payload.now queues.now) count) }
        ensures state { self.new.state ≡ result.state }
    {
        let answer = kettlefrost::kf_start(&mut self.slots, payload, queues, count);
        self.state = answer.state;
        answer
    }

    pub fn submit(
        &mut self,
        payload: &mut [u8],
        queues: &mut [u8],
        node: u32,
        buffer: &[u8],
    ) -> Answer
        ensures answer { left result self.new.slots payload.new queues.new ≡ leaves (submit_in (held self.old.state self.old.slots payload.old queues.old) node buffer.now) }
        ensures state { self.new.state ≡ result.state }
    {
        let answer = kettlefrost::kf_submit(
            self.state,
            &mut self.slots,
            payload,
            queues,
            node,
            buffer,
        );
        self.state = answer.state;
        answer
    }

    pub fn round(
        &mut self,
        payload: &mut [u8],
        queues: &mut [u8],
        injected: u32,
        code: u32,
        detector: u32,
    ) -> Answer
        ensures answer { left result self.new.slots payload.new queues.new ≡ leaves (round_in (held self.old.state self.old.slots payload.old queues.old) (injection_from injected code detector)) }
        ensures state { self.new.state ≡ result.state }
    {
        let answer = kettlefrost::kf_round(
            self.state,
            &mut self.slots,
            payload,
            queues,
            injected,
            code,
            detector,
        );
        self.state = answer.state;
        answer
    }

    // No slot changes.
    pub fn collect(&mut self, payload: &[u8], queues: &[u8], node: u32, buffer: &mut [u8]) -> Answer
        ensures left { left result self.old.slots payload.now queues.now ≡ leaves (collect_in (held self.old.state self.old.slots payload.now queues.now) node (length buffer.old)) }
        ensures written { buffer.new ≡ buffer_after (collect_in (held self.old.state self.old.slots payload.now queues.now) node (length buffer.old)).reply buffer.old }
        ensures kept { self.new ≡ record { state = result.state; slots = self.old.slots } }
    {
        let answer = kettlefrost::kf_collect(
            self.state,
            &self.slots,
            payload,
            queues,
            node,
            buffer,
        );
        self.state = answer.state;
        answer
    }
}
